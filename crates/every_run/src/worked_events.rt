//! Worked runs: which events are told along them, and where these lead. There is nothing to run
//! here.
#![tactic(auto, unfolding(async_shape::specs::HomeSteps::home_tau, async_shape::specs::HomeSteps::home_take, async_shape::specs::HomeSteps::home_send, async_shape::specs::HomeSteps::home_drop, async_shape::specs::HomeSteps::up, async_shape::specs::RemoteSteps::remote_tau, async_shape::specs::RemoteSteps::remote_send, async_shape::specs::RemoteSteps::remote_answer, async_shape::specs::RemoteSteps::remote_reply, async_shape::specs::RemoteSteps::down))]

ghost use Rattle.std.specs.Prelude.{◌≡◌, [], ◌∷◌, Some, None};
ghost use Rattle.proto_model.specs.Rendezvous.{rv_start};
ghost use Rattle.event_runs.specs.Reached.{after_events};
ghost use Rattle.async_shape.specs.WorkedProtocols.{migratory, lean, plain};
ghost use Rattle.async_shape.specs.WorkedCrossing.{crossing_0};
ghost use Rattle.async_shape.specs.WorkedPlain.{plain_0};
ghost use Rattle.abstraction_map.specs.WorkedCrossingMeans.{crossing_6_means};
ghost use Rattle.abstraction_map.specs.WorkedPlainMeans.{plain_8_means};
ghost use Rattle.every_run.specs.ToldEvents.{told_events};

use async_shape::Step;
use proto_model::Event;

/// A remote asks, and its request is granted by a reply: six steps are three events, and these lead
/// to what the last configuration stands for.
pub fn a_grant_is_three_events()
    ensures told { told_events (lean migratory 2) crossing_0
        (Step.RemoteTau 0 0 ∷ Step.RemoteSend 0 ∷ Step.Up 0 ∷ Step.HomeTake 0 ∷ Step.HomeSend 0 0
        ∷ Step.Down 0 ∷ [])
        ≡ Event.TauRemote 0 0 ∷ Event.Up 0 0 0 ∷ Event.Down 0 0 0 ∷ [] }
    ensures leads { after_events migratory (rv_start migratory 2)
        (Event.TauRemote 0 0 ∷ Event.Up 0 0 0 ∷ Event.Down 0 0 0 ∷ []) ≡ Some crossing_6_means }
{}

/// The same in mode plain, by nine steps: the grant is an event as soon as the remote answers it.
pub fn a_grant_that_is_acked_is_three_events()
    ensures told { told_events (plain migratory 2) plain_0
        (Step.RemoteTau 0 0 ∷ Step.RemoteSend 0 ∷ Step.Up 0 ∷ Step.HomeTake 0 ∷ Step.HomeSend 0 0
        ∷ Step.Down 0 ∷ Step.Down 0 ∷ Step.RemoteAnswer 0 ∷ Step.Up 0 ∷ [])
        ≡ Event.TauRemote 0 0 ∷ Event.Up 0 0 0 ∷ Event.Down 0 0 0 ∷ [] }
    ensures leads { after_events migratory (rv_start migratory 1)
        (Event.TauRemote 0 0 ∷ Event.Up 0 0 0 ∷ Event.Down 0 0 0 ∷ []) ≡ Some plain_8_means }
{}

/// Steps that aren't enabled tell no event, and the ones after them are taken all the same. Where an
/// event doesn't take place, events lead nowhere.
pub fn what_is_refused_tells_nothing()
    ensures told { told_events (lean migratory 2) crossing_0
        (Step.Up 0 ∷ Step.RemoteSend 5 ∷ Step.RemoteTau 0 0 ∷ Step.RemoteTau 0 0 ∷ [])
        ≡ Event.TauRemote 0 0 ∷ [] }
    ensures nowhere { after_events migratory (rv_start migratory 2)
        (Event.TauRemote 0 0 ∷ Event.TauRemote 0 0 ∷ []) ≡ None }
{}
