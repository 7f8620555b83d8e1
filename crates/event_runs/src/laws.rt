//! Laws of the definitions. These functions do nothing: their contracts are the laws.

ghost use Rattle.std.specs.Prelude.{◌≡◌, ◌↔◌, ◌++◌, ℕ, List, Some};
ghost use Rattle.proto_model.specs.Numbered.{NumberedProtocol};
ghost use Rattle.proto_model.specs.Rendezvous.{RvStep, rv_start};
ghost use Rattle.proto_model.specs.declared.rendezvous.Event.{Event};
ghost use Rattle.proto_model.specs.declared.rendezvous.RvConfig.{RvConfig};
ghost use Rattle.event_runs.specs.Reached.{Leads, after_events, IsReached};

use crate::property::Property;

/// Events lead from a configuration to the one that is computed, if one is, and to no other. Events
/// after other events lead on from where those lead.
pub fn where_events_lead_is_computed()
    ensures computed { (protocol : NumberedProtocol) (events : List Event) (c d : RvConfig)
        → ((after_events protocol c events ≡ Some d) ↔ Leads protocol events c d) }
    ensures joined { (protocol : NumberedProtocol) (first later : List Event) (b c d : RvConfig)
        → Leads protocol first b c → Leads protocol later c d
        → Leads protocol (first ++ later) b d }
{}

/// The start is reached, and so is each configuration to which an event leads from one that is
/// reached.
pub fn events_reach_on()
    ensures starts { (protocol : NumberedProtocol) (n : ℕ)
        → IsReached protocol n (rv_start protocol n) }
    ensures goes_on { (protocol : NumberedProtocol) (n : ℕ) (e : Event) (c d : RvConfig)
        → IsReached protocol n c → RvStep protocol c e d → IsReached protocol n d }
{}

/// No others are reached: what holds of the start, and is kept by each event, holds of each
/// configuration that is reached.
pub fn what_each_event_keeps<P: Property>()
    ensures { (protocol : NumberedProtocol) (n : ℕ) → P.has (rv_start protocol n)
        → ((e : Event) (c d : RvConfig) → P.has c → RvStep protocol c e d → P.has d)
        → (c : RvConfig) → IsReached protocol n c → P.has c }
{}
