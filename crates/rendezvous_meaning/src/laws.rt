//! Laws of the definitions. These functions do nothing: their contracts are the laws.

ghost use Rattle.std.specs.Prelude.{◌≡◌, ◌↔◌, ℕ, List, Some, None};
ghost use Rattle.proto_model.specs.Numbered.{NumberedProtocol};
ghost use Rattle.proto_model.specs.Rendezvous.{RvStep};
ghost use Rattle.proto_model.specs.RendezvousNext.{rv_next};
ghost use Rattle.proto_model.specs.declared.numbered.NumberedClaim.{NumberedClaim};
ghost use Rattle.proto_model.specs.declared.rendezvous.Event.{Event};
ghost use Rattle.proto_model.specs.declared.rendezvous.RvConfig.{RvConfig};
ghost use Rattle.rendezvous_meaning.specs.Claims.{broken, AllHold, IsFirstBroken};

/// An event leads from a configuration to the one that is computed, where one is, and to no other.
/// So a trace, which is defined by the configurations that are computed, shows steps of the
/// rendezvous meaning and leaves none out.
pub fn next_is_the_step()
    ensures { (protocol : NumberedProtocol) (config next : RvConfig) (event : Event)
        → ((rv_next protocol config event ≡ Some next) ↔ RvStep protocol config event next) }
{}

/// The claim that is told as broken is the first that doesn't hold, by what claims say of the
/// remotes one by one: each claim before it holds. None is told exactly where every claim holds.
pub fn a_broken_claim_is_the_first_that_does_not_hold()
    ensures none { (claims : List NumberedClaim) (states : List ℕ)
        → ((broken claims states ≡ None) ↔ AllHold claims states) }
    ensures first { (claims : List NumberedClaim) (states : List ℕ) (number : ℕ)
        → ((broken claims states ≡ Some number) ↔ IsFirstBroken claims states number) }
{}
