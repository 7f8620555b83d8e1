//! Laws of the definitions. These functions do nothing: their contracts are the laws.

ghost use Rattle.std.specs.Prelude.{◌≡◌, ℕ, nat_lt, ◌&&◌, ◌==◌, List};
ghost use Rattle.std.specs.List.{list_any};
ghost use Rattle.proto_model.specs.Faults.{IsWellFormed};
ghost use Rattle.proto_model.specs.Names.{state_names};
ghost use Rattle.proto_model.specs.NumberSets.{has_number};
ghost use Rattle.proto_model.specs.Numbered.{numbered, place_or_zero, state_set};
ghost use Rattle.proto_model.specs.Proper.{IsProperChecked};
ghost use Rattle.proto_model.specs.Tokens.{Text};
ghost use Rattle.proto_model.specs.declared.protocol.State.{State};

use proto_model::Protocol;

/// The numbered form of a well-formed protocol is proper, and so are its claims.
pub fn well_formed_is_proper(protocol: &Protocol)
    requires { IsWellFormed protocol.now }
    ensures { IsProperChecked (numbered protocol.now) }
{
    let _ = protocol;
}

/// The set of states of a claim has, of the states with numbers below 64, those that one of its
/// names means, and no other.
pub fn state_set_by_names()
    ensures { (states : List State) (names : List Text) (state : ℕ)
        → has_number (state_set states names) state
        ≡ (nat_lt state 64
        && list_any (λ name. place_or_zero name (state_names states) == state) names) }
{}
