//! Laws of the definitions. These functions do nothing: their contracts are the laws.

ghost use Rattle.std.specs.Prelude.{◌≡◌, ℕ};
ghost use Rattle.proto_model.specs.Numbered.{NumberedProtocol};
ghost use Rattle.proto_model.specs.declared.mode.Mode.{Mode};
ghost use Rattle.controller_table.specs.Keys.{NoTwoShareKey};
ghost use Rattle.controller_table.specs.Rows.{home_rows, remote_rows};
ghost use Rattle.controller_table.specs.Sound.{next_by, with_nexts};
ghost use Rattle.controller_table.specs.declared.rows.GuardId.{GuardId};

/// The rows of a protocol tell where each of its guards goes: the bodies that are read from them
/// are the protocol's own, whatever the bodies beside them say of it.
pub fn rows_tell_the_protocol()
    ensures home { (protocol : NumberedProtocol) (mode : Mode) (said : GuardId → ℕ)
        → with_nexts (next_by (home_rows protocol mode)) (with_nexts said protocol.home)
        ≡ protocol.home }
    ensures remote { (protocol : NumberedProtocol) (mode : Mode) (said : GuardId → ℕ)
        → with_nexts (next_by (remote_rows protocol mode)) (with_nexts said protocol.remote)
        ≡ protocol.remote }
{}

/// A place and a trigger are those of one row of the home at most, and of one row of a remote.
pub fn no_two_rows_share_a_key()
    ensures home { (protocol : NumberedProtocol) (mode : Mode) → NoTwoShareKey
        (home_rows protocol mode) }
    ensures remote { (protocol : NumberedProtocol) (mode : Mode) → NoTwoShareKey
        (remote_rows protocol mode) }
{}
