//! Laws of what is stored and booted. These functions do nothing: their contracts are the laws.

ghost use Rattle.std.specs.Prelude.{◌≡◌};
ghost use Rattle.proto_model.specs.declared.mode.Mode.{Mode};
ghost use Rattle.proto_model.specs.declared.protocol.Protocol.{Protocol};
ghost use Rattle.rvc_top.specs.BootedRuns.{BootsAsRun};
ghost use Rattle.rvc_top.specs.Stores.{IsStorable, stored_image};

/// An image is that of one protocol in one mode.
pub fn an_image_is_of_one_protocol()
    ensures { (p q : Protocol) (m n : Mode) → IsStorable p → IsStorable q
        → stored_image p m ≡ stored_image q n → (p ≡ q) × (m ≡ n) }
{}

/// Booting the image that is stored of a protocol in a mode is running the protocol's file in this
/// mode.
pub fn booting_is_running()
    ensures { BootsAsRun }
{}
