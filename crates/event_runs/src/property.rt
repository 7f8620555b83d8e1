//! What a law is about that speaks of any property.

ghost use Rattle.proto_model.specs.declared.rendezvous.RvConfig.{RvConfig};

/// A property of configurations of the rendezvous meaning.
pub trait Property {
    /// The configuration has it.
    ghost has: { RvConfig → Type 0 };
}
