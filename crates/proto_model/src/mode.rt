//! The two modes in which a protocol is compiled.

/// How requests are answered. In mode `Plain` each is acked. In mode `Lean` a request that is
/// always followed by the same message back is paired with it, and this reply stands for the ack.
#[derive(Clone, Copy, Debug, PartialEq, Eq, Drop)]
pub enum Mode {
    Plain,
    Lean,
}
