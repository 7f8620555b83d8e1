//! What the head of an image tells.

use proto_model::Mode;

/// The head of an image: the mode of its table, the number of bytes of its text, at most 65,536,
/// and the numbers of rows of the home and of a remote.
#[derive(Clone, Copy, Debug, PartialEq, Eq, Drop)]
pub struct Head {
    pub mode: Mode,
    pub text: usize,
    pub home: u64,
    pub remote: u64,
}
