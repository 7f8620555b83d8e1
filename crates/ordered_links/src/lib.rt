//! The links between the home and its remotes.
//!
//! Between the home and each remote lie two links: an up link, which brings packets from the remote
//! to the home, and a down link, which brings packets from the home to the remote. A link loses
//! nothing and keeps the order: what was put first is taken first.
//!
//! - `packet`: what travels.
//! - `links`: the trait, what every implementation of links does to the lists of packets. Each
//!   implementation may say more of itself by two relations of its own, its effects.
//! - `moving`: the trait of links that have moves of their own, as over a network.
//! - `rings`: links that are rings of fixed size.
#![tactic(auto)]

mod links;
mod moving;
mod packet;
mod rings;

pub use links::Links;
pub use moving::MovingLinks;
pub use packet::Packet;
pub use rings::RingLinks;
