//! Tests of the commands `store` and `boot`: whole runs in memory.
//!
//! - `words`: how many remotes and slots there may be, and in which mode.
//! - `images`: control stores, byte by byte, and the parts of which tests put others together.
//! - `stored`: what `store` writes.
//! - `long_text`: a file whose laid-out text is longer than it.
//! - `booted`: what `boot` does with a control store.
//! - `refused`: files that are no control store, and why.
//! - `changed`: a control store with one byte changed, or cut off.
//! - `faults`: reads and writes that fail.
#![tactic(auto)]

#[cfg(test)]
mod booted;
#[cfg(test)]
mod changed;
#[cfg(test)]
mod faults;
#[cfg(test)]
mod images;
#[cfg(test)]
mod long_text;
#[cfg(test)]
mod refused;
#[cfg(test)]
mod stored;
#[cfg(test)]
mod words;
