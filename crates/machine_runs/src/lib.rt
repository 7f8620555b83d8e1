//! Tests of the machine and of what its steps mean: whole runs over links in memory.
//!
//! - `rows`: what a run is given, and how each of its steps must go.
//! - `standing`: where a machine stands, compared with where it must.
//! - `playing`: a row, played on a machine.
//! - `protocols`: the protocols of the rows.
//! - `three_items`: three packets on one link.
//! - `crossing`: two requests that cross.
//! - `both_acked`: a request of each side, and an ack of each.
//! - `displacement`: a held request that another one displaces.
//! - `refused`: steps that are not enabled.
//! - `step_texts`: the texts of steps.
//!
//! Nothing here is proved but that it is safe: what it is for are the values that tests compare.
#![tactic(auto)]

#[cfg(test)]
mod both_acked;
#[cfg(test)]
mod crossing;
#[cfg(test)]
mod displacement;
#[cfg(test)]
mod playing;
#[cfg(test)]
mod protocols;
#[cfg(test)]
mod refused;
#[cfg(test)]
mod rows;
#[cfg(test)]
mod standing;
#[cfg(test)]
mod step_texts;
#[cfg(test)]
mod three_items;
