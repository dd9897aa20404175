//! Rows of `outside_io`: files read and sinks written, in memory and outside, with each call
//! failing once; and the meters and gates of workers.
//!
//! It stands on `outside_io` alone and has tests alone, over its public interface. Nothing stands
//! above it.
#![tactic(auto)]

#[cfg(test)]
mod edge;
#[cfg(test)]
mod files;
#[cfg(test)]
mod sinks;
#[cfg(test)]
mod workers;
