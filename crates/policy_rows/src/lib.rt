//! Rows of `prio_decay`, `stride_set` and `morsel_size`: priorities, passes and sizes of morsels.
//!
//! It has tests alone, over the public interface of the three layers. Nothing stands above it.
#![tactic(auto)]

#[cfg(test)]
mod decays;
#[cfg(test)]
mod sizes;
#[cfg(test)]
mod strides;
