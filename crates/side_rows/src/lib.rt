//! Worked rows of the two sides: rows by key, totals by key, and keys that share a bucket.
//!
//! It stands on `build_sides` and has tests alone, over its public interface. Nothing stands above
//! it.

#![tactic(auto)]

#[cfg(test)]
mod tests;
