//! Worked rows of the check of queries: which name is missing, where names stand, and the limits.
//!
//! It stands on `plan_ast` and has tests alone, over its public interface. Nothing stands above it.

#![tactic(auto)]

#[cfg(test)]
mod tests;
