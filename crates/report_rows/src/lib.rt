//! Rows of `report_text`: answers and reports, each with its whole text.
//!
//! It has tests alone, over the public interface of the layer. Nothing stands above it.
#![tactic(auto)]

#[cfg(test)]
mod answers;
#[cfg(test)]
mod reports;
