//! Rows of `script_json` and `load_gen`: scripts that are read and written, scripts that are
//! refused with the place of what is wrong, and inputs that are made from a number.
//!
//! It has tests alone, over the public interface of the two layers. Nothing stands above it.
#![tactic(auto)]

#[cfg(test)]
mod canonical;
#[cfg(test)]
mod limits;
#[cfg(test)]
mod loads;
#[cfg(test)]
mod outcomes;
#[cfg(test)]
mod refusals;
