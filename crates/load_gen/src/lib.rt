//! Large inputs from a number: two tables and a script of 40 queries over them.
//!
//! Everything is drawn in one order from one generator, so a number always gives the same input.
//! This layer stands on the scripts of `script_json` and the texts of `csv_tables`.
//!
//! The one fact that the layers above may use: `generate` gives the input that `generated` defines.
//! `make_part` gives the text of one of its parts, which reads back as that part.
#![tactic(auto)]

mod draws;
mod generated;
pub mod laws;
mod names;
mod parts;
mod queries;
mod summary;
mod tables;
mod texts;

pub use crate::generated::{Generated, generate};
pub use crate::parts::{Part, make_part};
pub use crate::queries::QUERY_COUNT;
pub use crate::summary::Summary;
pub use crate::tables::{T_ROWS, U_ROWS};
