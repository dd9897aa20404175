//! Scripts: JSON texts to tables and queries, and back.
//!
//! A script says which tables there are and which queries run over them. This layer uses the
//! queries of `plan_ast` and the JSON values of `serde_json`. The format is `specs/Format.antt`.
//! It has a definition for each form, which says what a value stands for, or its first refusal
//! with its path.
//!
//! The one fact that the layers above may use: `read_script` gives a script exactly if the bytes
//! stand for it (`ReadsScript`). Otherwise it gives the first refusal with its path
//! (`RefusesScript`). Only out of memory can replace either.
#![tactic(auto)]

mod form;
pub mod laws;
mod queries;
mod read;
mod refusal;
mod script;
mod tables;
mod words;
mod write;

pub use crate::read::read_script;
pub use crate::refusal::{Path, PathStep, ScriptRefusal};
pub use crate::script::{MAX_FILE_BYTES, MAX_QUERIES, MAX_TABLES, Script, TableEntry};
pub use crate::write::write_script;
