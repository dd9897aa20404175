//! CSV texts to tables, and back.
//!
//! This layer uses the tables of `col_table`. It reads and writes what the kit's `csv` does with
//! its defaults: the first record gives the names, and each other record is a row. A machine of our
//! own reads records (`scan`); it is proved to give those of `csv`. Rows of plain numbers take a
//! shorter way (`plain`).
//!
//! The facts that the layers above may use: `load` gives the table that the text stands for
//! (`LoadsTable`), or its first refusal (`RefusesTable`). Each text has exactly one of them. The
//! text that `write_table` gives loads as the same table, unless the first name begins with a byte
//! order mark.
#![tactic(auto)]

mod header;
pub mod laws;
mod number;
mod plain;
mod reading;
mod refusal;
mod rows;
mod scan;
mod writing;

pub use crate::reading::load;
pub use crate::refusal::TableRefusal;
pub use crate::writing::{push_line, write_table};
