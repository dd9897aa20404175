//! Integer tables: legal names, columns of `i64` values, and rows that are added one at a time.
//!
//! This is the lowest layer of the data side and uses `std` alone. The layers above read tables
//! from text, check queries against them and scan them.
//!
//! The one fact that they may use: a table is a list of names and a list of rows (`NamedRows`).
//! There are 1 to 32 names, and no two are equal. Each row has one value for each name, and there
//! are at most 1,048,576 rows (`IsTable`). `ColumnName::as_str` says that a name is valid.
//!
//! It also has what the readers of texts above share: bytes without their byte order mark
//! (`without_mark`), and what it means that exactly one verdict is right (`HasOneVerdict`).
#![tactic(auto)]

mod lists;
mod mark;
mod name;
mod table;

pub use crate::lists::{ListOf, Text};
pub use crate::mark::without_mark;
pub use crate::name::{BadName, ColumnName, MAX_NAME_BYTES, is_plain};
pub use crate::table::{MAX_COLUMNS, MAX_ROWS, RowRefusal, ShapeRefusal, Table, limits};

/// The name of a column or of a table.
pub type Name = ColumnName;
