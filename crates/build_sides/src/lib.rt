//! The two sides that stages build and read: rows by key for joins, and totals by key for groups.
//!
//! A `HashSide` has, for each key, the rows of the build table with this key. A `GroupSide` has,
//! for each key, the totals of the rows with this key. Both number their keys as they come, in a
//! table of chains by bucket (`key_table`), and keep what belongs to a key by the key's number. So
//! a row costs one look-up, and an allocation of its own only in a join whose key has other rows.
//! Many rows at a time cost less: `unique_matches` looks them up, and `fold_rows` folds them.
//!
//! It stands on `col_table`, tables, and on `plan_ast`: aggregates, and what they make of values.
//!
//! What the layer above may use: a `HashSide` is a finite map (`rows_at`), and a `GroupSide` folds
//! the rows that it was given, key by key (`Folds`).

#![tactic(auto)]

mod columns;
mod group_side;
mod hash_side;
mod key_table;
mod links;

pub use group_side::GroupSide;
pub use hash_side::HashSide;
pub use key_table::Key;
