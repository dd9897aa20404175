//! Rows of `col_table` and `csv_tables`: names, tables and lists; texts that stand for tables, and
//! texts that don't, each with its first refusal.
//!
//! It has tests alone, over the public interface of the two layers. Nothing stands above it.
#![tactic(auto)]

#[cfg(test)]
mod limits;
#[cfg(test)]
mod names;
#[cfg(test)]
mod tables;
#[cfg(test)]
mod texts;
