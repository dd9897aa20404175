//! Queries, the check of a query against its tables, and answers.
//!
//! A query scans one table, may filter its rows and join further tables, and puts out rows, totals
//! or groups. This crate has the types of queries and answers, says what the answer to a query is
//! (`specs/Answer.antt`), and checks that every table and column that a query names is there.
//!
//! It stands on `col_table`: a table is a list of column names and a list of rows.
//!
//! What the layers above may use: `check` accepts a query exactly if every name in it is there, and
//! otherwise gives the first that isn't. A `Checked` holds that query and the places of its names.

#![tactic(auto)]

mod answers;
mod bounds;
mod checks;
mod laws;
mod lookup;
mod places;
mod queries;
mod refusals;
mod task_sets;

pub use answers::{AggValue, Answer, Group};
pub use bounds::{
    MAX_AFTER, MAX_COST, MAX_FILTERS, MAX_GROUP_COLUMNS, MAX_JOINS, MAX_OUTPUTS, MAX_WEIGHT,
};
pub use checks::{Checked, check};
pub use laws::{answers_all, folds_add, folds_nothing, sums_agree};
pub use lookup::table_of;
pub use places::{AggAt, ColumnAt, FilterAt, JoinAt, OutputAt, Places};
pub use queries::{Agg, Filter, Func, Join, NameRef, NamedTable, Op, Output, Query};
pub use refusals::PlanRefusal;
pub use task_sets::{GROUP_PARTS, stage_total, stages, table_of_side};
