// What a scan goes over.
use build_sides::HashSide;
use plan_ast::{NamedTable, Places};
use std::sync::Arc;

/// The tables, the places of a query in them, and the sides of its joins.
#[derive(Clone, Copy)]
pub(crate) struct Scan<'a> {
    pub(crate) tables: &'a [NamedTable],
    pub(crate) places: &'a Places,
    pub(crate) built: &'a [Arc<HashSide>],
}
