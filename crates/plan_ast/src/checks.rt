// The check of a query against its tables.
ghost use Rattle.std.specs.Prelude.{◌≡◌, ◌⊎◌, IfErr, IfOk, None, OnOk, Some};
ghost use Rattle.plan_ast.specs.Bounds.{IsInBounds};
ghost use Rattle.plan_ast.specs.Checks.{IsCheckedFor, places_of, query_of};
ghost use Rattle.plan_ast.specs.Names.{refusal_of};

use crate::lookup::find_places;
use crate::places::Places;
use crate::queries::{NamedTable, Query};
use crate::refusals::PlanRefusal;
use std::alloc::Global;

/// A query whose names were all found, and where they stand in its tables.
#[derive(Debug, Drop)]
pub struct Checked {
    query: Query,
    places: Places,
}

impl Checked {
    /// The query as it was given. It allocates nothing.
    pub fn query(&self) -> &Query
        ensures { result.now ≡ query_of self.now }
    {
        &self.query
    }

    /// The places of the query's names in the tables for which it was checked. It allocates
    /// nothing.
    pub fn places(&self) -> &Places
        ensures { result.now ≡ places_of self.now }
    {
        &self.places
    }
}

/// Looks up each name in a query, and refuses the first that isn't there. The order is: the scanned
/// table and the columns of its filters; join by join the table, the columns to its left and right,
/// and those of its filters; the columns of the output, those of a group's key before those of the
/// aggregates.
///
/// A column of a side that the query doesn't have is unknown. So is a column to the left of a join
/// if its side doesn't come before that join.
///
/// `check` copies the query once, after it found all names.
pub fn check(alloc: Global, query: &Query, tables: &[NamedTable]) -> Result<Checked, PlanRefusal>
    requires { IsInBounds query.now }
    ensures accepted { OnOk result (refusal_of tables.now query.now ≡ None) }
    ensures same_query { IfOk result (λ checked. query_of checked ≡ query.now) }
    ensures placed { IfOk result (IsCheckedFor tables.now) }
    ensures refused { IfErr result
        (λ e. (e ≡ PlanRefusal.OutOfMemory) ⊎ (refusal_of tables.now query.now ≡ Some e)) }
{
    let places = find_places(alloc, tables, query)?;
    let query = query.clone()?;
    Ok(Checked { query, places })
}
