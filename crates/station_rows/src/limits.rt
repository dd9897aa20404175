//! The limits of tables, on each form, and the history of a table that nobody used.
ghost use Rattle.std.specs.Prelude.{◌≡◌, [], IfOk};

use crate::board_table::BoardTable;
use crate::form::Form;
use crate::subject::{Piece, Sets};
use plain_slots::table::PlainTable;
use slot_proto::proto::Proto;
use slot_station::History;
use slot_station::reply::MakeRefusal;
use std::alloc::Global;
use std::process::Abort;
use std::snapshot::Snapshot;
use std::test::Fail;

/// Asks for tables at each limit and just past it. The answer at the largest table is a table.
fn ask_for_tables<T: Form>(rt: &impl Abort, alloc: Global) {
    let rows = [
        ((0, 1, 1), Some(MakeRefusal::BadSlots)),
        ((129, 1, 1), Some(MakeRefusal::BadSlots)),
        ((1, 0, 1), Some(MakeRefusal::BadWorkers)),
        ((1, 65, 1), Some(MakeRefusal::BadWorkers)),
        ((1, 1, 4097), Some(MakeRefusal::BadQueries)),
        ((0, 65, 4097), Some(MakeRefusal::BadSlots)),
        ((128, 64, 4096), None),
    ];
    for ((slots, workers, queries), refusal) in rows {
        let totals = Vec::new(alloc);
        let table = T::make(alloc, slots, workers, &Sets { queries, totals });
        assert_eq!(rt; table.err(), refusal, "at {slots}, {workers}, {queries}");
    }
}

#[test]
fn tables_have_limits(rt: HostRuntime) -> Result<(), Fail> {
    ask_for_tables::<PlainTable<Piece>>(&rt, rt.alloc());
    ask_for_tables::<Proto<Piece>>(&rt, rt.alloc());
    ask_for_tables::<BoardTable>(&rt, rt.alloc());
    Ok(())
}

/// The history of a table on which nobody made a call.
fn unused(alloc: Global, sets: &Sets) -> Result<History, MakeRefusal>
    ensures { IfOk result (λ history. history ≡ []) }
{
    let table = PlainTable::<Piece>::make(alloc, 2, 3, sets.queries, Snapshot::of(sets))?;
    Ok(table.end())
}

#[test]
fn tables_end(rt: HostRuntime) -> Result<(), Fail> {
    let totals = Vec::new(rt.alloc());
    let history = unused(rt.alloc(), &Sets { queries: 0, totals })?;
    drop(history);
    Ok(())
}
