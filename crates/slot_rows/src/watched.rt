//! A caller over any table on one thread, a caller over any station, and its use over a table.
ghost use Rattle.std.specs.Prelude.{◌≡◌, ◌+◌, ◌<◌};

use crate::anything::Anything;
use one_thread::object::SlotObject;
use one_thread::table::OneTable;
use plain_slots::table::PlainTable;
use slot_station::station::{Fits, Station};
use slot_station::{StepWork, Steps, run_uncounted};
use std::snapshot::Snapshot;
use std::sync::ledger::Ledger;
use std::test::Fail;

/// How many queries were admitted, as a worker sees it.
fn admitted<B: Fits, O: SlotObject, L: Ledger>(
    table: &mut OneTable<B, O>,
    worker: u32,
    steps: &mut Steps<L>,
) -> u32
    requires { worker < table.old.shape.workers }
    ensures { steps.new ≡ steps.old + 1 }
{
    let mut seat = table.seat(worker);
    let admitted = seat.arrivals(steps);
    drop(seat);
    admitted
}

/// How many queries were admitted, and how many task sets are done.
fn progress<B: Fits, S: Station<B>, L: Ledger>(station: &mut S, steps: &mut Steps<L>) -> (u32, u32)
    ensures { steps.new ≡ steps.old + 2 }
{
    let admitted = station.arrivals(steps);
    (admitted, station.finished(steps))
}

/// Watches a table, and does not say in how many steps.
#[derive(Drop)]
struct Watch {
    table: PlainTable<Anything>,
}

impl StepWork for Watch {
    ghost use Rattle.std.specs.Prelude.{◌<◌};

    type Output = (u32, u32);

    ghost asks = { λ w. 0 < w.table.shape.workers };

    ghost gives = { λ _ _. Unit {0} };

    fn run<L: Ledger>(self, steps: &mut Steps<L>) -> (u32, u32) {
        let Watch { mut table } = self;
        let mut seat = table.seat(0);
        let seen = progress(&mut seat, steps);
        drop(seat);
        drop(table);
        seen
    }
}

#[test]
fn a_table_is_watched(rt: HostRuntime) -> Result<(), Fail> {
    let table = PlainTable::<Anything>::make(rt.alloc(), 2, 3, 0, Snapshot::of(&()))?;
    assert_eq!(rt; run_uncounted(Watch { table }), (0, 0));
    Ok(())
}
