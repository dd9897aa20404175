//! How large an object may be.
ghost use Rattle.std.specs.Prelude.{◌≡◌, IfOk, IsOk};
ghost use Rattle.slot_station.specs.Shapes.{IsShape, IsRefusedBy, refusal_of, shape_with};

use crate::reply::MakeRefusal;
use slot_history::shape::{MOST_QUERIES, MOST_SLOTS, MOST_WORKERS, Shape};

/// The shape of an object of so many slots, workers and queries.
pub fn shape_of(slots: u32, workers: u32, queries: u32) -> Result<Shape, MakeRefusal>
    ensures refused { IsRefusedBy (refusal_of slots workers queries) (IsOk result) result }
    ensures shape { IfOk result (λ d. IsShape d × (d ≡ shape_with slots workers queries)) }
{
    if !(1..=MOST_SLOTS).contains(&slots) {
        return Err(MakeRefusal::BadSlots);
    }
    if !(1..=MOST_WORKERS).contains(&workers) {
        return Err(MakeRefusal::BadWorkers);
    }
    if queries > MOST_QUERIES {
        return Err(MakeRefusal::BadQueries);
    }
    Ok(Shape {
        workers,
        slots,
        queries,
    })
}
