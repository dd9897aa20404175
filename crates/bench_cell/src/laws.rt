// What follows from the ranges that benches fit.
ghost use Rattle.std.specs.Prelude.{◌⊎◌, ◌≤◌, ℕ, All, List};
ghost use Rattle.plan_ast.specs.Folds.{AreDisjoint, range_of};
ghost use Rattle.bench_cell.specs.Benches.{BenchFits, IsShort, bench_tuples};
ghost use Rattle.bench_cell.specs.Tilings.{TilesAreKept, TilesCover, TilesGive};
ghost use Rattle.bench_cell.specs.declared.bench.Bench.{Bench};
ghost use Rattle.bench_cell.specs.declared.plan.Plan.{Plan};

/// A bench may work on a range that begins past all ranges that it fits.
pub fn past_apart()
    ensures { (plan : Plan) (worker id : ℕ) (ranges : List (ℕ × ℕ)) (bench : Bench) (from to : ℕ)
        → BenchFits plan worker id ranges bench → All (λ range. range.1 ≤ from) ranges
        → IsShort bench ⊎ AreDisjoint (bench_tuples bench) (range_of from to) }
{}

/// Benches of all workers that fit claims which tile the total of their task set cover this total,
/// each tuple once, if none is short.
pub fn tiles_cover()
    ensures { TilesCover }
{}

/// The claims of such benches, in ascending order, are just these claims, the oldest first.
pub fn tiles_are_kept()
    ensures { TilesAreKept }
{}

/// What `gather` gives of benches of all workers that fit claims which tile the total: the whole
/// result of the task set and a record of just these claims, or a short record.
pub fn tiles_give()
    ensures { TilesGive }
{}
