// What a merge makes of a range of the parts of the groups.
ghost use Rattle.std.specs.Prelude.{◌≡◌, ◌^◌, ◌<◌, ◌≤◌, ◌++◌, All, List, OnOk, flat_map, length};
ghost use Rattle.std.specs.List.{AllZip};
ghost use Rattle.plan_ast.specs.Folds.{range_of};
ghost use Rattle.plan_ast.specs.Stages.{merges};
ghost use Rattle.build_sides.specs.FoldedRows.{FoldedRow};
ghost use Rattle.build_sides.specs.GroupSides.{Folds, funcs_of, rows_in};
ghost use Rattle.pipe_ops.specs.Inputs.{AreInputs, stage_in};
ghost use Rattle.pipe_ops.specs.Merging.{rows_among};
ghost use Rattle.pipe_ops.specs.StageResults.{Extends, HasRoomForRange, IsTupleRange};
ghost use Rattle.pipe_ops.specs.declared.acc.Acc.TheVariants.{Merge};

use crate::inputs::Inputs;
use crate::results::Done;
use crate::scans::within_limits;
use build_sides::GroupSide;

/// Takes a range of the parts of the groups into an accumulator.
pub(crate) fn merge_tuples(inputs: &Inputs, from: u32, to: u32, side: &mut GroupSide) -> Done
    requires inputs { AreInputs inputs.now }
    requires merges { stage_in inputs.now ≡ merges }
    requires range { IsTupleRange inputs.now from to }
    requires room { HasRoomForRange inputs.now from to (Merge side.old) }
    ensures { OnOk result
        (Extends inputs.now (range_of from to) (Merge side.old) (Merge side.new)) }
{
    let tables = inputs.tables();
    let places = inputs.places();
    within_limits(tables, places.tables.as_slice());
    merge_range(inputs.parts(), from, to, side)
}

// Adds the groups of a range of parts of these sides. The sums are exact if the sides fold at most
// 2^60 rows in all, and `side` at most as many before.
fn merge_range(parts: &[GroupSide], from: u32, to: u32, side: &mut GroupSide) -> Done
    requires order { from ≤ to }
    requires within { to ≤ 16 }
    requires funcs { All (λ other. funcs_of side.old ≡ funcs_of other) parts.now }
    ensures funcs { funcs_of side.new ≡ funcs_of side.old }
    ensures folds { OnOk result ((rows : List FoldedRow) (lists : List (List FoldedRow))
        → AllZip Folds lists parts.now → length (flat_map (λ l. l) lists) ≤ 2 ^ 60
        → length rows ≤ 2 ^ 60 → Folds rows side.old
        → Folds (rows ++ rows_among (range_of from to) (flat_map (λ l. l) lists)) side.new) }
{
    for part in from..to {
        add_part(parts, part, side)?;
    }
    Ok(())
}

// Adds the groups of one part of each of these sides.
fn add_part(parts: &[GroupSide], part: u32, side: &mut GroupSide) -> Done
    requires part { part < 16 }
    requires funcs { All (λ other. funcs_of side.old ≡ funcs_of other) parts.now }
    ensures funcs { funcs_of side.new ≡ funcs_of side.old }
    ensures folds { OnOk result ((rows : List FoldedRow) (lists : List (List FoldedRow))
        → AllZip Folds lists parts.now → length (flat_map (λ l. l) lists) ≤ 2 ^ 60
        → length rows ≤ 2 ^ 61 → Folds rows side.old
        → Folds (rows ++ rows_in part (flat_map (λ l. l) lists)) side.new) }
{
    for other in parts {
        side.merge_part(part, other)?;
    }
    Ok(())
}
