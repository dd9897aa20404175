// The groups that the accumulators of a merge have together.
ghost use Rattle.std.specs.Prelude.{◌≡◌, ◌<◌, ◌++◌, All, IfOk, IsPermutation, IsSortedBy, OnOk};
ghost use Rattle.std.specs.Prelude.{flat_map, length, map};
ghost use Rattle.std.specs.Cmp.Lexicographic.{slice_cmp};
ghost use Rattle.std.specs.Ordering.{int_cmp, is_lt};
ghost use Rattle.plan_ast.specs.Bounds.{IsWithin};
ghost use Rattle.build_sides.specs.Numbered.{AreDistinct};
ghost use Rattle.pipe_ops.specs.Merging.{HasDistinctGroups, group_at, groups_in, held_groups};
ghost use Rattle.pipe_ops.specs.Merging.{key_values};

use crate::acc::Acc;
use crate::groups::sort_by_key;
use build_sides::{GroupSide, Key};
use col_table::ListOf;
use plan_ast::Group;
use std::alloc::{AllocError, Global};

/// The groups of all accumulators, in ascending order of their keys, which have `width` values
/// each.
pub(crate) fn merged_groups(
    alloc: Global,
    width: usize,
    accs: Vec<Acc>,
) -> Result<Vec<Group>, AllocError>
    requires width { IsWithin 1 2 width }
    ensures moved { IfOk result (λ groups.
        IsPermutation (flat_map (held_groups width) accs.items) groups.items) }
    ensures sorted { IfOk result (λ groups.
        IsSortedBy (λ one other. is_lt (slice_cmp int_cmp one.key other.key)) groups.items) }
    ensures distinct { IfOk result (λ _. All HasDistinctGroups accs.items) }
{
    let mut groups = all_groups(alloc, width, accs.as_slice())?;
    sort_by_key(&mut groups);
    Ok(groups)
}

// The groups of all accumulators.
fn all_groups(alloc: Global, width: usize, accs: &[Acc]) -> Result<Vec<Group>, AllocError>
    requires width { IsWithin 1 2 width }
    ensures groups { IfOk result (λ groups. groups.items ≡ flat_map (held_groups width) accs.now) }
    ensures distinct { IfOk result (λ _. All HasDistinctGroups accs.now) }
{
    let mut groups = Vec::new(alloc);
    for acc in accs {
        add_groups(alloc, width, acc, &mut groups)?;
    }
    Ok(groups)
}

// Adds the groups of an accumulator.
fn add_groups(
    alloc: Global,
    width: usize,
    acc: &Acc,
    groups: &mut Vec<Group>,
) -> Result<(), AllocError>
    requires width { IsWithin 1 2 width }
    ensures groups { OnOk result
        (groups.new.items ≡ groups.old.items ++ held_groups width acc.now) }
    ensures distinct { OnOk result (HasDistinctGroups acc.now) }
{
    match acc {
        Acc::Merge(side) => {
            groups.reserve(side.len())?;
            for number in 0..side.len() {
                groups.push(group_of(alloc, width, side, number)?)?;
            }
            Ok(())
        }
        _ => Ok(()),
    }
}

// The group of a side with this number.
fn group_of(
    alloc: Global,
    width: usize,
    side: &GroupSide,
    number: usize,
) -> Result<Group, AllocError>
    requires width { IsWithin 1 2 width }
    requires number { number < length side.now.keys }
    ensures group { IfOk result (λ group. group ≡ group_at width side.now number) }
    ensures distinct { IfOk result (λ _. AreDistinct side.now.keys) }
{
    let key = values_of_key(alloc, width, side.key(number))?;
    let mut totals = Vec::with_capacity(alloc, side.aggregates())?;
    for place in 0..side.aggregates() {
        totals.push(side.total(number, place))?;
    }
    Ok(Group {
        key,
        values: ListOf::of(totals),
    })
}

// The one or two values of a key.
fn values_of_key(alloc: Global, width: usize, key: Key) -> Result<ListOf<i64>, AllocError>
    requires { IsWithin 1 2 width }
    ensures { IfOk result (λ values. values ≡ key_values width key) }
{
    let values = [key.first, key.second];
    Ok(ListOf::of(Vec::from_slice(alloc, &values[..width])?))
}
