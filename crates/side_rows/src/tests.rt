// Worked rows, and keys that all fall into one bucket.
ghost use Rattle.std.specs.Prelude.{◌≡◌, ◌∷◌, [], IfOk};
ghost use Rattle.build_sides.specs.GroupSides.{funcs_of};

use build_sides::{GroupSide, HashSide};
use col_table::{ColumnName, Table};
use plan_ast::{AggAt, AggValue, ColumnAt, Func};
use std::process::Abort;
use std::test::Fail;

// How many keys the crowded sides have.
const CROWD: u32 = 20_000;

// One of many keys that a new table puts into one bucket, however many buckets it has: a key's hash
// is the upper half of its product with an odd number.
fn crowded(number: u32) -> i64 {
    u64::from(number)
        .wrapping_mul(0xf1de_83e1_9937_733d)
        .cast_signed()
}

// That a side has these rows of a key.
fn has_rows(rt: &impl Abort, side: &HashSide, key: i64, rows: &[u32]) {
    assert!(rt; side.matches(key) == rows);
}

// A side of these keys and rows.
fn side_of(rt: &impl AllocGlobal, rows: &[(i64, u32)]) -> Result<HashSide, Fail> {
    let mut side = HashSide::new(rt.alloc());
    for (key, row) in rows {
        side.add_row(*key, *row)?;
    }
    Ok(side)
}

#[test]
fn rows_by_their_key(rt: HostRuntime) -> Result<(), Fail> {
    let side = side_of(&rt, &[(1, 0), (2, 1), (1, 2), (-1, 3), (1, 4)])?;
    has_rows(&rt, &side, 1, &[0, 2, 4]);
    has_rows(&rt, &side, 2, &[1]);
    has_rows(&rt, &side, -1, &[3]);
    assert!(rt; side.matches(0).is_empty());
    assert!(rt; !side.is_unique());
    Ok(())
}

#[test]
fn absorbs_the_rows_of_each_key(rt: HostRuntime) -> Result<(), Fail> {
    let mut side = side_of(&rt, &[(1, 7), (1, 3)])?;
    side.absorb(&side_of(&rt, &[(2, 5), (1, 4), (2, 6)])?)?;
    has_rows(&rt, &side, 1, &[7, 3, 4]);
    has_rows(&rt, &side, 2, &[5, 6]);
    side.absorb(&HashSide::new(rt.alloc()))?;
    has_rows(&rt, &side, 1, &[7, 3, 4]);
    Ok(())
}

#[test]
fn finds_the_rows_of_crowded_keys(rt: HostRuntime) -> Result<(), Fail> {
    let mut side = HashSide::new(rt.alloc());
    for row in 0..CROWD {
        side.add_row(crowded(row), row)?;
    }
    for row in 0..CROWD {
        assert!(rt; side.matches(crowded(row)) == [row].as_slice(), "at {row}");
    }
    assert!(rt; side.matches(crowded(CROWD)).is_empty());
    assert!(rt; side.is_unique());
    Ok(())
}

#[test]
fn finds_the_one_row_of_many_keys(rt: HostRuntime) -> Result<(), Fail> {
    let mut side = HashSide::new(rt.alloc());
    for (row, key) in [5, -1, 7].into_iter().enumerate() {
        side.add_row(key, row as u32)?;
    }
    assert!(rt; side.is_unique());
    let column = [7, 4, -1, 7];
    let mut lefts = [9u32; 4];
    let mut rights = [9u32; 4];
    let count = side.unique_matches(&column, &[3, 1, 2, 0], &mut lefts, &mut rights);
    assert!(rt; count == 3);
    assert!(rt; lefts[0] == 3 && lefts[1] == 2 && lefts[2] == 0);
    assert!(rt; rights[0] == 2 && rights[1] == 1 && rights[2] == 2);
    Ok(())
}

// A side that counts, sums, and takes the least value and the greatest one.
fn groups(rt: &(impl Abort + AllocGlobal)) -> Result<GroupSide, Fail>
    ensures { IfOk result (λ side. funcs_of side
        ≡ Func.Count ∷ Func.Sum ∷ Func.Min ∷ Func.Max ∷ []) }
{
    let aggs = vec![in rt.alloc(); Func::Count, Func::Sum, Func::Min, Func::Max]?;
    Ok(GroupSide::new(rt.alloc(), aggs)?)
}

// Folds a row of this key, with one value for all aggregates.
fn fold(
    rt: &(impl Abort + AllocGlobal),
    side: &mut GroupSide,
    key: &[i64],
    value: i64,
) -> Result<(), Fail>
    ensures { funcs_of side.new ≡ funcs_of side.old }
{
    assert!(rt; 1 <= key.len());
    assert!(rt; key.len() <= 2);
    assert!(rt; side.aggregates() == 4);
    side.fold_row(key, &[0, value, value, value])?;
    Ok(())
}

// A total as a number, none if it is of nothing.
fn value_of(total: AggValue) -> Option<i128> {
    match total {
        AggValue::Count(count) => Some(i128::from(count)),
        AggValue::Sum(sum) => Some(sum),
        AggValue::Least(Some(value)) | AggValue::Greatest(Some(value)) => Some(i128::from(value)),
        _ => None,
    }
}

// A group's total that the aggregate at this place makes.
fn total(
    rt: &(impl Abort + AllocGlobal),
    side: &GroupSide,
    number: usize,
    place: usize,
) -> Option<i128> {
    assert!(rt; number < side.len());
    assert!(rt; place < side.aggregates());
    value_of(side.total(number, place))
}

// Whether a group has these totals: its count, its sum, its least value and its greatest one.
fn has(
    rt: &(impl Abort + AllocGlobal),
    side: &GroupSide,
    number: usize,
    totals: (i128, i128, i128, i128),
) -> bool {
    let (count, sum, least, greatest) = totals;
    total(rt, side, number, 0) == Some(count)
        && total(rt, side, number, 1) == Some(sum)
        && total(rt, side, number, 2) == Some(least)
        && total(rt, side, number, 3) == Some(greatest)
}

#[test]
fn totals_by_their_key(rt: HostRuntime) -> Result<(), Fail> {
    let mut side = groups(&rt)?;
    fold(&rt, &mut side, &[1], 10)?;
    fold(&rt, &mut side, &[-1], i64::MIN)?;
    fold(&rt, &mut side, &[1], 20)?;
    fold(&rt, &mut side, &[-1], i64::MIN)?;
    assert!(rt; side.len() == 2);
    assert!(rt; has(&rt, &side, 0, (2, 30, 10, 20)));
    let least = i128::from(i64::MIN);
    assert!(rt; has(&rt, &side, 1, (2, 2 * least, least, least)));
    Ok(())
}

#[test]
fn keys_of_two_values_differ_in_either(rt: HostRuntime) -> Result<(), Fail> {
    let mut side = groups(&rt)?;
    fold(&rt, &mut side, &[1, 2], 10)?;
    fold(&rt, &mut side, &[2, 1], 20)?;
    fold(&rt, &mut side, &[1, 1], 30)?;
    fold(&rt, &mut side, &[1, 2], 40)?;
    assert!(rt; side.len() == 3);
    assert!(rt; has(&rt, &side, 0, (2, 50, 10, 40)));
    Ok(())
}

// A table of keys and values.
fn keyed(rt: &(impl Abort + AllocGlobal), rows: &[[i64; 2]]) -> Result<Table, Fail> {
    let mut names = Vec::new(rt.alloc());
    for text in ["k", "v"] {
        names.push(ColumnName::new(String::from_str(rt.alloc(), text)?).expect(rt, "a name"))?;
    }
    let mut table = Table::new(rt.alloc(), names).expect(rt, "a table");
    for row in rows {
        assert!(rt; table.cols() == 2);
        table.push_row(row).expect(rt, "a row");
    }
    Ok(table)
}

// Folds rows of a key and a value: their count, and the sum, least and greatest of the values.
fn fold_table(
    rt: &(impl Abort + AllocGlobal),
    side: &mut GroupSide,
    table: &Table,
) -> Result<(), Fail>
    requires { funcs_of side.old ≡ Func.Count ∷ Func.Sum ∷ Func.Min ∷ Func.Max ∷ [] }
{
    let by = [ColumnAt { side: 0, column: 0 }];
    let column = Some(ColumnAt { side: 0, column: 1 });
    let aggs = [
        AggAt {
            func: Func::Count,
            column: None,
        },
        AggAt {
            func: Func::Sum,
            column,
        },
        AggAt {
            func: Func::Min,
            column,
        },
        AggAt {
            func: Func::Max,
            column,
        },
    ];
    assert!(rt; table.cols() == 2);
    assert!(rt; table.rows() == 5);
    assert!(rt; side.aggregates() == 4);
    side.fold_rows(table, &by, &aggs, &[0, 1, 2, 3, 4], &mut [0u32; 5])?;
    Ok(())
}

// That a side has three groups of these totals.
fn has_groups(
    rt: &(impl Abort + AllocGlobal),
    side: &GroupSide,
    groups: &[(i128, i128, i128, i128); 3],
) {
    assert!(rt; side.len() == 3);
    for number in 0..3 {
        assert!(rt; has(rt, side, number, groups[number]));
    }
}

#[test]
fn folds_rows_of_old_and_new_groups(rt: HostRuntime) -> Result<(), Fail> {
    let table = keyed(&rt, &[[1, 10], [-1, -5], [1, 20], [3, 0], [1, 40]])?;
    let mut side = groups(&rt)?;
    fold(&rt, &mut side, &[1], 15)?;
    fold(&rt, &mut side, &[-1], 15)?;
    fold_table(&rt, &mut side, &table)?;
    has_groups(
        &rt,
        &side,
        &[(4, 85, 10, 40), (2, 10, -5, 15), (1, 0, 0, 0)],
    );
    Ok(())
}

// A side with one row of this key.
fn one_row(rt: &(impl Abort + AllocGlobal), key: i64, value: i64) -> Result<GroupSide, Fail>
    ensures { IfOk result (λ side. funcs_of side
        ≡ Func.Count ∷ Func.Sum ∷ Func.Min ∷ Func.Max ∷ []) }
{
    let mut side = groups(rt)?;
    fold(rt, &mut side, &[key], value)?;
    Ok(side)
}

// A side with rows of two keys.
fn two_rows(rt: &(impl Abort + AllocGlobal)) -> Result<GroupSide, Fail>
    ensures { IfOk result (λ side. funcs_of side
        ≡ Func.Count ∷ Func.Sum ∷ Func.Min ∷ Func.Max ∷ []) }
{
    let mut side = one_row(rt, 17, 10)?;
    fold(rt, &mut side, &[2], 5)?;
    Ok(side)
}

// Merges the parts of two groups, and looks at the first one.
fn merges_parts(
    rt: &(impl Abort + AllocGlobal),
    one: &mut GroupSide,
    other: &GroupSide,
) -> Result<(), Fail>
    requires { funcs_of other.now ≡ funcs_of one.old }
{
    one.merge_part(2, other)?;
    assert!(rt; has(rt, one, 0, (1, 10, 10, 10)));
    one.merge_part(1, other)?;
    assert!(rt; has(rt, one, 0, (2, -10, -20, 10)));
    Ok(())
}

#[test]
fn merges_the_groups_of_a_part(rt: HostRuntime) -> Result<(), Fail> {
    let other = one_row(&rt, 17, -20)?;
    merges_parts(&rt, &mut two_rows(&rt)?, &other)
}

// A side with rows of six keys.
fn six_rows(rt: &(impl Abort + AllocGlobal)) -> Result<GroupSide, Fail>
    ensures { IfOk result (λ side. funcs_of side
        ≡ Func.Count ∷ Func.Sum ∷ Func.Min ∷ Func.Max ∷ []) }
{
    let mut side = one_row(rt, 1, 10)?;
    fold(rt, &mut side, &[2], 20)?;
    fold(rt, &mut side, &[17], 170)?;
    fold(rt, &mut side, &[-15], -150)?;
    fold(rt, &mut side, &[3], 30)?;
    fold(rt, &mut side, &[33], 330)?;
    Ok(side)
}

// Merges all parts, and counts the groups meanwhile.
fn merges_all(
    rt: &(impl Abort + AllocGlobal),
    one: &mut GroupSide,
    other: &GroupSide,
) -> Result<(), Fail>
    requires { funcs_of other.now ≡ funcs_of one.old }
{
    one.merge_part(1, other)?;
    assert!(rt; one.len() == 4);
    assert!(rt; has(rt, one, 0, (2, -143, -150, 7)));
    one.merge_part(0, other)?;
    assert!(rt; one.len() == 4);
    one.merge_part(2, other)?;
    one.merge_part(3, other)?;
    assert!(rt; one.len() == 6);
    Ok(())
}

#[test]
fn merges_every_group_of_a_part(rt: HostRuntime) -> Result<(), Fail> {
    let other = six_rows(&rt)?;
    merges_all(&rt, &mut one_row(&rt, -15, 7)?, &other)
}
