//! Tables in memory.

use crate::names::{name, names};
use col_table::{ColumnName, RowRefusal, ShapeRefusal, Table};
use std::alloc::Global;
use std::process::Abort;
use std::test::Fail;

/// So many names, of which no two are equal.
fn numbered(alloc: Global, count: u32) -> Result<Vec<ColumnName>, Fail> {
    let mut names = Vec::new(alloc);
    for number in 0..count {
        names.push(name(alloc, format!(in alloc; "{number}")?.as_str())?)?;
    }
    Ok(names)
}

#[test]
fn a_table_has_at_most_32_columns(rt: HostRuntime) -> Result<(), Fail> {
    for (count, want) in [(32, Ok(32)), (33, Err(ShapeRefusal::TooManyColumns))] {
        let names = numbered(rt.alloc(), count)?;
        let cols = Table::new(rt.alloc(), names).map(|table| table.cols());
        assert_eq!(rt; cols, want, "{count} names");
    }
    Ok(())
}

#[test]
fn refuses_headings(rt: HostRuntime) -> Result<(), Fail> {
    let same = ["a"; 33];
    for (texts, want) in [
        ([].as_slice(), ShapeRefusal::NoColumns),
        (&same, ShapeRefusal::TooManyColumns),
        (&["a", "b", "a", "b"], ShapeRefusal::TwiceNamed(2)),
        (&["", ""], ShapeRefusal::TwiceNamed(1)),
    ] {
        let names = names(rt.alloc(), texts)?;
        let cols = Table::new(rt.alloc(), names).map(|table| table.cols());
        assert_eq!(rt; cols, Err(want), "at {texts:?}");
    }
    Ok(())
}

/// The columns `k` and `v` with two rows.
fn two_rows(rt: &impl Abort, alloc: Global) -> Result<Table, Fail> {
    let mut table = Table::new(alloc, names(alloc, &["k", "v"])?)?;
    for row in [[1, 10], [i64::MIN, i64::MAX]] {
        assert_eq!(rt; table.cols(), 2);
        table.push_row(&row)?;
    }
    Ok(table)
}

/// Asserts that a table has the two rows.
fn expect_two_rows(rt: &impl Abort, table: &Table) {
    assert_eq!(rt; (table.rows(), table.cols()), (2, 2));
    assert_eq!(rt; table.name(1).as_str(), "v");
    assert_eq!(rt; table.value(1, 0), i64::MIN);
    assert_eq!(rt; table.column(1), [10, i64::MAX].as_slice());
}

/// Asserts at which place a column is found.
fn expect_found(
    rt: &impl Abort,
    alloc: Global,
    table: &Table,
    text: &str,
    want: Option<u32>,
) -> Result<(), Fail> {
    let found = table.find_column(&name(alloc, text)?);
    assert_eq!(rt; found, want);
    Ok(())
}

#[test]
fn keeps_rows(rt: HostRuntime) -> Result<(), Fail> {
    let table = two_rows(&rt, rt.alloc())?;
    expect_two_rows(&rt, &table);
    expect_found(&rt, rt.alloc(), &table, "v", Some(1))?;
    expect_found(&rt, rt.alloc(), &table, "z", None)
}

#[test]
fn takes_whole_columns(rt: HostRuntime) -> Result<(), Fail> {
    let mut names = Vec::new(rt.alloc());
    names.push(name(rt.alloc(), "k")?)?;
    let mut columns = Vec::new(rt.alloc());
    columns.push([1, 2, 3].to_vec(rt.alloc())?)?;
    let made = Table::from_columns(names, columns, 3);
    let shown = made.map(|table| (table.rows(), table.cols()));
    assert_eq!(rt; shown, Ok((3, 1)));
    Ok(())
}

#[test]
fn a_table_has_at_most_1_048_576_rows(rt: HostRuntime) -> Result<(), Fail> {
    let mut table = Table::new(rt.alloc(), names(rt.alloc(), &["v"])?)?;
    for row in 0..1_048_576 {
        assert_eq!(rt; table.cols(), 1);
        table.push_row(&[row])?;
    }
    assert_eq!(rt; table.cols(), 1);
    assert_eq!(rt; table.push_row(&[0]), Err(RowRefusal::Full));
    assert_eq!(rt; table.rows(), 1_048_576);
    Ok(())
}
