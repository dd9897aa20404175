// Worked answers.

use crate::plain_answer;
use col_table::{ListOf, Name, Table, Text};
use plan_ast::{
    Agg, AggValue, Answer, Filter, Func, Join, NameRef, NamedTable, Op, Output, Query, check,
};
use std::process::Abort;
use std::test::Fail;

pub(crate) fn name(rt: &(impl Abort + AllocGlobal), text: &str) -> Result<Name, Fail> {
    Ok(Name::new(String::from_str(rt.alloc(), text)?).expect(rt, "a name"))
}

pub(crate) fn column(rt: &(impl Abort + AllocGlobal), text: &str) -> Result<NameRef, Fail> {
    Ok(NameRef {
        side: 0,
        name: name(rt, text)?,
    })
}

pub(crate) fn agg(rt: &(impl Abort + AllocGlobal), func: Func) -> Result<Agg, Fail> {
    let column = match func {
        Func::Count => None,
        Func::Sum => Some(column(rt, "v")?),
        Func::Min => Some(column(rt, "v")?),
        Func::Max => Some(column(rt, "v")?),
    };
    Ok(Agg { func, column })
}

// A table with these columns.
pub(crate) fn table(
    rt: &(impl Abort + AllocGlobal),
    named: &str,
    columns: &[&str],
    rows: &[&[i64]],
) -> Result<NamedTable, Fail> {
    let mut names = Vec::new(rt.alloc());
    for column in columns {
        names.push(name(rt, column)?)?;
    }
    let mut table = Table::new(rt.alloc(), names).expect(rt, "a table");
    for row in rows {
        assert!(rt; table.cols() as usize == row.len());
        table.push_row(row).expect(rt, "a row");
    }
    Ok(NamedTable {
        name: name(rt, named)?,
        file: Text::of(String::from_str(rt.alloc(), "a file")?),
        table,
    })
}

// An aggregate of a column of the first join's table.
pub(crate) fn joined_agg(
    rt: &(impl Abort + AllocGlobal),
    func: Func,
    text: &str,
) -> Result<Agg, Fail> {
    let column = Some(joined_column(rt, text)?);
    Ok(Agg { func, column })
}

pub(crate) fn joined_column(rt: &(impl Abort + AllocGlobal), text: &str) -> Result<NameRef, Fail> {
    Ok(NameRef {
        side: 1,
        name: name(rt, text)?,
    })
}

// A join of `u` on the column `k` of `t` and of `u`.
pub(crate) fn join(rt: &(impl Abort + AllocGlobal)) -> Result<Join, Fail> {
    Ok(Join {
        table: name(rt, "u")?,
        left: column(rt, "k")?,
        right: name(rt, "k")?,
        filters: ListOf::of(Vec::new(rt.alloc())),
    })
}

// A query of `t`.
pub(crate) fn query_of_t(
    rt: &(impl Abort + AllocGlobal),
    filters: Vec<Filter>,
    joins: Vec<Join>,
    output: Output,
) -> Result<Query, Fail> {
    Ok(Query {
        after: 0,
        weight: 10,
        cost: 100,
        scan: name(rt, "t")?,
        filters: ListOf::of(filters),
        joins: ListOf::of(joins),
        output,
    })
}

// The answer to a query of `t`.
fn answer_over(
    rt: &(impl Abort + AllocGlobal),
    tables: &[NamedTable],
    filters: Vec<Filter>,
    joins: Vec<Join>,
    output: Output,
) -> Result<Answer, Fail> {
    let query = query_of_t(rt, filters, joins, output)?;
    assert!(rt; query.in_bounds());
    let checked = check(rt.alloc(), &query, tables).expect(rt, "all names are there");
    Ok(plain_answer(rt.alloc(), &checked, tables)?)
}

// The answer to a query of `t` with this filter.
fn answer(
    rt: &(impl Abort + AllocGlobal),
    on: &str,
    op: Op,
    value: i64,
    output: Output,
) -> Result<Answer, Fail> {
    let filter = Filter {
        column: name(rt, on)?,
        op,
        value,
    };
    let rows: [&[i64]; 4] = [&[2, 5], &[1, 20], &[1, 10], &[1, 10]];
    let tables = vec![in rt.alloc(); table(rt, "t", &["k", "v"], &rows)?]?;
    let filters = vec![in rt.alloc(); filter]?;
    answer_over(rt, tables.as_slice(), filters, Vec::new(rt.alloc()), output)
}

#[test]
fn puts_rows_in_order(rt: HostRuntime) -> Result<(), Fail> {
    let columns = vec![in rt.alloc(); column(&rt, "k")?, column(&rt, "v")?]?;
    let answer = answer(&rt, "v", Op::Ge, 10, Output::Rows(ListOf::of(columns)))?;
    let Answer::Rows(rows) = answer else {
        return Err("rows".into());
    };
    let [first, second, third] = rows.as_slice() else {
        return Err("three rows".into());
    };
    assert_eq!(rt; first.as_slice(), [1, 10].as_slice());
    assert_eq!(rt; second.as_slice(), [1, 10].as_slice());
    assert_eq!(rt; third.as_slice(), [1, 20].as_slice());
    Ok(())
}

#[test]
fn folds_totals(rt: HostRuntime) -> Result<(), Fail> {
    for (value, none) in [(9, true), (1, false)] {
        let aggs = vec![in rt.alloc();
            agg(&rt, Func::Count)?,
            agg(&rt, Func::Sum)?,
            agg(&rt, Func::Min)?,
            agg(&rt, Func::Max)?,
        ]?;
        let answer = answer(&rt, "k", Op::Eq, value, Output::Totals(ListOf::of(aggs)))?;
        let Answer::Totals(totals) = answer else {
            return Err("totals".into());
        };
        let expected = if none {
            matches!(
                totals.as_slice(),
                [
                    AggValue::Count(0),
                    AggValue::Sum(0),
                    AggValue::Least(None),
                    AggValue::Greatest(None)
                ]
            )
        } else {
            matches!(
                totals.as_slice(),
                [
                    AggValue::Count(3),
                    AggValue::Sum(40),
                    AggValue::Least(Some(10)),
                    AggValue::Greatest(Some(20))
                ]
            )
        };
        assert!(rt; expected);
    }
    Ok(())
}

// How many rows the join of `t` and `u` on `k` has, and the sum of their `w`.
fn joined_totals(
    rt: &(impl Abort + AllocGlobal),
    t: &[&[i64]],
    u: &[&[i64]],
) -> Result<(u64, i128), Fail> {
    let alloc = rt.alloc();
    let t = table(rt, "t", &["k", "v"], t)?;
    let u = table(rt, "u", &["k", "w"], u)?;
    let tables = vec![in alloc; t, u]?;
    let joins = vec![in alloc; join(rt)?]?;
    let aggs = vec![in alloc; agg(rt, Func::Count)?, joined_agg(rt, Func::Sum, "w")?]?;
    let output = Output::Totals(ListOf::of(aggs));
    let answer = answer_over(rt, tables.as_slice(), Vec::new(alloc), joins, output)?;
    let Answer::Totals(totals) = answer else {
        return Err("totals".into());
    };
    let [AggValue::Count(count), AggValue::Sum(sum)] = totals.as_slice() else {
        return Err("a count and a sum".into());
    };
    Ok((*count, *sum))
}

#[test]
fn joins_tables(rt: HostRuntime) -> Result<(), Fail> {
    let t: [&[i64]; 3] = [&[1, 10], &[1, 20], &[2, 5]];
    let (count, sum) = joined_totals(&rt, &t, &[&[1, 7], &[2, 8]])?;
    assert_eq!(rt; count, 3);
    assert_eq!(rt; sum, 22);
    Ok(())
}

// Each of three rows joins each of three.
#[test]
fn joins_rows_of_equal_keys(rt: HostRuntime) -> Result<(), Fail> {
    let t: [&[i64]; 3] = [&[1, 10], &[1, 20], &[1, 30]];
    let (count, sum) = joined_totals(&rt, &t, &[&[1, 5], &[1, 6], &[1, 7]])?;
    assert_eq!(rt; count, 9);
    assert_eq!(rt; sum, 54);
    Ok(())
}

#[test]
fn folds_groups(rt: HostRuntime) -> Result<(), Fail> {
    let alloc = rt.alloc();
    let by = vec![in alloc; column(&rt, "k")?]?;
    let aggs = vec![in alloc; agg(&rt, Func::Count)?, agg(&rt, Func::Sum)?]?;
    let output = Output::Groups {
        by: ListOf::of(by),
        aggs: ListOf::of(aggs),
    };
    let Answer::Groups(groups) = answer(&rt, "v", Op::Ge, 0, output)? else {
        return Err("groups".into());
    };
    let [first, second] = groups.as_slice() else {
        return Err("two groups".into());
    };
    assert_eq!(rt; first.key.as_slice(), [1].as_slice());
    let of_one = matches!(
        first.values.as_slice(),
        [AggValue::Count(3), AggValue::Sum(40)]
    );
    assert!(rt; of_one);
    assert_eq!(rt; second.key.as_slice(), [2].as_slice());
    let of_two = matches!(
        second.values.as_slice(),
        [AggValue::Count(1), AggValue::Sum(5)]
    );
    assert!(rt; of_two);
    Ok(())
}

#[test]
fn folds_groups_by_two_columns(rt: HostRuntime) -> Result<(), Fail> {
    let alloc = rt.alloc();
    let rows: [&[i64]; 4] = [&[1, 2, 7], &[1, 1, 5], &[0, 9, 4], &[1, 1, 3]];
    let tables = vec![in alloc; table(&rt, "t", &["k", "g", "v"], &rows)?]?;
    let output = Output::Groups {
        by: ListOf::of(vec![in alloc; column(&rt, "k")?, column(&rt, "g")?]?),
        aggs: ListOf::of(vec![in alloc; agg(&rt, Func::Min)?, agg(&rt, Func::Max)?]?),
    };
    let tables = tables.as_slice();
    let answer = answer_over(&rt, tables, Vec::new(alloc), Vec::new(alloc), output)?;
    let Answer::Groups(groups) = answer else {
        return Err("groups".into());
    };
    let expected: [([i64; 2], i64, i64); 3] = [([0, 9], 4, 4), ([1, 1], 3, 5), ([1, 2], 7, 7)];
    assert_eq!(rt; groups.as_slice().len(), 3);
    for (group, (key, least, greatest)) in groups.as_slice().iter().zip(expected.iter()) {
        assert_eq!(rt; group.key.as_slice(), key.as_slice());
        let [AggValue::Least(Some(min)), AggValue::Greatest(Some(max))] = group.values.as_slice()
        else {
            return Err("a least and a greatest value".into());
        };
        assert_eq!(rt; *min, *least);
        assert_eq!(rt; *max, *greatest);
    }
    Ok(())
}

#[test]
fn folds_groups_of_joined_rows(rt: HostRuntime) -> Result<(), Fail> {
    let alloc = rt.alloc();
    let t = table(
        &rt,
        "t",
        &["k", "v"],
        &[&[1, 10], &[2, 5], &[1, 20], &[3, 1]],
    )?;
    let u = table(&rt, "u", &["k", "w"], &[&[1, 9], &[2, 8], &[1, 7]])?;
    let tables = vec![in alloc; t, u]?;
    let joins = vec![in alloc; join(&rt)?]?;
    let output = Output::Groups {
        by: ListOf::of(vec![in alloc; joined_column(&rt, "w")?]?),
        aggs: ListOf::of(vec![in alloc; agg(&rt, Func::Count)?, agg(&rt, Func::Sum)?]?),
    };
    let answer = answer_over(&rt, tables.as_slice(), Vec::new(alloc), joins, output)?;
    let Answer::Groups(groups) = answer else {
        return Err("groups".into());
    };
    let expected: [(i64, u64, i128); 3] = [(7, 2, 30), (8, 1, 5), (9, 2, 30)];
    assert_eq!(rt; groups.as_slice().len(), 3);
    for (group, (key, count, sum)) in groups.as_slice().iter().zip(expected.iter()) {
        assert_eq!(rt; group.key.as_slice(), [*key].as_slice());
        let [AggValue::Count(rows), AggValue::Sum(total)] = group.values.as_slice() else {
            return Err("a count and a sum".into());
        };
        assert_eq!(rt; *rows, *count);
        assert_eq!(rt; *total, *sum);
    }
    Ok(())
}
