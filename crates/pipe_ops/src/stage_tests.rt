// Stages whose tuples three accumulators share, cut at any two of them.
ghost use Rattle.std.specs.Prelude.{◌≡◌, ◌≤◌, IfOk, IfSome};
ghost use Rattle.std.specs.Arc.{arc_value};
ghost use Rattle.plan_ast.specs.Answer.{answer_of};
ghost use Rattle.plan_ast.specs.Checks.{IsCheckedFor, query_of};
ghost use Rattle.plan_ast.specs.Folds.{no_tuples, range_of, union};
ghost use Rattle.pipe_ops.specs.Inputs.{AreInputs, IsAccOf, total_in};
ghost use Rattle.pipe_ops.specs.StageResults.{IsWholeResult};

use crate::tests::{agg, column, join, joined_agg, joined_column, name, query_of_t, table};
use crate::{Acc, Inputs, StageResult, merge, plain_answer, run_range};
use col_table::ListOf;
use plan_ast::{
    AggValue, Answer, Checked, Filter, Func, Join, NameRef, NamedTable, Op, Output, Query, check,
    stage_total, stages,
};
use std::alloc::{AllocError, Global};
use std::process::Abort;
use std::sync::Arc;
use std::test::Fail;

// What a new accumulator holds of a range.
fn held_of(alloc: Global, inputs: &Inputs, from: u32, to: u32) -> Result<Acc, AllocError>
    requires inputs { AreInputs inputs.now }
    requires order { from ≤ to }
    requires within { to ≤ total_in inputs.now }
    ensures { IfOk result (λ acc. IsAccOf inputs.now (union no_tuples (range_of from to)) acc) }
{
    let mut acc = Acc::empty(alloc, inputs, inputs.stage())?;
    run_range(alloc, inputs.stage(), inputs, from, to, &mut acc)?;
    Ok(acc)
}

// The whole result of a stage whose tuples are cut twice and shared among three accumulators.
fn in_three(
    alloc: Global,
    inputs: &Inputs,
    total: u32,
    cuts: [u32; 2],
) -> Result<StageResult, AllocError>
    requires inputs { AreInputs inputs.now }
    requires total { total ≡ total_in inputs.now }
    ensures { IfOk result (IsWholeResult inputs.now) }
{
    let again = cuts[1].min(total);
    let cut = cuts[0].min(again);
    let first = held_of(alloc, inputs, 0, cut)?;
    let second = held_of(alloc, inputs, cut, again)?;
    let third = held_of(alloc, inputs, again, total)?;
    let accs = vec![in alloc; first, second, third]?;
    merge(alloc, inputs.stage(), inputs, accs)
}

// Where the tuples of a stage are cut: a merge at its own places.
#[derive(Clone, Copy)]
struct Cuts {
    tuples: [u32; 2],
    parts: [u32; 2],
}

impl Cuts {
    fn of_stage(self, checked: &Checked, stage: u32) -> [u32; 2] {
        if stage as usize > checked.query().joins.as_slice().len() {
            self.parts
        } else {
            self.tuples
        }
    }
}

// The answer to a query by its stages, each cut at these tuples, or at its end.
fn staged(
    alloc: Global,
    tables: &Arc<Vec<NamedTable>>,
    checked: &Arc<Checked>,
    cuts: Cuts,
) -> Result<Option<Answer>, AllocError>
    requires { IsCheckedFor (arc_value tables.now).items (arc_value checked.now) }
    ensures { IfOk result (λ last. IfSome last (λ answer. answer
        ≡ answer_of (arc_value tables.now).items (query_of (arc_value checked.now)))) }
{
    let mut inputs = Inputs::first(alloc, Arc::try_clone(tables)?, Arc::try_clone(checked)?)?;
    for stage in 0..stages(checked.query()) {
        let total = stage_total(checked, tables.as_slice(), stage);
        match in_three(alloc, &inputs, total, cuts.of_stage(checked, stage))? {
            StageResult::Answer(answer) => return Ok(Some(answer)),
            StageResult::Side(side) => {
                inputs = Inputs::next(alloc, &inputs, StageResult::Side(side))?;
            }
            StageResult::Parts(parts) => {
                inputs = Inputs::next(alloc, &inputs, StageResult::Parts(parts))?;
            }
        }
    }
    Ok(None)
}

// The answer to a query by its stages.
fn by_stages(
    rt: &(impl Abort + AllocGlobal),
    tables: Vec<NamedTable>,
    query: &Query,
    cuts: Cuts,
) -> Result<Answer, Fail> {
    assert!(rt; query.in_bounds());
    let alloc = rt.alloc();
    let checked = check(alloc, query, tables.as_slice()).expect(rt, "all names are there");
    let tables = Arc::new(alloc, tables)?;
    let checked = Arc::new(alloc, checked)?;
    match staged(alloc, &tables, &checked, cuts)? {
        Some(answer) => Ok(answer),
        None => Err("an answer".into()),
    }
}

// The tables `t` of three rows and `u` of two.
fn two_tables(rt: &(impl Abort + AllocGlobal)) -> Result<Vec<NamedTable>, Fail> {
    let t: [&[i64]; 3] = [&[1, 10], &[1, 20], &[2, 5]];
    let u: [&[i64]; 2] = [&[1, 7], &[2, 8]];
    let t = table(rt, "t", &["k", "v"], &t)?;
    let u = table(rt, "u", &["k", "w"], &u)?;
    Ok(vec![in rt.alloc(); t, u]?)
}

// Each stage is cut at these tuples, and so is a merge.
fn everywhere(cut: u32, again: u32) -> Cuts {
    Cuts {
        tuples: [cut, again],
        parts: [cut, again],
    }
}

// The group side of `t` has two groups. A scan cut at tuple 1 and a merge cut at part 8 are among
// these cuts.
#[test]
fn groups_of_three_workers(rt: HostRuntime) -> Result<(), Fail> {
    let alloc = rt.alloc();
    for cut in 0..4 {
        for part in [0, 1, 2, 8, 16] {
            let by = vec![in alloc; column(&rt, "k")?]?;
            let aggs = vec![in alloc; agg(&rt, Func::Sum)?]?;
            let output = Output::Groups {
                by: ListOf::of(by),
                aggs: ListOf::of(aggs),
            };
            let query = query_of_t(&rt, Vec::new(alloc), Vec::new(alloc), output)?;
            let cuts = Cuts {
                tuples: [cut, 3],
                parts: [part, 16],
            };
            let answer = by_stages(&rt, two_tables(&rt)?, &query, cuts)?;
            let Answer::Groups(groups) = answer else {
                return Err("groups".into());
            };
            let [first, second] = groups.as_slice() else {
                return Err("two groups".into());
            };
            let one = matches!(first.values.as_slice(), [AggValue::Sum(30)]);
            let two = matches!(second.values.as_slice(), [AggValue::Sum(5)]);
            assert!(rt; one && two);
            assert_eq!(rt; first.key.as_slice(), [1].as_slice());
            assert_eq!(rt; second.key.as_slice(), [2].as_slice());
        }
    }
    Ok(())
}

#[test]
fn totals_of_a_join(rt: HostRuntime) -> Result<(), Fail> {
    let alloc = rt.alloc();
    for cut in 0..4 {
        let aggs = vec![in alloc; agg(&rt, Func::Count)?, joined_agg(&rt, Func::Sum, "w")?]?;
        let joins = vec![in alloc; join(&rt)?]?;
        let query = query_of_t(
            &rt,
            Vec::new(alloc),
            joins,
            Output::Totals(ListOf::of(aggs)),
        )?;
        let answer = by_stages(&rt, two_tables(&rt)?, &query, everywhere(cut, 2))?;
        let Answer::Totals(totals) = answer else {
            return Err("totals".into());
        };
        let expected = matches!(totals.as_slice(), [AggValue::Count(3), AggValue::Sum(22)]);
        assert!(rt; expected);
    }
    Ok(())
}

#[test]
fn rows_of_three_workers(rt: HostRuntime) -> Result<(), Fail> {
    let alloc = rt.alloc();
    for cut in 0..4 {
        let columns = vec![in alloc; column(&rt, "v")?]?;
        let output = Output::Rows(ListOf::of(columns));
        let query = query_of_t(&rt, Vec::new(alloc), Vec::new(alloc), output)?;
        let answer = by_stages(&rt, two_tables(&rt)?, &query, everywhere(cut, 2))?;
        let Answer::Rows(rows) = answer else {
            return Err("rows".into());
        };
        let [first, second, third] = rows.as_slice() else {
            return Err("three rows".into());
        };
        assert_eq!(rt; first.as_slice(), [5].as_slice());
        assert_eq!(rt; second.as_slice(), [10].as_slice());
        assert_eq!(rt; third.as_slice(), [20].as_slice());
    }
    Ok(())
}

// A join of a table by a column of an earlier side, with a filter.
fn filtered_join(
    rt: &(impl Abort + AllocGlobal),
    named: &str,
    left: NameRef,
    right: &str,
    filter: Filter,
) -> Result<Join, Fail> {
    Ok(Join {
        table: name(rt, named)?,
        left,
        right: name(rt, right)?,
        filters: ListOf::of(vec![in rt.alloc(); filter]?),
    })
}

fn filter(rt: &(impl Abort + AllocGlobal), on: &str, op: Op, value: i64) -> Result<Filter, Fail> {
    Ok(Filter {
        column: name(rt, on)?,
        op,
        value,
    })
}

// A query with filters and two joins: by `k` of `t` and `z` of `x` the least and the greatest `v`,
// and the number of joined rows.
fn query_of_three(rt: &(impl Abort + AllocGlobal)) -> Result<Query, Fail> {
    let alloc = rt.alloc();
    let first = filter(rt, "w", Op::Lt, 9)?;
    let second = filter(rt, "z", Op::Gt, 0)?;
    let joins = vec![in alloc;
        filtered_join(rt, "u", column(rt, "k")?, "k", first)?,
        filtered_join(rt, "x", joined_column(rt, "w")?, "w", second)?,
    ]?;
    let z = NameRef {
        side: 2,
        name: name(rt, "z")?,
    };
    let aggs = vec![in alloc;
        agg(rt, Func::Min)?,
        agg(rt, Func::Max)?,
        agg(rt, Func::Count)?,
    ]?;
    let output = Output::Groups {
        by: ListOf::of(vec![in alloc; column(rt, "k")?, z]?),
        aggs: ListOf::of(aggs),
    };
    let filters = vec![in alloc; filter(rt, "v", Op::Ge, 0)?]?;
    query_of_t(rt, filters, joins, output)
}

fn three_tables(rt: &(impl Abort + AllocGlobal)) -> Result<Vec<NamedTable>, Fail> {
    let t: [&[i64]; 5] = [&[1, 10], &[1, 20], &[2, 5], &[3, 40], &[1, -7]];
    let u: [&[i64]; 4] = [&[1, 7], &[2, 8], &[1, 9], &[3, 7]];
    let x: [&[i64]; 4] = [&[7, 100], &[8, 200], &[7, 300], &[7, -1]];
    let t = table(rt, "t", &["k", "v"], &t)?;
    let u = table(rt, "u", &["k", "w"], &u)?;
    let x = table(rt, "x", &["w", "z"], &x)?;
    Ok(vec![in rt.alloc(); t, u, x]?)
}

// Whether an answer has the groups of that query over these tables, found by hand.
fn has_groups_of_three(answer: &Answer) -> bool {
    let Answer::Groups(groups) = answer else {
        return false;
    };
    let expected: [([i64; 2], i64, i64, u64); 5] = [
        ([1, 100], 10, 20, 2),
        ([1, 300], 10, 20, 2),
        ([2, 200], 5, 5, 1),
        ([3, 100], 40, 40, 1),
        ([3, 300], 40, 40, 1),
    ];
    if groups.as_slice().len() != expected.len() {
        return false;
    }
    for (group, (key, least, greatest, count)) in groups.as_slice().iter().zip(expected.iter()) {
        let [
            AggValue::Least(Some(min)),
            AggValue::Greatest(Some(max)),
            AggValue::Count(rows),
        ] = group.values.as_slice()
        else {
            return false;
        };
        if group.key.as_slice() != key.as_slice() || min != least || max != greatest {
            return false;
        }
        if rows != count {
            return false;
        }
    }
    true
}

#[test]
fn groups_of_two_joins(rt: HostRuntime) -> Result<(), Fail> {
    let alloc = rt.alloc();
    let query = query_of_three(&rt)?;
    assert!(rt; query.in_bounds());
    let tables = three_tables(&rt)?;
    let checked = check(alloc, &query, tables.as_slice()).expect(&rt, "all names are there");
    let plain = plain_answer(alloc, &checked, tables.as_slice())?;
    assert!(rt; has_groups_of_three(&plain));
    for (cut, again) in [(0, 0), (1, 2), (1, 4), (2, 3), (3, 9)] {
        let answer = by_stages(&rt, three_tables(&rt)?, &query, everywhere(cut, again))?;
        assert!(rt; has_groups_of_three(&answer), "cut at {cut} and {again}");
    }
    Ok(())
}
