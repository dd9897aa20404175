// A stage that two workers share, gathered.
ghost use Rattle.std.specs.Prelude.{◌≡◌, ◌<◌, ◌≤◌, ◌∷◌, [], IfOk, length};
ghost use Rattle.std.specs.Arc.{arc_value};
ghost use Rattle.plan_ast.specs.Checks.{IsCheckedFor};
ghost use Rattle.pipe_ops.specs.Inputs.{AreInputs, total_in};
ghost use Rattle.bench_cell.specs.Benches.{IsBench};

use crate::{Bench, Gathered, Plan, gather};
use col_table::{ListOf, Name, Table, Text};
use pipe_ops::{Inputs, StageResult};
use plan_ast::{Answer, Checked, NameRef, NamedTable, Output, Query, check, stage_total};
use report_text::Record;
use std::alloc::{AllocError, Global};
use std::process::Abort;
use std::sync::Arc;
use std::test::Fail;

fn name(rt: &(impl Abort + AllocGlobal), text: &str) -> Result<Name, Fail> {
    Ok(Name::new(String::from_str(rt.alloc(), text)?).expect(rt, "a name"))
}

// A plan of one query, for the only column of a table of the rows 20, 5 and 10.
fn plan(rt: &(impl Abort + AllocGlobal)) -> Result<Plan, Fail>
    ensures { IfOk result (λ plan. 0 < length plan.queries.items) }
{
    let alloc = rt.alloc();
    let mut table = Table::new(alloc, vec![in alloc; name(rt, "v")?]?).expect(rt, "a table");
    for value in [20, 5, 10] {
        assert!(rt; table.cols() == 1);
        table.push_row(&[value]).expect(rt, "a row");
    }
    let file = Text::of(String::from_str(alloc, "a file")?);
    let tables = vec![in alloc;
        NamedTable {
            name: name(rt, "t")?,
            file,
            table
        },
    ]?;
    let column = NameRef {
        side: 0,
        name: name(rt, "v")?,
    };
    let query = Query {
        after: 0,
        weight: 10,
        cost: 100,
        scan: name(rt, "t")?,
        filters: ListOf::of(Vec::new(alloc)),
        joins: ListOf::of(Vec::new(alloc)),
        output: Output::Rows(ListOf::of(vec![in alloc; column]?)),
    };
    assert!(rt; query.in_bounds());
    let checked = check(alloc, &query, tables.as_slice()).expect(rt, "all names are there");
    Ok(plan_of(alloc, Arc::new(alloc, tables)?, Arc::new(alloc, checked)?)?)
}

fn plan_of(
    alloc: Global,
    tables: Arc<Vec<NamedTable>>,
    checked: Arc<Checked>,
) -> Result<Plan, AllocError>
    requires { IsCheckedFor (arc_value tables).items (arc_value checked) }
    ensures { IfOk result (λ plan. plan.queries.items ≡ checked ∷ []) }
{
    let queries = vec![in alloc; checked]?;
    Ok(Plan { tables, queries })
}

// The inputs of the first task set of a plan, and its total.
fn task(alloc: Global, plan: &Plan) -> Result<(Arc<Inputs>, u32), AllocError>
    requires { 0 < length plan.now.queries.items }
    ensures inputs { IfOk result (λ task. AreInputs (arc_value task.0)) }
    ensures total { IfOk result (λ task. task.1 ≡ total_in (arc_value task.0)) }
{
    let checked = plan.query(0);
    let total = stage_total(checked, plan.tables.as_slice(), 0);
    let inputs = Inputs::first(
        alloc,
        Arc::try_clone(&plan.tables)?,
        Arc::try_clone(checked)?,
    )?;
    Ok((Arc::new(alloc, inputs)?, total))
}

// A worker's bench that worked on a range.
fn worked(
    alloc: Global,
    worker: u32,
    inputs: &Arc<Inputs>,
    from: u32,
    to: u32,
) -> Result<Bench, AllocError>
    requires inputs { AreInputs (arc_value inputs.now) }
    requires some { from < to }
    requires within { to ≤ total_in (arc_value inputs.now) }
    ensures { IfOk result IsBench }
{
    let mut bench = Bench::fresh(alloc, worker, 0, Arc::try_clone(inputs)?)?;
    bench.work(from, to);
    Ok(bench)
}

// The benches of two workers on a task set that is cut at a tuple, the first worker's first.
fn two_benches(
    alloc: Global,
    inputs: &Arc<Inputs>,
    total: u32,
    cut: u32,
) -> Result<(Bench, Bench), AllocError>
    requires inputs { AreInputs (arc_value inputs.now) }
    requires some { 0 < cut }
    requires more { cut < total }
    requires total { total ≡ total_in (arc_value inputs.now) }
    ensures first { IfOk result (λ two. IsBench two.0) }
    ensures second { IfOk result (λ two. IsBench two.1) }
{
    let first = worked(alloc, 0, inputs, 0, cut)?;
    let second = worked(alloc, 1, inputs, cut, total)?;
    Ok((first, second))
}

// Gathers two benches of the task set 0, which worker 1 finalises at slot 7.
fn gathered(
    alloc: Global,
    total: u32,
    one: Bench,
    other: Bench,
) -> Result<(Gathered, usize), AllocError>
    requires one { IsBench one }
    requires other { IsBench other }
{
    let mut benches = Vec::with_capacity(alloc, 2)?;
    benches.push(one)?;
    benches.push(other)?;
    let gathered = gather(alloc, 1, 7, total, &mut benches);
    Ok((gathered, benches.len()))
}

fn is_noted(kept: &Record, short: bool) -> bool {
    let task = kept.query == 0 && kept.stage == 0;
    let end = kept.slot == 7 && kept.total == 3 && kept.finisher == 1;
    task && end && kept.short == short
}

#[test]
fn a_plan(rt: HostRuntime) -> Result<(), Fail> {
    let alloc = rt.alloc();
    let plan = plan(&rt)?;
    assert_eq!(rt; plan.len(), 1);
    assert_eq!(rt; plan.sets(), 1);
    let (inputs, total) = task(alloc, &plan)?;
    assert_eq!(rt; total, 3);
    let bench = Bench::fresh(alloc, 5, 0, inputs)?;
    assert!(rt; !bench.is_short());
    assert_eq!(rt; bench.worker(), 5);
    assert_eq!(rt; bench.id(), 0);
    assert_eq!(rt; bench.inputs().stage(), 0);
    Ok(())
}

#[test]
fn two_workers_in_both_orders(rt: HostRuntime) -> Result<(), Fail> {
    let alloc = rt.alloc();
    let plan = plan(&rt)?;
    let (inputs, total) = task(alloc, &plan)?;
    assert!(rt; total == 3);
    for turn in 0..4 {
        let cut = 1 + turn / 2;
        let (first, second) = two_benches(alloc, &inputs, total, cut)?;
        let (gathered, left) = if turn % 2 == 0 {
            gathered(alloc, total, first, second)?
        } else {
            gathered(alloc, total, second, first)?
        };
        assert_eq!(rt; left, 0);
        let Gathered::Whole { result, kept } = gathered else {
            return Err("a whole result".into());
        };
        let StageResult::Answer(Answer::Rows(rows)) = result else {
            return Err("rows".into());
        };
        let [least, middle, most] = rows.as_slice() else {
            return Err("three rows".into());
        };
        assert_eq!(rt; least.as_slice(), [5].as_slice());
        assert_eq!(rt; middle.as_slice(), [10].as_slice());
        assert_eq!(rt; most.as_slice(), [20].as_slice());
        assert!(rt; is_noted(&kept, false));
        let [one, other] = kept.claims.as_slice() else {
            return Err("two claims".into());
        };
        assert!(rt; one.from == 0 && one.to == cut && one.worker == 0);
        assert!(rt; other.from == cut && other.to == 3 && other.worker == 1);
    }
    Ok(())
}

#[test]
fn one_short_bench(rt: HostRuntime) -> Result<(), Fail> {
    let alloc = rt.alloc();
    let plan = plan(&rt)?;
    let (inputs, total) = task(alloc, &plan)?;
    assert!(rt; total == 3);
    for turn in 0..2 {
        let (first, mut second) = two_benches(alloc, &inputs, total, 1)?;
        second.acc = None;
        assert!(rt; second.is_short());
        let (gathered, left) = if turn == 0 {
            gathered(alloc, total, first, second)?
        } else {
            gathered(alloc, total, second, first)?
        };
        assert_eq!(rt; left, 0);
        let Gathered::Short { kept } = gathered else {
            return Err("a short result".into());
        };
        assert!(rt; is_noted(&kept, true));
        assert!(rt; kept.claims.as_slice().is_empty());
    }
    Ok(())
}
