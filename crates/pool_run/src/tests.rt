// Whole runs of small plans.
ghost use Rattle.std.specs.Prelude.{◌≡◌, ◌<◌, ◌≤◌, ℕ, All, IfOk, length};
ghost use Rattle.std.specs.Arc.{arc_value};
ghost use Rattle.plan_ast.specs.Checks.{IsCheckedFor, query_of};
ghost use Rattle.worker_machine.specs.Loads.{load_of};

use crate::{Ran, ThreadRan, run_steps, run_threads, run_turns};
use bench_cell::Plan;
use col_table::{ListOf, Name, Table, Text};
use outside_io::{CostMeter, OpenGate};
use plan_ast::{Agg, Checked, Func, NameRef, NamedTable, Output, Query, check};
use report_text::{Report, answers_text, report_text};
use std::alloc::Global;
use std::process::Abort;
use std::sync::{Arc, Wait};
use std::test::Fail;
use std::thread::Threads;

fn name(rt: &impl Abort, alloc: Global, text: &str) -> Result<Name, Fail> {
    Ok(Name::new(String::from_str(alloc, text)?).expect(rt, "a name"))
}

// The table `t` with the columns `k` and `v`.
fn tables(rt: &impl Abort, alloc: Global, rows: &[[i64; 2]]) -> Result<Vec<NamedTable>, Fail> {
    let names = vec![in alloc; name(rt, alloc, "k")?, name(rt, alloc, "v")?]?;
    let mut table = Table::new(alloc, names).expect(rt, "a table");
    for row in rows {
        assert!(rt; table.cols() == 2);
        table.push_row(row.as_slice()).expect(rt, "a row");
    }
    let named = NamedTable {
        name: name(rt, alloc, "t")?,
        file: Text::of(String::from_str(alloc, "t.csv")?),
        table,
    };
    Ok(vec![in alloc; named]?)
}

// A query over `t`, at the cost 100.
fn query(rt: &impl Abort, alloc: Global, weight: u32, output: Output) -> Result<Query, Fail> {
    Ok(Query {
        after: 0,
        weight,
        cost: 100,
        scan: name(rt, alloc, "t")?,
        filters: ListOf::of(Vec::new(alloc)),
        joins: ListOf::of(Vec::new(alloc)),
        output,
    })
}

// A query that counts the rows.
fn counts(rt: &impl Abort, alloc: Global, weight: u32) -> Result<Query, Fail> {
    let agg = Agg {
        func: Func::Count,
        column: None,
    };
    let output = Output::Totals(ListOf::of(vec![in alloc; agg]?));
    query(rt, alloc, weight, output)
}

// A reference to a column of `t`.
fn column(rt: &impl Abort, alloc: Global, text: &str) -> Result<NameRef, Fail> {
    Ok(NameRef {
        side: 0,
        name: name(rt, alloc, text)?,
    })
}

// A query that sums `v` by `k`.
fn sums(rt: &impl Abort, alloc: Global) -> Result<Query, Fail> {
    let agg = Agg {
        func: Func::Sum,
        column: Some(column(rt, alloc, "v")?),
    };
    let output = Output::Groups {
        by: ListOf::of(vec![in alloc; column(rt, alloc, "k")?]?),
        aggs: ListOf::of(vec![in alloc; agg]?),
    };
    query(rt, alloc, 10, output)
}

// A query with its names looked up. It arrives at once.
fn checked(
    rt: &impl Abort,
    alloc: Global,
    query: &Query,
    tables: &Arc<Vec<NamedTable>>,
) -> Result<Arc<Checked>, Fail>
    ensures placed { IfOk result
        (λ shared. IsCheckedFor (arc_value tables.now).items (arc_value shared)) }
    ensures early { IfOk result (λ shared. (query_of (arc_value shared)).after ≡ 0) }
{
    assert!(rt; query.in_bounds());
    let checked = check(alloc, query, tables.as_slice()).expect(rt, "the names are there");
    assert!(rt; checked.query().after == 0);
    Ok(Arc::new(alloc, checked)?)
}

// A plan of these queries over `t` with these rows. All queries arrive at once.
fn plan(
    rt: &impl Abort,
    alloc: Global,
    rows: &[[i64; 2]],
    queries: Vec<Query>,
) -> Result<Arc<Plan>, Fail>
    ensures { IfOk result (λ plan. (q : ℕ) → (load_of (arc_value plan)).after q ≡ 0) }
{
    let tables = Arc::new(alloc, tables(rt, alloc, rows)?)?;
    let mut all = Vec::new(alloc);
    for query in &queries {
        all.push(checked(rt, alloc, query, &tables)?)?;
    }
    assert!(rt; all.len() <= 4096);
    let queries = all;
    Ok(Arc::new(alloc, Plan { tables, queries })?)
}

// Ends the test, unless a run may be asked for so many workers and slots and by this order.
fn may_run(rt: &impl Abort, workers: u32, slots: u32, order: &[u32])
    ensures workers { (0 < workers) × (workers ≤ 64) }
    ensures slots { (0 < slots) × (slots ≤ 128) }
    ensures few { length order.now ≤ 4096 }
    ensures order { All (λ w. w < workers) order.now }
{
    assert!(rt; 0 < workers);
    assert!(rt; workers <= 64);
    assert!(rt; 0 < slots);
    assert!(rt; slots <= 128);
    assert!(rt; order.len() <= 4096);
    for who in order {
        assert!(rt; *who < workers);
    }
}

// The run of a plan by turns.
fn turns(
    rt: &impl Abort,
    alloc: Global,
    plan: &Arc<Plan>,
    workers: u32,
    slots: u32,
    order: &[u32],
) -> Result<Ran, Fail>
    requires { (q : ℕ) → (load_of (arc_value plan.now)).after q ≡ 0 }
{
    may_run(rt, workers, slots, order);
    let plan = Arc::try_clone(plan)?;
    Ok(run_turns(alloc, plan, workers, slots, order, &mut CostMeter)?)
}

// The run of a plan by steps, over 128 slots.
fn steps(
    rt: &impl Abort,
    alloc: Global,
    plan: &Arc<Plan>,
    workers: u32,
    order: &[u32],
) -> Result<Ran, Fail>
    requires { (q : ℕ) → (load_of (arc_value plan.now)).after q ≡ 0 }
{
    may_run(rt, workers, 128, order);
    let plan = Arc::try_clone(plan)?;
    Ok(run_steps(alloc, plan, workers, 128, order, &mut CostMeter)?)
}

// The run of a plan by threads, over 128 slots.
fn by_threads<R: Threads + Wait + Abort + Sync>(
    rt: &R,
    alloc: Global,
    plan: &Arc<Plan>,
    workers: u32,
    meters: &mut Vec<CostMeter>,
) -> Result<ThreadRan, Fail>
    requires { (q : ℕ) → (load_of (arc_value plan.now)).after q ≡ 0 }
{
    may_run(rt, workers, 128, &[]);
    assert!(rt; workers as usize <= meters.len());
    let plan = Arc::try_clone(plan)?;
    Ok(run_threads(rt, alloc, plan, workers, 128, meters, &OpenGate)?)
}

// The three rows of the first example.
const THREE: [[i64; 2]; 3] = [[1, 10], [1, 20], [2, 5]];

// The answers part of a report is this text.
fn answers_are(rt: &impl Abort, alloc: Global, report: &Report, text: &str) -> Result<(), Fail> {
    let bytes = answers_text(alloc, report.replies.as_slice())?;
    assert!(rt; bytes.as_slice() == text.as_bytes());
    Ok(())
}

fn is_report(rt: &impl Abort, alloc: Global, report: &Report, text: &str) -> Result<(), Fail> {
    let bytes = report_text(alloc, report)?;
    assert!(rt; bytes.as_slice() == text.as_bytes());
    Ok(())
}

const ONE_WORKER: &str = "query 0 lines 2\n\
    group 1: 30\n\
    group 2: 5\n\
    shares\n\
    worker 0 query 0 ranges 2 tuples 19 ns 1900 priority 10000\n\
    worker 0 widest 0 largest 167772\n\
    journal\n\
    set 0.0 slot 0 total 3 finisher 0\n\
    claim 0 3 worker 0\n\
    set 0.1 slot 0 total 16 finisher 0\n\
    claim 0 16 worker 0\n\
    end\n";

#[test]
fn one_worker_does_all(rt: HostRuntime) -> Result<(), Fail> {
    let alloc = rt.alloc();
    let queries = vec![in alloc; sums(&rt, alloc)?]?;
    let plan = plan(&rt, alloc, THREE.as_slice(), queries)?;
    let ran = turns(&rt, alloc, &plan, 1, 128, &[])?;
    is_report(&rt, alloc, &ran.report, ONE_WORKER)?;
    let ran = steps(&rt, alloc, &plan, 1, &[])?;
    is_report(&rt, alloc, &ran.report, ONE_WORKER)
}

// Worker 1 finds nothing to claim, and is the last to leave.
#[test]
fn two_workers_share(rt: HostRuntime) -> Result<(), Fail> {
    let alloc = rt.alloc();
    let queries = vec![in alloc; sums(&rt, alloc)?]?;
    let plan = plan(&rt, alloc, THREE.as_slice(), queries)?;
    let ran = turns(&rt, alloc, &plan, 2, 128, &[1, 0, 1])?;
    let text = "query 0 lines 2\n\
        group 1: 30\n\
        group 2: 5\n\
        shares\n\
        worker 0 query 0 ranges 2 tuples 19 ns 1900 priority 10000\n\
        worker 0 widest 0 largest 167772\n\
        worker 1 widest 0 largest 0\n\
        journal\n\
        set 0.0 slot 0 total 3 finisher 1\n\
        claim 0 3 worker 0\n\
        set 0.1 slot 0 total 16 finisher 1\n\
        claim 0 16 worker 0\n\
        end\n";
    is_report(&rt, alloc, &ran.report, text)
}

#[test]
fn three_queries_take_one_slot(rt: HostRuntime) -> Result<(), Fail> {
    let alloc = rt.alloc();
    let first = counts(&rt, alloc, 10)?;
    let second = counts(&rt, alloc, 10)?;
    let third = counts(&rt, alloc, 10)?;
    let queries = vec![in alloc; first, second, third]?;
    let plan = plan(&rt, alloc, THREE.as_slice(), queries)?;
    let ran = turns(&rt, alloc, &plan, 1, 1, &[])?;
    let text = "query 0 lines 1\ntotal 3\nquery 1 lines 1\ntotal 3\nquery 2 lines 1\ntotal 3\n";
    answers_are(&rt, alloc, &ran.report, text)?;
    for record in ran.report.records.as_slice() {
        assert_eq!(rt; record.slot, 0);
    }
    Ok(())
}

#[test]
fn no_query_ends_at_once(rt: HostRuntime) -> Result<(), Fail> {
    let alloc = rt.alloc();
    let plan = plan(&rt, alloc, &[], Vec::new(alloc))?;
    let ran = turns(&rt, alloc, &plan, 1, 128, &[])?;
    let text = "shares\nworker 0 widest 0 largest 0\njournal\nend\n";
    is_report(&rt, alloc, &ran.report, text)
}

// An order of 512 numbers below 3, drawn from a number.
fn drawn(alloc: Global, seed: u64) -> Result<Vec<u32>, Fail> {
    let mut next = seed;
    let mut order = Vec::new(alloc);
    for _ in 0..512 {
        next = next.wrapping_mul(48_271) % 2_147_483_647;
        order.push((next % 3) as u32)?;
    }
    Ok(order)
}

// Three workers, by drawn orders: they mark one another, and pay.
#[test]
fn steps_in_any_order_give_the_answers(rt: HostRuntime) -> Result<(), Fail> {
    let alloc = rt.alloc();
    let queries = vec![in alloc; counts(&rt, alloc, 10)?, sums(&rt, alloc)?]?;
    let plan = plan(&rt, alloc, THREE.as_slice(), queries)?;
    for seed in 1..21 {
        let order = drawn(alloc, seed)?;
        let ran = steps(&rt, alloc, &plan, 3, order.as_slice())?;
        let text = "query 0 lines 1\ntotal 3\nquery 1 lines 2\ngroup 1: 30\ngroup 2: 5\n";
        answers_are(&rt, alloc, &ran.report, text)?;
        assert_eq!(rt; ran.times.len(), 3);
    }
    Ok(())
}

// Two workers on threads answer as by whole turns, and their meters come back.
#[test]
fn threads_give_the_answers(rt: HostRuntime) -> Result<(), Fail> {
    let alloc = rt.alloc();
    let queries = vec![in alloc; counts(&rt, alloc, 10)?, sums(&rt, alloc)?]?;
    let plan = plan(&rt, alloc, THREE.as_slice(), queries)?;
    let text = "query 0 lines 1\ntotal 3\nquery 1 lines 2\ngroup 1: 30\ngroup 2: 5\n";
    let ran = turns(&rt, alloc, &plan, 2, 128, &[])?;
    answers_are(&rt, alloc, &ran.report, text)?;
    let mut meters = vec![in alloc; CostMeter, CostMeter]?;
    let ran = by_threads(&rt, alloc, &plan, 2, &mut meters)?;
    answers_are(&rt, alloc, &ran.report, text)?;
    assert_eq!(rt; ran.times.len(), 2);
    assert_eq!(rt; meters.len(), 2);
    Ok(())
}
