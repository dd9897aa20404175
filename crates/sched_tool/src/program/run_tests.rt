//! Tests of runs by `command`: whole texts of worked runs, and reads and writes that fail; that
//! `steps` gives the answers of `check` whatever the order; the summary of a large input.
use super::command::command;
use super::tests::{ALL_WRITES, ENTRIES, TABLE, ends, files_of, script_of, texts};
use outside_io::{CostMeter, MemFiles, MemSink};
use std::alloc::{AllocError, Global};
use std::process::Abort;
use std::test::Fail;

const GROUPS: &str = r#"{"scan":"t","output":{"groups":{"by":["k"],
"aggs":[{"fn":"sum","col":"v"}]}}}"#;

const COUNT: &str = r#"{"scan":"t","output":{"totals":[{"fn":"count"}]}}"#;

// Two queries of the weights 10 and 5.
const WEIGHTED: &str = r#"{"scan":"t","weight":10,"output":{"totals":[{"fn":"count"}]}},
{"scan":"t","weight":5,"output":{"totals":[{"fn":"count"}]}}"#;

// What `GROUPS` answers, and its only share.
const GROUPS_ANSWER: &str = "query 0 lines 2\ngroup 1: 30\ngroup 2: 5\n\
shares\nworker 0 query 0 ranges 2 tuples 19 ns 1900 priority 10000\n";

// One worker claims both task sets whole.
const ONE_WORKER: &str = "worker 0 widest 0 largest 167772\n\
journal\nset 0.0 slot 0 total 3 finisher 0\nclaim 0 3 worker 0\n\
set 0.1 slot 0 total 16 finisher 0\nclaim 0 16 worker 0\nend\n";

// Worker 0 claims both ranges, and worker 1 finishes both task sets.
const TWO_WORKERS: &str = "worker 0 widest 0 largest 167772\nworker 1 widest 0 largest 0\n\
journal\nset 0.0 slot 0 total 3 finisher 1\nclaim 0 3 worker 0\n\
set 0.1 slot 0 total 16 finisher 1\nclaim 0 16 worker 0\nend\n";

// One worker answers the two queries of different weights.
const TWO_QUERIES: &str = "query 0 lines 1\ntotal 3\nquery 1 lines 1\ntotal 3\n\
shares\nworker 0 query 0 ranges 1 tuples 3 ns 300 priority 10000\n\
worker 0 query 1 ranges 1 tuples 3 ns 300 priority 5000\nworker 0 widest 31457 largest 62914\n\
journal\nset 0.0 slot 0 total 3 finisher 0\nclaim 0 3 worker 0\n\
set 1.0 slot 1 total 3 finisher 0\nclaim 0 3 worker 0\nend\n";

// Three queries that wait for one slot: each finds the floor of the one before it.
const ONE_SLOT: &str = "query 0 lines 1\ntotal 3\nquery 1 lines 1\ntotal 3\n\
query 2 lines 1\ntotal 3\nshares\n\
worker 0 query 0 ranges 1 tuples 3 ns 300 priority 10000\n\
worker 0 query 1 ranges 1 tuples 3 ns 300 priority 10000\n\
worker 0 query 2 ranges 1 tuples 3 ns 300 priority 10000\nworker 0 widest 0 largest 31457\n\
journal\nset 0.0 slot 0 total 3 finisher 0\nclaim 0 3 worker 0\n\
set 1.0 slot 0 total 3 finisher 0\nclaim 0 3 worker 0\n\
set 2.0 slot 0 total 3 finisher 0\nclaim 0 3 worker 0\nend\n";

const NO_QUERIES: &str = "shares\nworker 0 widest 0 largest 0\njournal\nend\n";

const NO_ROWS: &str = "query 0 lines 1\ntotal 0,0,-,-\nshares\nworker 0 widest 0 largest 0\n\
journal\nset 0.0 slot 0 total 0 finisher 0\nend\n";

const NO_GROUPS: &str = "query 0 lines 0\nshares\n\
worker 0 query 0 ranges 1 tuples 16 ns 1600 priority 10000\nworker 0 widest 0 largest 167772\n\
journal\nset 0.0 slot 0 total 0 finisher 0\nset 0.1 slot 0 total 16 finisher 0\n\
claim 0 16 worker 0\nend\n";

// The morsels of 200,000 tuples: 16 doubling to 16,384, then 20,000 eight times, then the rest.
const LONG_BEGIN: &str = "query 0 lines 1\ntotal 200000\nshares\n\
worker 0 query 0 ranges 20 tuples 200000 ns 20000000 priority 7290\n\
worker 0 widest 0 largest 233016888\njournal\nset 0.0 slot 0 total 200000 finisher 0\n";

// Asserts what a run writes at status 0, for queries over a table: the command, and its words after
// the script.
fn reports<'x>(
    rt: &(impl Abort + AllocGlobal),
    queries: &str,
    table: &str,
    asked: (&'x str, &'x [&'x str]),
    text: &str,
) -> Result<(), Fail> {
    let alloc = rt.alloc();
    let script = script_of(alloc, r#"{"name":"t","file":"t.csv"}"#, queries)?;
    let mut files = files_of(alloc, script.as_bytes(), table.as_bytes(), &[])?;
    let mut words = vec![in alloc; asked.0, "s.json"]?;
    words.extend_from_slice(asked.1)?;
    ends(rt, words.as_slice(), &mut files, ALL_WRITES, 0, text)
}

#[test]
fn reports_runs(rt: HostRuntime) -> Result<(), Fail> {
    let one: (&str, &[&str]) = ("turns", &["--workers", "1"]);
    let text = format!(in rt.alloc(); "{GROUPS_ANSWER}{ONE_WORKER}")?;
    reports(&rt, GROUPS, TABLE, one, text.as_str())?;
    let steps: (&str, &[&str]) = ("steps", &["--workers=1", "--order", "0,0,0,0,0,0,0,0,0"]);
    reports(&rt, GROUPS, TABLE, steps, text.as_str())?;
    let order: (&str, &[&str]) = ("turns", &["--workers=2", "--order", "1,0,1"]);
    let text = format!(in rt.alloc(); "{GROUPS_ANSWER}{TWO_WORKERS}")?;
    reports(&rt, GROUPS, TABLE, order, text.as_str())?;
    // Here a turn ends with Idle.
    let idle: (&str, &[&str]) = ("steps", &["--workers=2", "--order", "1,1,1,0,0,0"]);
    reports(&rt, GROUPS, TABLE, idle, text.as_str())?;
    reports(&rt, WEIGHTED, TABLE, one, TWO_QUERIES)?;
    let three = format!(in rt.alloc(); "{COUNT},{COUNT},{COUNT}")?;
    let slot: (&str, &[&str]) = ("turns", &["--workers", "1", "--slots", "1"]);
    reports(&rt, three.as_str(), TABLE, slot, ONE_SLOT)?;
    reports(&rt, "", TABLE, one, NO_QUERIES)?;
    let totals = r#"{"scan":"t","output":{"totals":[{"fn":"count"},{"fn":"sum","col":"v"},
        {"fn":"min","col":"v"},{"fn":"max","col":"v"}]}}"#;
    reports(&rt, totals, "k,v\n", one, NO_ROWS)?;
    reports(&rt, GROUPS, "k,v\n", one, NO_GROUPS)
}

// Worker 1 looks at the task set before worker 0 shuts it. So it is marked, pays when it leaves, is
// the last to do so, and finishes the task set.
const PAID: &str = "query 0 lines 1\ntotal 3\n\
shares\nworker 0 query 0 ranges 1 tuples 3 ns 300 priority 10000\n\
worker 0 widest 0 largest 31457\nworker 1 widest 0 largest 0\n\
journal\nset 0.0 slot 0 total 3 finisher 1\nclaim 0 3 worker 0\nend\n";

// The text of numbers with a comma between: each so many times.
fn order_of(alloc: Global, turns: &[(u32, u32)]) -> Result<String, AllocError> {
    let mut text = String::new(alloc);
    for (worker, times) in turns {
        for _ in 0..*times {
            if !text.is_empty() {
                text.push(',')?;
            }
            let number = format!(in alloc; "{worker}")?;
            text.push_str(number.as_str())?;
        }
    }
    Ok(text)
}

// Worker 0 admits the query in 14 steps, claims all tuples in 12, and shuts the task set in 15. In
// between worker 1 takes its notices, enters and looks.
#[test]
fn steps_let_the_last_to_pay_finish(rt: HostRuntime) -> Result<(), Fail> {
    let order = order_of(rt.alloc(), &[(0, 26), (1, 8), (0, 15), (1, 10)])?;
    let words: [&str; 3] = ["--workers=2", "--order", order.as_str()];
    let asked: (&str, &[&str]) = ("steps", &words);
    reports(&rt, COUNT, TABLE, asked, PAID)
}

// The text of the run of 200,000 rows.
fn long_text(alloc: Global) -> Result<String, AllocError> {
    let mut text = String::from_str(alloc, LONG_BEGIN)?;
    let mut from: u32 = 0;
    let mut len: u32 = 16;
    for morsel in 0..20 {
        let to = from.saturating_add(len);
        let line = format!(in alloc; "claim {from} {to} worker 0\n")?;
        text.push_str(line.as_str())?;
        from = to;
        len = if morsel < 10 {
            len.saturating_mul(2)
        } else if morsel < 18 {
            20_000
        } else {
            7_248
        };
    }
    text.push_str("end\n")?;
    Ok(text)
}

#[test]
fn reports_a_long_run(rt: HostRuntime) -> Result<(), Fail> {
    let alloc = rt.alloc();
    let mut table = String::from_str(alloc, "v\n")?;
    for _ in 0..200_000 {
        table.push_str("1\n")?;
    }
    let one: (&str, &[&str]) = ("turns", &["--workers", "1"]);
    let text = long_text(alloc)?;
    reports(&rt, COUNT, table.as_str(), one, text.as_str())
}

// Files that fail: the second read is that of the script's end, the third that of the table.
#[test]
fn reports_failures_of_runs(rt: HostRuntime) -> Result<(), Fail> {
    let alloc = rt.alloc();
    let words = ["turns", "s.json", "--workers", "1"];
    let script = script_of(alloc, r#"{"name":"t","file":"t.csv"}"#, GROUPS)?;
    for (read, text) in [
        (2, "error: cannot read s.json\n"),
        (3, "error: cannot read t.csv\n"),
    ] {
        let mut files = files_of(alloc, script.as_bytes(), TABLE.as_bytes(), &[read])?;
        ends(&rt, &words, &mut files, ALL_WRITES, 3, text)?;
    }
    let mut files = files_of(alloc, script.as_bytes(), TABLE.as_bytes(), &[])?;
    ends(&rt, &words, &mut files, (2, 4), 4, "quer")
}

// What a command writes at status 0.
fn written(
    rt: &(impl Abort + AllocGlobal),
    words: &[&str],
    files: &mut MemFiles,
) -> Result<Vec<u8>, Fail> {
    let alloc = rt.alloc();
    let given = texts(alloc, words)?;
    let mut out = MemSink::new(alloc, 100_000, 100_000, Vec::new(alloc))?;
    let mut meter = CostMeter::new();
    let status = command(alloc, given.as_slice(), files, &mut out, &mut meter);
    assert_eq!(rt; status, 0);
    Ok(Vec::from_slice(alloc, out.written())?)
}

// A query of each form: rows, totals and groups, with filters, a join and two joins.
const ALL_FORMS: &str = r#"{"scan":"t","output":{"rows":["v","k"]}},
{"scan":"t","weight":3,"where":[{"col":"v","op":">","value":5}],
"output":{"totals":[{"fn":"count"},{"fn":"sum","col":"v"}]}},
{"scan":"t","after":1,"joins":[{"table":"u","left":"k","right":"k"}],
"output":{"totals":[{"fn":"min","col":[1,"w"]},{"fn":"max","col":"v"}]}},
{"scan":"t","after":2,"weight":1,"joins":[{"table":"u","left":"k","right":"k",
"where":[{"col":"w","op":"<","value":9}]},{"table":"x","left":[1,"w"],"right":"w"}],
"output":{"rows":["k",[1,"w"],[2,"z"]]}},
{"scan":"u","cost":1000000,"joins":[{"table":"x","left":"w","right":"w"}],
"output":{"groups":{"by":["k",[1,"w"]],"aggs":[{"fn":"count"},{"fn":"sum","col":[1,"z"]}]}}},
{"scan":"t","output":{"groups":{"by":["k"],"aggs":[{"fn":"max","col":"v"}]}}}"#;

// An order of so many numbers below three, drawn from a seed.
fn drawn_order(alloc: Global, seed: u32, len: u32) -> Result<String, AllocError> {
    let mut text = String::from_str(alloc, "0")?;
    let mut state = u64::from(seed) + 1;
    for _ in 1..len {
        state = state.wrapping_mul(48_271) % 2_147_483_647;
        text.push_str(match state % 3 {
            0 => ",0",
            1 => ",1",
            _ => ",2",
        })?;
    }
    Ok(text)
}

// Asserts that `steps` of a script, with 3 workers, gives the answers of `check`, whatever the
// order: so many drawn orders of so many numbers.
fn steps_answer_as_check_does(
    rt: &(impl Abort + AllocGlobal),
    queries: &str,
    slots: &str,
    orders: u32,
    len: u32,
) -> Result<(), Fail> {
    let alloc = rt.alloc();
    let script = script_of(alloc, ENTRIES, queries)?;
    let mut files = files_of(alloc, script.as_bytes(), TABLE.as_bytes(), &[])?;
    let mut answers = written(rt, &["check", "s.json"], &mut files)?;
    answers.truncate(answers.len().saturating_sub(4));
    answers.extend_from_slice(b"shares\n")?;
    for seed in 0..orders {
        let order = drawn_order(alloc, seed, len)?;
        let words = [
            "steps",
            "s.json",
            "--workers=3",
            slots,
            "--order",
            order.as_str(),
        ];
        let report = written(rt, &words, &mut files)?;
        assert!(rt; report.as_slice().starts_with(answers.as_slice()), "{seed}");
    }
    Ok(())
}

#[test]
fn orders_leave_answers_of_all_forms(rt: HostRuntime) -> Result<(), Fail> {
    steps_answer_as_check_does(&rt, ALL_FORMS, "--slots=2", 20, 600)
}

// The orders are as long as an order may be.
#[test]
fn long_orders_leave_answers(rt: HostRuntime) -> Result<(), Fail> {
    steps_answer_as_check_does(&rt, WEIGHTED, "--slots=128", 200, 4096)
}

// The lines and the ranges are those of a model in another language.
#[test]
fn sums_up_a_large_input(rt: HostRuntime) -> Result<(), Fail> {
    let mut files = MemFiles::new(rt.alloc(), Vec::new(rt.alloc()));
    let text =
        "number 7\nrows 201000\nqueries 40\nsets 60\nanswered 40\nlines 289\nranges 3721\nend\n";
    ends(&rt, &["make", "7"], &mut files, ALL_WRITES, 0, text)
}
