//! Tests of `command_run`: worked runs by threads, also of a large input and of two workers that
//! have to meet.
ghost use Rattle.std.specs.Prelude.{◌≡◌, ◌≤◌, IfOk, vec_len};
ghost use Rattle.slot_history.specs.declared.shape.TheConstants.{MOST_WORKERS};

use super::command::command;
use super::tests::{ALL_WRITES, ends, files_of, script_of, texts};
use super::threads::command_run;
use outside_io::{CostMeter, Gate, HoldGate, MemFiles, MemSink, OpenGate};
use pool_run::ThreadRan;
use report_text::Record;
use slot_history::MOST_WORKERS;
use std::alloc::{AllocError, Global};
use std::process::Abort;
use std::sync::Wait;
use std::test::Fail;
use std::thread::Threads;

// What `run` of no queries writes with 4 workers.
const NO_QUERIES: &str = "shares\nworker 0 widest 0 largest 0\nworker 1 widest 0 largest 0\n\
worker 2 widest 0 largest 0\nworker 3 widest 0 largest 0\njournal\nend\n";

/// A meter for each worker that there may be.
pub(super) fn all_meters(alloc: Global) -> Result<Vec<CostMeter>, AllocError>
    ensures { IfOk result (λ meters. vec_len meters ≡ MOST_WORKERS) }
{
    Ok(vec![in alloc; CostMeter::new(); MOST_WORKERS as usize]?)
}

// What a run by threads leaves: the status, what was written, and the run.
#[derive(Drop)]
struct Left {
    status: u8,
    text: Vec<u8>,
    ran: Option<ThreadRan>,
}

// Runs `command_run` over these files, with workers that pass this gate.
fn left_by<G: Gate + Sync>(
    rt: &(impl Threads + Wait + Sync + AllocGlobal),
    words: &[&str],
    files: &mut MemFiles,
    gate: &G,
) -> Result<Left, AllocError> {
    let alloc = rt.alloc();
    let given = texts(alloc, words)?;
    let mut out = MemSink::new(alloc, 1_000_000, 1_000_000, Vec::new(alloc))?;
    let mut meters = all_meters(alloc)?;
    let mut ran = None;
    let words = given.as_slice();
    let status = command_run(
        rt,
        alloc,
        words,
        files,
        &mut out,
        &mut meters,
        gate,
        &mut ran,
    );
    let text = Vec::from_slice(alloc, out.written())?;
    Ok(Left { status, text, ran })
}

// Asserts the status, the text, and whether a run was left.
fn is_left(rt: &impl Abort, left: &Left, status: u8, text: &str, ran: bool) {
    assert_eq!(rt; left.text.as_slice(), text.as_bytes(), "{text}");
    assert_eq!(rt; left.status, status, "{text}");
    assert_eq!(rt; left.ran.is_some(), ran, "{text}");
}

#[test]
fn runs_no_queries(rt: HostRuntime) -> Result<(), Fail> {
    let alloc = rt.alloc();
    let script = script_of(alloc, "", "")?;
    let mut files = files_of(alloc, script.as_bytes(), b"", &[])?;
    let words = ["run", "s.json", "--workers=4"];
    let left = left_by(&rt, &words, &mut files, &OpenGate::new())?;
    is_left(&rt, &left, 0, NO_QUERIES, true);
    Ok(())
}

// Each call refuses the words of the other, and a refusal leaves no run.
#[test]
fn refuses_the_words_of_the_other(rt: HostRuntime) -> Result<(), Fail> {
    let alloc = rt.alloc();
    let script = script_of(alloc, "", "")?;
    let mut files = files_of(alloc, script.as_bytes(), b"", &[])?;
    let usage = "error: usage\n";
    let others: [&[&str]; 4] = [
        &["check", "s.json"],
        &["turns", "s.json", "--workers=1"],
        &["steps", "s.json", "--workers=1"],
        &["make", "7", "u"],
    ];
    for words in others {
        let left = left_by(&rt, words, &mut files, &OpenGate::new())?;
        is_left(&rt, &left, 2, usage, false);
    }
    let words = ["run", "s.json", "--workers=1"];
    ends(&rt, &words, &mut files, ALL_WRITES, 2, usage)?;
    let words = ["run", "none.json", "--workers=1"];
    let left = left_by(&rt, &words, &mut files, &OpenGate::new())?;
    is_left(&rt, &left, 3, "error: cannot read none.json\n", false);
    Ok(())
}

// What `command` writes at status 0.
fn written(
    rt: &(impl Abort + AllocGlobal),
    words: &[&str],
    files: &mut MemFiles,
) -> Result<Vec<u8>, Fail> {
    let alloc = rt.alloc();
    let given = texts(alloc, words)?;
    let mut out = MemSink::new(alloc, 5_000_000, 5_000_000, Vec::new(alloc))?;
    let mut meter = CostMeter::new();
    let status = command(alloc, given.as_slice(), files, &mut out, &mut meter);
    assert_eq!(rt; status, 0);
    Ok(Vec::from_slice(alloc, out.written())?)
}

// Adds a part of a large input as a file.
fn add_part(
    rt: &(impl Abort + AllocGlobal),
    files: &mut MemFiles,
    part: &str,
    name: &str,
) -> Result<(), Fail> {
    let alloc = rt.alloc();
    let mut none = MemFiles::new(alloc, Vec::new(alloc));
    let text = written(rt, &["make", "7", part], &mut none)?;
    files.add(String::from_str(alloc, name)?, text)?;
    Ok(())
}

// The three parts of a large input.
fn large_input(rt: &(impl Abort + AllocGlobal)) -> Result<MemFiles, Fail> {
    let alloc = rt.alloc();
    let mut files = MemFiles::new(alloc, Vec::new(alloc));
    add_part(rt, &mut files, "script", "s.json")?;
    add_part(rt, &mut files, "t", "t.csv")?;
    add_part(rt, &mut files, "u", "u.csv")?;
    Ok(files)
}

// Asserts that a run was left, and that its text begins like this.
fn begins(rt: &impl Abort, left: &Left, begin: &[u8]) {
    assert_eq!(rt; left.status, 0);
    assert!(rt; left.ran.is_some());
    assert!(rt; left.text.as_slice().starts_with(begin));
}

// What `check` writes of a script, with the line of shares in place of the last line.
fn answers_part(rt: &(impl Abort + AllocGlobal), files: &mut MemFiles) -> Result<Vec<u8>, Fail> {
    let mut answers = written(rt, &["check", "s.json"], files)?;
    answers.truncate(answers.len().saturating_sub(4));
    answers.extend_from_slice(b"shares\n")?;
    Ok(answers)
}

// The answers part of `run` is that of `turns`, byte for byte: both are the answers of `check`.
#[test]
fn runs_a_large_input(rt: HostRuntime) -> Result<(), Fail> {
    let mut files = large_input(&rt)?;
    let answers = answers_part(&rt, &mut files)?;
    let turns = written(&rt, &["turns", "s.json", "--workers=4"], &mut files)?;
    assert!(rt; turns.as_slice().starts_with(answers.as_slice()));
    let words = ["run", "s.json", "--workers=4"];
    let left = left_by(&rt, &words, &mut files, &OpenGate::new())?;
    begins(&rt, &left, answers.as_slice());
    Ok(())
}

// A table of so many rows.
fn numbered(alloc: Global, rows: u32) -> Result<String, AllocError> {
    let mut text = String::from_str(alloc, "k,v\n")?;
    for row in 0..rows {
        let line = format!(in alloc; "{row},1\n")?;
        text.push_str(line.as_str())?;
    }
    Ok(text)
}

// Whether a worker claimed a range of one of these task sets.
fn has_claim(records: &[Record], worker: u32) -> bool {
    for record in records {
        for claim in record.claims.as_slice() {
            if claim.worker == worker {
                return true;
            }
        }
    }
    false
}

// Whether workers 0 and 1 each claimed a range in a run that was left.
fn both_claimed(ran: &Option<ThreadRan>) -> bool {
    match ran {
        Some(ran) => {
            let records = ran.report.records.as_slice();
            has_claim(records, 0) && has_claim(records, 1)
        }
        None => false,
    }
}

// Two workers can meet at the gate only if they are threads that run at once.
#[test]
fn lets_two_workers_meet(rt: HostRuntime) -> Result<(), Fail> {
    let alloc = rt.alloc();
    let entry = r#"{"name":"t","file":"t.csv"}"#;
    let query = r#"{"scan":"t","output":{"totals":[{"fn":"sum","col":"v"}]}}"#;
    let script = script_of(alloc, entry, query)?;
    let table = numbered(alloc, 64)?;
    let mut files = files_of(alloc, script.as_bytes(), table.as_bytes(), &[])?;
    let gate = HoldGate::new(200_000_000);
    let words = ["run", "s.json", "--workers=2"];
    let left = left_by(&rt, &words, &mut files, &gate)?;
    begins(&rt, &left, b"query 0 lines 1\ntotal 64\nshares\n");
    assert!(rt; gate.met());
    assert!(rt; both_claimed(&left.ran));
    Ok(())
}
