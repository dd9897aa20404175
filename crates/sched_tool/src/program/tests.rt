//! Tests of `command`: worked words, scripts, queries and tables; limits; failing reads and writes.
//! And of `run_program`: how it ends by the words that it was given or couldn't get.
ghost use Rattle.std.specs.Prelude.{◌≤◌, length};

use super::command::command;
use super::thread_tests::all_meters;
use super::{Ended, GivenWords, run_program};
use outside_io::{CostMeter, MemFiles, MemSink};
use std::alloc::{AllocError, Global};
use std::io;
use std::process::Abort;
use std::test::Fail;

const SCRIPT: &str = r#"{"version":1,"tables":[{"name":"t","file":"t.csv"}],
"queries":[{"scan":"t","output":{"totals":[{"fn":"sum","col":"v"}]}}]}"#;

/// A table.
pub(super) const TABLE: &str = "k,v\n1,10\n1,20\n2,5\n";

const ANSWER: &str = "query 0 lines 1\ntotal 35\nend\n";

/// No write fails, and one takes 1,000 bytes.
pub(super) const ALL_WRITES: (u64, u32) = (0, 1000);

// Two more tables, to be joined.
const JOINED: &str = "k,w\n1,7\n2,8\n2,9\n3,1\n";

const JOINED_NEXT: &str = "w,z\n7,100\n8,200\n8,300\n9,400\n";

/// The entries of all three tables in a script.
pub(super) const ENTRIES: &str = r#"{"name":"t","file":"t.csv"},{"name":"u","file":"u.csv"},
{"name":"x","file":"x.csv"}"#;

// Adds a file.
fn add(alloc: Global, files: &mut MemFiles, name: &str, bytes: &[u8]) -> Result<(), AllocError> {
    files.add(
        String::from_str(alloc, name)?,
        Vec::from_slice(alloc, bytes)?,
    )
}

/// The files `s.json`, `t.csv` and those to be joined. The reads with these numbers fail.
pub(super) fn files_of(
    alloc: Global,
    script: &[u8],
    table: &[u8],
    failing_reads: &[u64],
) -> Result<MemFiles, AllocError> {
    let mut files = MemFiles::new(alloc, Vec::from_slice(alloc, failing_reads)?);
    add(alloc, &mut files, "s.json", script)?;
    add(alloc, &mut files, "t.csv", table)?;
    add(alloc, &mut files, "u.csv", JOINED.as_bytes())?;
    add(alloc, &mut files, "x.csv", JOINED_NEXT.as_bytes())?;
    Ok(files)
}

/// The words as texts of their own.
pub(super) fn texts(alloc: Global, words: &[&str]) -> Result<Vec<String>, AllocError> {
    let mut all = Vec::new(alloc);
    for word in words {
        all.push(String::from_str(alloc, word)?)?;
    }
    Ok(all)
}

/// Asserts with which status a command ends, and what it writes. The write of this number fails,
/// and a write takes at most so many bytes.
pub(super) fn ends(
    rt: &(impl Abort + AllocGlobal),
    words: &[&str],
    files: &mut MemFiles,
    writes: (u64, u32),
    status: u8,
    text: &str,
) -> Result<(), Fail> {
    let alloc = rt.alloc();
    let given = texts(alloc, words)?;
    let failing = vec![in alloc; writes.0]?;
    let mut out = MemSink::new(alloc, 1000, writes.1.max(1), failing)?;
    let mut meter = CostMeter::new();
    let answered = command(alloc, given.as_slice(), files, &mut out, &mut meter);
    assert_eq!(rt; out.written(), text.as_bytes(), "{text}");
    assert_eq!(rt; answered, status, "{text}");
    Ok(())
}

// Asserts how `check` of a script ends, over this table `t.csv` and those to be joined.
fn check_ends(
    rt: &(impl Abort + AllocGlobal),
    script: &[u8],
    table: &[u8],
    status: u8,
    text: &str,
) -> Result<(), Fail> {
    let mut files = files_of(rt.alloc(), script, table, &[])?;
    ends(
        rt,
        &["check", "s.json"],
        &mut files,
        ALL_WRITES,
        status,
        text,
    )
}

/// A script with these entries of tables and these queries.
pub(super) fn script_of(alloc: Global, entries: &str, queries: &str) -> Result<String, AllocError> {
    format!(in alloc; "{{\"version\":1,\"tables\":[{entries}],\"queries\":[{queries}]}}")
}

// Asserts what `check` writes at status 0 for queries over a table: each case is the queries, the
// table and the text.
fn answers(rt: &(impl Abort + AllocGlobal), cases: &[(&str, &str, &str)]) -> Result<(), Fail> {
    for (queries, table, text) in cases {
        let script = script_of(rt.alloc(), ENTRIES, queries)?;
        check_ends(rt, script.as_bytes(), table.as_bytes(), 0, text)?;
    }
    Ok(())
}

#[test]
fn reads_words(rt: HostRuntime) -> Result<(), Fail> {
    let cases: [(&[&str], u8, &str); 10] = [
        (&["check", "s.json"], 0, ANSWER),
        (&["check", "--", "s.json"], 0, ANSWER),
        (&["check", "s.json", "--"], 0, ANSWER),
        (&["check", "-"], 3, "error: cannot read -\n"),
        (&["check", "--", "--"], 3, "error: cannot read --\n"),
        (&["check", "--", "-x"], 3, "error: cannot read -x\n"),
        (
            &["check", "--", "--slots=1"],
            3,
            "error: cannot read --slots=1\n",
        ),
        (&["check", "--", "-"], 3, "error: cannot read -\n"),
        (&["check", "a b"], 3, "error: cannot read a b\n"),
        (&["check", "s.json="], 3, "error: cannot read s.json=\n"),
    ];
    for (words, status, text) in cases {
        let mut files = files_of(rt.alloc(), SCRIPT.as_bytes(), TABLE.as_bytes(), &[])?;
        ends(&rt, words, &mut files, ALL_WRITES, status, text)?;
    }
    Ok(())
}

// Words outside the grammar: of no command, of `check`, of `make` and of runs, and those of a
// command that isn't built.
#[test]
fn refuses_words(rt: HostRuntime) -> Result<(), Fail> {
    let cases: [&[&str]; 52] = [
        &[],
        &[""],
        &["-"],
        &["--"],
        &["--help"],
        &["Check", "s.json"],
        &["check ", "s.json"],
        &["--", "check", "s.json"],
        &["--workers", "1", "check", "s.json"],
        &["check"],
        &["check", ""],
        &["check", "--"],
        &["check", "---"],
        &["check", "-s.json"],
        &["check", "-h"],
        &["check", "--help"],
        &["check", "s.json", "s.json"],
        &["check", "s.json", ""],
        &["check", "s.json", "--", "--"],
        &["check", "s.json", "--workers", "1"],
        &["check", "--workers=1", "s.json"],
        &["check", "--slots", "1", "--order=0", "s.json"],
        &["check", "--workers", "s.json"],
        &["check", "--workers", "--", "s.json"],
        &["make"],
        &["make", "-7"],
        &["make", "4294967296"],
        &["make", "--", "--"],
        &["make", "7", "T"],
        &["make", "7", "t.csv"],
        &["make", "7", ""],
        &["make", "7", "u", "u"],
        &["make", "", "u"],
        &["make", "+7", "u"],
        &["make", "-7", "u"],
        &["make", "--", "-7", "u"],
        &["make", "7 ", "u"],
        &["make", "7.0", "u"],
        &["make", "0x7", "u"],
        &["make", "\u{667}", "u"],
        &["make", "00000000007", "u"],
        &["make", "4294967296", "u"],
        &["make", "9999999999", "u"],
        &["make", "7", "u", "--slots", "1"],
        &["make", "7", "--workers", "8"],
        &["turns", "s.json"],
        &["turns", "s.json", "--workers", "0"],
        &["turns", "s.json", "--workers", "65"],
        &["turns", "s.json", "--workers", "2", "--workers", "2"],
        &["turns", "s.json", "--workers", "2", "--order", "2"],
        &["steps", "s.json", "--workers=1", "--order=0,"],
        &["run", "s.json", "--workers", "1"],
    ];
    for words in cases {
        let mut files = files_of(rt.alloc(), SCRIPT.as_bytes(), TABLE.as_bytes(), &[])?;
        ends(&rt, words, &mut files, ALL_WRITES, 2, "error: usage\n")?;
    }
    Ok(())
}

// Whether a text begins and ends so.
fn spans(text: &[u8], begin: &str, end: &str) -> bool {
    text.starts_with(begin.as_bytes()) && text.ends_with(end.as_bytes())
}

// Adds what `make` writes at status 0.
fn add_part(
    rt: &(impl Abort + AllocGlobal),
    number: &str,
    part: &str,
    text: &mut Vec<u8>,
) -> Result<(), Fail> {
    let alloc = rt.alloc();
    let mut words = texts(alloc, &["make", "--"])?;
    words.push(String::from_str(alloc, number)?)?;
    words.push(String::from_str(alloc, part)?)?;
    let mut files = MemFiles::new(alloc, Vec::new(alloc));
    let mut out = MemSink::new(alloc, 5_000_000, 5_000_000, Vec::new(alloc))?;
    let mut meter = CostMeter::new();
    let status = command(alloc, words.as_slice(), &mut files, &mut out, &mut meter);
    assert_eq!(rt; status, 0);
    text.extend_from_slice(out.written())?;
    Ok(())
}

// How many bytes the parts have, and what they begin and end with. Each is the same again, and with
// zeros before the number. The expected values are those of a program in another language.
#[test]
fn makes_parts(rt: HostRuntime) -> Result<(), Fail> {
    let alloc = rt.alloc();
    let script = r#"{"queries":[{"after":0,"cost":180,"joins":[],"output":{"totals":"#;
    let tables =
        r#""tables":[{"file":"t.csv","name":"t"},{"file":"u.csv","name":"u"}],"version":1}"#;
    let cases = [
        ("7", "t", 2_131_152, "k,g,v\n168,0,-677\n", "\n333,12,-36\n"),
        ("7", "u", 6_786, "k,w\n0,7\n1,2\n", "\n999,80\n"),
        ("7", "script", 6_543, script, tables),
        (
            "4294967295",
            "t",
            2_131_750,
            "k,g,v\n84,8,162\n",
            "\n990,14,-518\n",
        ),
    ];
    for (number, part, len, begin, end) in cases {
        let mut text = Vec::new(alloc);
        add_part(&rt, number, part, &mut text)?;
        assert_eq!(rt; text.len(), len, "{number} {part}");
        assert!(rt; spans(text.as_slice(), begin, end), "{number} {part}");
        let mut again = Vec::new(alloc);
        let padded = format!(in alloc; "{number:0>10}")?;
        add_part(&rt, padded.as_str(), part, &mut again)?;
        assert!(rt; text.as_slice() == again.as_slice(), "{number} {part}");
    }
    Ok(())
}

#[test]
fn answers_queries(rt: HostRuntime) -> Result<(), Fail> {
    let cases = [
        (
            r#"{"scan":"t","where":[{"col":"v","op":">=","value":10}],
                "output":{"rows":["k","v"]}}"#,
            TABLE,
            "query 0 lines 2\nrow 1,10\nrow 1,20\nend\n",
        ),
        (
            r#"{"scan":"t","where":[{"col":"k","op":"=","value":9}],"output":{"totals":[
                {"fn":"count"},{"fn":"min","col":"v"},{"fn":"max","col":"v"}]}}"#,
            TABLE,
            "query 0 lines 1\ntotal 0,-,-\nend\n",
        ),
        (
            r#"{"scan":"t","output":{"totals":[{"fn":"sum","col":"v"}]}}"#,
            "v\n9223372036854775807\n9223372036854775807\n",
            "query 0 lines 1\ntotal 18446744073709551614\nend\n",
        ),
        (
            r#"{"scan":"t","output":{"totals":[{"fn":"sum","col":"v"}]}},
                {"scan":"t","after":1,"output":{"rows":["v"]}}"#,
            "v\n\"3\"\n-1\n",
            "query 0 lines 1\ntotal 2\nquery 1 lines 2\nrow -1\nrow 3\nend\n",
        ),
    ];
    answers(&rt, &cases)
}

#[test]
fn answers_joins(rt: HostRuntime) -> Result<(), Fail> {
    let cases = [
        (
            r#"{"scan":"t","joins":[{"table":"t","left":"k","right":"k"}],
                "output":{"totals":[{"fn":"count"}]}}"#,
            TABLE,
            "query 0 lines 1\ntotal 5\nend\n",
        ),
        // Each row joins all rows, since all keys are equal.
        (
            r#"{"scan":"t","joins":[{"table":"t","left":"k","right":"k"}],
                "output":{"totals":[{"fn":"count"}]}}"#,
            "k\n1\n1\n1\n",
            "query 0 lines 1\ntotal 9\nend\n",
        ),
        // A filter on the joined table.
        (
            r#"{"scan":"t","joins":[{"table":"u","left":"k","right":"k",
                "where":[{"col":"w","op":">","value":7}]}],"output":{"rows":["k","v",[1,"w"]]}}"#,
            TABLE,
            "query 0 lines 2\nrow 2,5,8\nrow 2,5,9\nend\n",
        ),
        // The second join by a column of the first joined table.
        (
            r#"{"scan":"t","joins":[{"table":"u","left":"k","right":"k"},
                {"table":"x","left":[1,"w"],"right":"w"}],
                "output":{"rows":["v",[2,"z"],[1,"w"]]}}"#,
            TABLE,
            "query 0 lines 5\nrow 5,200,8\nrow 5,300,8\nrow 5,400,9\nrow 10,100,7\n\
            row 20,100,7\nend\n",
        ),
        (
            r#"{"scan":"t","joins":[{"table":"u","left":"k","right":"k"},
                {"table":"x","left":[1,"w"],"right":"w"}],"output":{"totals":[{"fn":"count"},
                {"fn":"sum","col":[2,"z"]},{"fn":"min","col":[1,"w"]},{"fn":"max","col":"v"}]}}"#,
            TABLE,
            "query 0 lines 1\ntotal 5,1100,7,20\nend\n",
        ),
    ];
    answers(&rt, &cases)
}

#[test]
fn answers_groups(rt: HostRuntime) -> Result<(), Fail> {
    let cases = [
        (
            r#"{"scan":"t","output":{"groups":{"by":["k"],
                "aggs":[{"fn":"sum","col":"v"},{"fn":"count"}]}}}"#,
            TABLE,
            "query 0 lines 2\ngroup 1: 30,2\ngroup 2: 5,1\nend\n",
        ),
        (
            r#"{"scan":"t","joins":[{"table":"u","left":"k","right":"k"}],
                "output":{"groups":{"by":["k",[1,"w"]],
                "aggs":[{"fn":"count"},{"fn":"max","col":"v"}]}}}"#,
            TABLE,
            "query 0 lines 3\ngroup 1,7: 2,20\ngroup 2,8: 1,5\ngroup 2,9: 1,5\nend\n",
        ),
        (
            r#"{"scan":"t","joins":[{"table":"u","left":"k","right":"k"},
                {"table":"x","left":[1,"w"],"right":"w"}],"output":{"groups":{"by":[[2,"z"]],
                "aggs":[{"fn":"min","col":[1,"w"]},{"fn":"sum","col":"v"}]}}}"#,
            TABLE,
            "query 0 lines 4\ngroup 100: 7,30\ngroup 200: 8,5\ngroup 300: 8,5\n\
            group 400: 9,5\nend\n",
        ),
        // A group exists only if a row has it.
        (
            r#"{"scan":"t","where":[{"col":"k","op":"=","value":9}],
                "output":{"groups":{"by":["v"],"aggs":[{"fn":"count"}]}}}"#,
            TABLE,
            "query 0 lines 0\nend\n",
        ),
    ];
    answers(&rt, &cases)
}

#[test]
fn refuses_scripts(rt: HostRuntime) -> Result<(), Fail> {
    let cases = [
        (r#"{"version":1,"quer"#, "not json"),
        (r#"{"version":2}"#, "version unknown"),
        (
            r#"{"version":1,"x":1,"tables":[],"queries":[]}"#,
            "unknown key in $",
        ),
        ("[]", "wrong shape $"),
        (
            r#"{"version":1,"tables":[1,2,3,4,5,6,7,8,9],"queries":[]}"#,
            "too many $.tables",
        ),
    ];
    for (script, cause) in cases {
        let text = format!(in rt.alloc(); "error: script: {cause}\n")?;
        check_ends(&rt, script.as_bytes(), TABLE.as_bytes(), 5, text.as_str())?;
    }
    Ok(())
}

#[test]
fn refuses_queries(rt: HostRuntime) -> Result<(), Fail> {
    let cases = [
        (
            r#"{"scan":"t","where":[{"col":"k","op":"~","value":1}],"output":{"rows":["k"]}}"#,
            "bad text $.queries[0].where[0].op",
        ),
        (
            r#"{"scan":"t","after":16385,"output":{"rows":["k"]}}"#,
            "wrong number $.queries[0].after",
        ),
        (
            r#"{"scan":"t","output":{"totals":[{"fn":"sum","col":"z"}]}}"#,
            "query 0: unknown column z",
        ),
        (
            r#"{"scan":"y","output":{"rows":["k"]}}"#,
            "query 0: unknown table y",
        ),
        (
            r#"{"scan":"t","output":{"rows":["k"]}},
                {"scan":"t","after":2,"output":{"rows":["k"]}}"#,
            "query 1: after too large",
        ),
        (
            r#"{"scan":"t","output":{"groups":{"by":["k","z"],"aggs":[{"fn":"count"}]}}}"#,
            "query 0: unknown column z",
        ),
        (
            r#"{"scan":"t","joins":[{"table":"t","left":"k","right":"z"}],
                "output":{"rows":["k"]}}"#,
            "query 0: unknown column z",
        ),
        (
            r#"{"scan":"t","output":{"groups":{"by":["k"],"aggs":[{"fn":"count"}]}}},
                {"scan":"y","output":{"rows":["k"]}}"#,
            "query 1: unknown table y",
        ),
    ];
    for (queries, cause) in cases {
        let script = script_of(rt.alloc(), ENTRIES, queries)?;
        let text = format!(in rt.alloc(); "error: script: {cause}\n")?;
        check_ends(&rt, script.as_bytes(), TABLE.as_bytes(), 5, text.as_str())?;
    }
    Ok(())
}

#[test]
fn refuses_tables(rt: HostRuntime) -> Result<(), Fail> {
    let cases = [
        ("", "no header"),
        ("a,\u{1}\n", "bad name field 2"),
        ("a,b,a\n", "named twice field 3"),
        ("a,b,c\n1,2\n", "ragged record 1"),
        ("v\n1\nx\n", "not a number record 2 field 1"),
        ("v\n9223372036854775808\n", "out of range record 1 field 1"),
        (
            "a,a1,a2,a3,a4,a5,a6,a7,a8,a9,b,b1,b2,b3,b4,b5,b6,b7,b8,b9,\
            c,c1,c2,c3,c4,c5,c6,c7,c8,c9,d,d1,d2\n",
            "too many columns",
        ),
    ];
    for (table, cause) in cases {
        let text = format!(in rt.alloc(); "error: table t.csv: {cause}\n")?;
        check_ends(&rt, SCRIPT.as_bytes(), table.as_bytes(), 6, text.as_str())?;
    }
    Ok(())
}

// The first refusal counts: a script's before a table's, a table's before a query's.
#[test]
fn refuses_in_order(rt: HostRuntime) -> Result<(), Fail> {
    let t = r#"{"name":"t","file":"t.csv"}"#;
    let absent = r#"{"name":"a","file":"a.csv"}"#;
    let twice = r#"{"name":"t","file":"a.csv"}"#;
    let cases = [
        (t, absent, "v\n", 3, "error: cannot read a.csv\n"),
        (t, absent, "", 6, "error: table t.csv: no header\n"),
        (absent, t, "", 3, "error: cannot read a.csv\n"),
        (
            t,
            twice,
            "",
            5,
            "error: script: named twice $.tables[1].name\n",
        ),
        (
            t,
            r#"{"name":"a","file":"t.csv"}"#,
            "v\n",
            5,
            "error: script: query 0: unknown table y\n",
        ),
    ];
    for (first, second, table, status, text) in cases {
        let entries = format!(in rt.alloc(); "{first},{second}")?;
        let query = r#"{"scan":"y","output":{"rows":["k"]}}"#;
        let script = script_of(rt.alloc(), entries.as_str(), query)?;
        check_ends(&rt, script.as_bytes(), table.as_bytes(), status, text)?;
    }
    Ok(())
}

#[test]
fn reports_reads_that_fail(rt: HostRuntime) -> Result<(), Fail> {
    let cases = [
        (1, 3, "error: cannot read s.json\n"),
        (2, 3, "error: cannot read s.json\n"),
        (3, 3, "error: cannot read t.csv\n"),
        (4, 3, "error: cannot read t.csv\n"),
        (5, 0, ANSWER),
    ];
    for (call, status, text) in cases {
        let mut files = files_of(rt.alloc(), SCRIPT.as_bytes(), TABLE.as_bytes(), &[call])?;
        let words = ["check", "s.json"];
        ends(&rt, &words, &mut files, ALL_WRITES, status, text)?;
    }
    Ok(())
}

#[test]
fn reports_writes_that_fail(rt: HostRuntime) -> Result<(), Fail> {
    let check: &[&str] = &["check", "s.json"];
    let cases: [(&[&str], u64, u8, &str); 12] = [
        (check, 1, 4, ""),
        (check, 2, 4, "quer"),
        (check, 3, 4, "query 0 "),
        (check, 4, 4, "query 0 line"),
        (check, 5, 4, "query 0 lines 1\n"),
        (check, 6, 4, "query 0 lines 1\ntota"),
        (check, 7, 4, "query 0 lines 1\ntotal 35"),
        (check, 8, 4, "query 0 lines 1\ntotal 35\nend"),
        (check, 9, 0, ANSWER),
        (&[], 2, 4, "erro"),
        (&["make", "7", "t"], 1, 4, ""),
        (&["make", "7", "t"], 3, 4, "k,g,v\n16"),
    ];
    for (words, call, status, text) in cases {
        let mut files = files_of(rt.alloc(), SCRIPT.as_bytes(), TABLE.as_bytes(), &[])?;
        ends(&rt, words, &mut files, (call, 4), status, text)?;
    }
    Ok(())
}

// A text with spaces or empty lines behind it, so long in all.
fn padded(alloc: Global, text: &str, with: u8, len: usize) -> Result<Vec<u8>, AllocError>
    requires { length text.now ≤ len }
{
    let mut bytes = vec![in alloc; with; len]?;
    bytes.as_mut_slice()[..text.len()].copy_from_slice(text.as_bytes());
    Ok(bytes)
}

#[test]
fn reads_a_script_at_the_limit(rt: HostRuntime) -> Result<(), Fail> {
    let script = padded(rt.alloc(), SCRIPT, b' ', 67_108_864)?;
    check_ends(&rt, script.as_slice(), TABLE.as_bytes(), 0, ANSWER)
}

#[test]
fn reads_a_table_at_the_limit(rt: HostRuntime) -> Result<(), Fail> {
    let table = padded(rt.alloc(), TABLE, b'\n', 67_108_864)?;
    check_ends(&rt, SCRIPT.as_bytes(), table.as_slice(), 0, ANSWER)
}

#[test]
fn refuses_a_script_past_the_limit(rt: HostRuntime) -> Result<(), Fail> {
    let script = padded(rt.alloc(), SCRIPT, b' ', 67_108_865)?;
    let text = "error: script: too long\n";
    check_ends(&rt, script.as_slice(), TABLE.as_bytes(), 5, text)
}

#[test]
fn refuses_a_table_past_the_limit(rt: HostRuntime) -> Result<(), Fail> {
    let table = padded(rt.alloc(), TABLE, b'\n', 67_108_865)?;
    let text = "error: table t.csv: too long\n";
    check_ends(&rt, SCRIPT.as_bytes(), table.as_slice(), 6, text)
}

/// The first text, and so many times the second.
pub(super) fn repeated(
    alloc: Global,
    first: &str,
    then: &str,
    count: usize,
) -> Result<String, AllocError> {
    let mut text = String::from_str(alloc, first)?;
    for _ in 0..count {
        text.push_str(then)?;
    }
    Ok(text)
}

#[test]
fn refuses_a_row_too_many(rt: HostRuntime) -> Result<(), Fail> {
    let table = repeated(rt.alloc(), "v\n", "1\n", 1_048_577)?;
    let text = "error: table t.csv: too many rows\n";
    check_ends(&rt, SCRIPT.as_bytes(), table.as_bytes(), 6, text)
}

// A script that sums one column of one table.
fn sum_script(alloc: Global, table: &str, file: &str, column: &str) -> Result<String, AllocError> {
    let entry = format!(in alloc; "{{\"name\":\"{table}\",\"file\":\"{file}\"}}")?;
    let output = format!(in alloc; "{{\"totals\":[{{\"fn\":\"sum\",\"col\":\"{column}\"}}]}}")?;
    let query = format!(in alloc; "{{\"scan\":\"{table}\",\"output\":{output}}}")?;
    script_of(alloc, entry.as_str(), query.as_str())
}

#[test]
fn limits_the_bytes_of_names(rt: HostRuntime) -> Result<(), Fail> {
    let alloc = rt.alloc();
    // the bytes of the names of a file, a table and a column, and how it ends
    let cases = [
        (255, 64, 64, 0, "query 0 lines 1\ntotal 1\nend\n"),
        (256, 64, 64, 5, "error: script: bad text $.tables[0].file\n"),
        (255, 65, 64, 5, "error: script: bad text $.tables[0].name\n"),
        (1, 64, 65, 6, "error: table f: bad name field 2\n"),
    ];
    for (file, table, column, status, text) in cases {
        let file = repeated(alloc, "", "f", file)?;
        let name = repeated(alloc, "", "t", table)?;
        let column = repeated(alloc, "", "c", column)?;
        let script = sum_script(alloc, name.as_str(), file.as_str(), "v")?;
        let rows = format!(in alloc; "v,{column}\n1,2\n")?;
        let mut files = files_of(alloc, script.as_bytes(), b"", &[])?;
        add(alloc, &mut files, file.as_str(), rows.as_bytes())?;
        let words = ["check", "s.json"];
        ends(&rt, &words, &mut files, ALL_WRITES, status, text)?;
    }
    Ok(())
}

// Names with characters of two and three bytes, and with U+0080, which is no control character of
// ASCII.
#[test]
fn takes_names_of_many_bytes(rt: HostRuntime) -> Result<(), Fail> {
    let alloc = rt.alloc();
    let table = "größe,€\n1,10\n2,25\n";
    let cases = [
        (
            "größe.csv",
            "tä",
            "€",
            0,
            "query 0 lines 1\ntotal 35\nend\n",
        ),
        (
            "größe.csv",
            "t\u{80}",
            "größe",
            0,
            "query 0 lines 1\ntotal 3\nend\n",
        ),
        (
            "größe.csv",
            "tä",
            "ß",
            5,
            "error: script: query 0: unknown column ß\n",
        ),
        (
            "größen.csv",
            "tä",
            "€",
            3,
            "error: cannot read größen.csv\n",
        ),
    ];
    for (file, name, column, status, text) in cases {
        let script = sum_script(alloc, name, file, column)?;
        let mut files = files_of(alloc, b"", b"", &[])?;
        add(alloc, &mut files, "größe.csv", table.as_bytes())?;
        add(alloc, &mut files, "größe.json", script.as_bytes())?;
        let words = ["check", "größe.json"];
        ends(&rt, &words, &mut files, ALL_WRITES, status, text)?;
    }
    Ok(())
}

#[test]
fn ends_by_its_words(rt: HostRuntime) -> Result<(), Fail> {
    let alloc = rt.alloc();
    let check = texts(alloc, &["check", "s"])?;
    let run = texts(alloc, &["run", "s", "--workers=1"])?;
    let usage = "error: usage\n";
    let memory = "error: out of memory\n";
    let cases = [
        (Ok(check), 3, "error: cannot read s\n"),
        (Ok(run), 3, "error: cannot read s\n"),
        (Ok(Vec::new(alloc)), 2, usage),
        (Err(io::ErrorKind::InvalidData), 2, usage),
        (Err(io::ErrorKind::OutOfMemory), 7, memory),
        (Err(io::ErrorKind::Other), 7, memory),
    ];
    for (words, status, text) in cases {
        let words = GivenWords::of(words.map_err(io::Error::from));
        let mut files = MemFiles::new(alloc, Vec::new(alloc));
        let mut out = MemSink::new(alloc, 100, 100, Vec::new(alloc))?;
        let mut meter = CostMeter::new();
        let mut clocks = all_meters(alloc)?;
        let ended = run_program(
            &rt,
            alloc,
            words,
            &mut files,
            &mut out,
            &mut meter,
            &mut clocks,
        );
        let Ended { status: answered } = ended;
        assert_eq!(rt; out.written(), text.as_bytes(), "{text}");
        assert_eq!(rt; answered, status, "{text}");
    }
    Ok(())
}
