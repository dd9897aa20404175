//! Scripts that are refused, each with the place of what is wrong.

use crate::outcomes::{expect_outcomes, outcome};
use std::test::Fail;

// What stands before a part of a script.
const TABLES: &str = r#"{"version":1,"queries":[],"tables":"#;

const QUERIES: &str = r#"{"version":1,"tables":[],"queries":["#;

const SECOND_QUERY: &str =
    r#"{"version":1,"tables":[],"queries":[{"scan":"t","output":{"rows":["k"]}},"#;

const WHERE: &str =
    r#"{"version":1,"tables":[],"queries":[{"scan":"t","output":{"rows":["k"]},"where":["#;

const JOINS: &str =
    r#"{"version":1,"tables":[],"queries":[{"scan":"t","output":{"rows":["k"]},"joins":["#;

const OUTPUT: &str = r#"{"version":1,"tables":[],"queries":[{"scan":"t","output":"#;

const TOTALS: &str = r#"{"version":1,"tables":[],"queries":[{"scan":"t","output":{"totals":["#;

const ROWS: &str = r#"{"version":1,"tables":[],"queries":[{"scan":"t","output":{"rows":["#;

#[test]
fn tells_what_is_wrong_at_the_root(rt: HostRuntime) -> Result<(), Fail> {
    let rows = r#"
 => not json
{"version":1 => not json
[] => wrong shape $
1 => wrong shape $
{"x":1} => wrong shape $.version
{"version":"1"} => wrong shape $.version
{"version":null} => wrong shape $.version
{"version":9,"x":1} => version unknown
{"version":1.0} => version unknown
{"version":1e0} => version unknown
{"version":-0} => version unknown
{"version":18446744073709551616} => version unknown
{"version":1,"x":1} => unknown key in $
{"version":1} => wrong shape $.tables
{"version":1,"tables":null,"queries":[]} => wrong shape $.tables
{"version":1,"tables":[]} => wrong shape $.queries
{"version":1,"tables":[],"queries":{}} => wrong shape $.queries
{"version":1e400,"version":1,"tables":[],"queries":[]} => not json
{"version":1,"tables":[],"queries":["\ud800"]} => not json
{"version":"x","version":1,"tables":[5],"tables":[],"queries":[]} => script
 {"queries" : [], "tables":[], "version":1}  => script
"#;
    expect_outcomes(&rt, rt.alloc(), "", "", rows)?;
    let script = r#"{"version":1,"tables":[],"queries":[]} => script"#;
    expect_outcomes(&rt, rt.alloc(), "\u{feff}", "\n", script)?;
    let twice = r#"{"version":1,"tables":[],"queries":[]} => not json"#;
    expect_outcomes(&rt, rt.alloc(), "\u{feff}\u{feff}", "", twice)?;
    let outcome = outcome(rt.alloc(), b"\xFF")?;
    assert_eq!(rt; outcome.as_str(), "not json");
    Ok(())
}

#[test]
fn tells_what_is_wrong_with_tables(rt: HostRuntime) -> Result<(), Fail> {
    let rows = r#"
[1] => wrong shape $.tables[0]
[{}] => wrong shape $.tables[0].name
[{"nam":"t"}] => unknown key in $.tables[0]
[{"name":"t"}] => wrong shape $.tables[0].file
[{"name":"t","file":1}] => wrong shape $.tables[0].file
[{"name":"t","file":""}] => bad text $.tables[0].file
[{"name":"t","file":"a\u007fb"}] => bad text $.tables[0].file
[{"name":"\u001f","file":"f"}] => bad text $.tables[0].name
[{"name":"","file":"\u0080 f"}] => script
[{"name":"t","file":"f"},{"name":"t"}] => named twice $.tables[1].name
[{"name":"t","file":"f"},{"name":"u","file":"f"}] => script
[1,2,3,4,5,6,7,8,9] => too many $.tables
[1,2,3,4,5,6,7,8] => wrong shape $.tables[0]
"#;
    expect_outcomes(&rt, rt.alloc(), TABLES, "}", rows)?;
    Ok(())
}

#[test]
fn tells_what_is_wrong_with_queries(rt: HostRuntime) -> Result<(), Fail> {
    let rows = r#"
[] => wrong shape $.queries[0]
{} => wrong shape $.queries[0].scan
{"x":1} => unknown key in $.queries[0]
{"after":null} => wrong shape $.queries[0].after
{"after":16385} => wrong number $.queries[0].after
{"after":-1} => wrong number $.queries[0].after
{"after":0.0} => wrong number $.queries[0].after
{"after":18446744073709551615} => wrong number $.queries[0].after
{"after":16384,"weight":0} => wrong number $.queries[0].weight
{"weight":11} => wrong number $.queries[0].weight
{"weight":10,"cost":0} => wrong number $.queries[0].cost
{"weight":1,"cost":1000001} => wrong number $.queries[0].cost
{"cost":1000000,"scan":"t"} => wrong shape $.queries[0].output
{"scan":"t","where":null} => wrong shape $.queries[0].where
{"scan":"t","where":[1]} => wrong shape $.queries[0].where[0]
{"scan":"t","joins":[1,2,3]} => too many $.queries[0].joins
{"scan":"t","output":{"rows":["k"]},"after":1} => query 0: after too large
"#;
    let second = r#"
{"after":1,"scan":"t","output":{"rows":["k"]}} => script
{"after":2,"scan":"t","output":{"rows":["k"]}} => query 1: after too large
{"after":2,"scan":"t","output":{"rows":["k"]}},1 => wrong shape $.queries[2]
"#;
    expect_outcomes(&rt, rt.alloc(), QUERIES, "]}", rows)?;
    expect_outcomes(&rt, rt.alloc(), SECOND_QUERY, "]}", second)?;
    Ok(())
}

#[test]
fn tells_what_is_wrong_with_filters_and_joins(rt: HostRuntime) -> Result<(), Fail> {
    let filters = r#"
{"col":"k","op":"~","value":1} => bad text $.queries[0].where[0].op
{"col":"k","op":"="} => wrong shape $.queries[0].where[0].value
{"col":"k","op":"=","value":1.5} => wrong number $.queries[0].where[0].value
{"col":"k","op":"=","value":9223372036854775808} => wrong number $.queries[0].where[0].value
{"col":"k","op":"=","value":-9223372036854775809} => wrong number $.queries[0].where[0].value
{"col":"k","op":"<>","value":-9223372036854775808} => script
1,2,3,4,5,6,7,8,9,10,11,12,13,14,15,16,17 => too many $.queries[0].where
"#;
    expect_outcomes(&rt, rt.alloc(), WHERE, "]}]}", filters)?;
    let joins = r#"
{"table":"u"} => wrong shape $.queries[0].joins[0].left
{"table":"u","left":"k"} => wrong shape $.queries[0].joins[0].right
{"table":"u","left":"k","right":[1,"k"]} => wrong shape $.queries[0].joins[0].right
{"table":"u","left":"k","right":"k","where":[{}]} => wrong shape $.queries[0].joins[0].where[0].col
{"table":"u","left":[2,"k"],"right":"k"} => script
"#;
    expect_outcomes(&rt, rt.alloc(), JOINS, "]}]}", joins)?;
    Ok(())
}

#[test]
fn tells_what_is_wrong_with_outputs(rt: HostRuntime) -> Result<(), Fail> {
    let outputs = r#"
[] => wrong shape $.queries[0].output
{} => wrong shape $.queries[0].output
{"x":1} => wrong shape $.queries[0].output
{"rows":["k"],"totals":1} => wrong shape $.queries[0].output
{"rows":["k"],"x":1} => unknown key in $.queries[0].output
{"rows":[]} => wrong shape $.queries[0].output.rows
{"rows":[1,2,3,4,5,6,7,8,9]} => too many $.queries[0].output.rows
{"totals":[]} => wrong shape $.queries[0].output.totals
{"groups":[]} => wrong shape $.queries[0].output.groups
{"groups":{"by":[]}} => wrong shape $.queries[0].output.groups.by
{"groups":{"by":["k"]}} => wrong shape $.queries[0].output.groups.aggs
{"groups":{"by":["k","k","k"]}} => too many $.queries[0].output.groups.by
{"groups":{"by":["k","k"],"aggs":[]}} => wrong shape $.queries[0].output.groups.aggs
{"groups":{"by":["k"],"aggs":[{"fn":"count"}],"x":1}} => unknown key in $.queries[0].output.groups
{"groups":{"by":["k"],"aggs":[{"fn":"count"}]}} => script
"#;
    expect_outcomes(&rt, rt.alloc(), OUTPUT, "}]}", outputs)?;
    let totals = r#"
{"fn":"count","col":"k"} => unknown key in $.queries[0].output.totals[0]
{"fn":"avg","col":"k"} => bad text $.queries[0].output.totals[0].fn
{"col":"k"} => wrong shape $.queries[0].output.totals[0].fn
{"fn":1,"col":"k"} => wrong shape $.queries[0].output.totals[0].fn
{"fn":"count"},{"fn":"max"} => wrong shape $.queries[0].output.totals[1].col
"#;
    expect_outcomes(&rt, rt.alloc(), TOTALS, "]}}]}", totals)?;
    let rows = r#"
[0,"k"] => wrong number $.queries[0].output.rows[0][0]
[3,"k"] => wrong number $.queries[0].output.rows[0][0]
["1","k"] => wrong shape $.queries[0].output.rows[0][0]
[1,2] => wrong shape $.queries[0].output.rows[0][1]
[1] => wrong shape $.queries[0].output.rows[0]
[1,"k",2] => wrong shape $.queries[0].output.rows[0]
"k",{} => wrong shape $.queries[0].output.rows[1]
[2,"a\nb"] => bad text $.queries[0].output.rows[0][1]
"#;
    expect_outcomes(&rt, rt.alloc(), ROWS, "]}}]}", rows)?;
    Ok(())
}
