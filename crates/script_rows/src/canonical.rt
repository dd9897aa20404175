//! Scripts in their canonical form.

use script_json::{read_script, write_script};
use std::alloc::Global;
use std::process::Abort;
use std::test::Fail;

/// The canonical form of a script.
fn canonical(alloc: Global, text: &str) -> Result<Vec<u8>, Fail> {
    match read_script(alloc, text.as_bytes()) {
        Ok(script) => Ok(write_script(alloc, &script)?),
        Err(refusal) => Ok(format!(in alloc; "{refusal}")?.into_bytes()),
    }
}

/// Asserts the canonical form of a script.
fn expect_canonical(rt: &impl Abort, alloc: Global, text: &str, wanted: &str) -> Result<(), Fail> {
    let canonical = canonical(alloc, text)?;
    assert_eq!(rt; canonical.as_slice(), wanted.as_bytes());
    Ok(())
}

#[test]
fn writes_the_canonical_form(rt: HostRuntime) -> Result<(), Fail> {
    let groups = concat!(
        r#"{"queries":[{"after":0,"cost":100,"joins":[],"output":{"groups":"#,
        r#"{"aggs":[{"col":"v","fn":"sum"}],"by":["k"]}},"scan":"t","weight":10,"where":[]}],"#,
        r#""tables":[{"file":"t.csv","name":"t"}],"version":1}"#
    );
    let shortest = r#"{"version":1,"tables":[{"name":"t","file":"t.csv"}],"queries":[
        {"scan":"t","output":{"groups":{"by":["k"],"aggs":[{"fn":"sum","col":"v"}]}}}]}"#;
    let joined = r#"{"version":1,
        "tables":[{"name":"t","file":"t.csv"},{"file":"\u00e9","name":"\"u"}],"queries":[
        {"scan":"t","where":[{"value":-9223372036854775808,"op":"<>","col":"k"}],"weight":3,
         "joins":[{"right":"k","left":"k","table":"\"u",
                   "where":[{"op":">=","value":3,"col":"w"}]},
                  {"table":"t","left":[1,"w"],"right":"v"}],
         "output":{"rows":["k",[2,"v"]]}},
        {"after":3,"cost":7,"scan":"t","output":
         {"totals":[{"fn":"count"},{"fn":"min","col":"v"},{"col":"v","fn":"max"}]}}]}"#;
    let written = concat!(
        r#"{"queries":[{"after":0,"cost":100,"joins":[{"left":"k","right":"k","table":"\"u","#,
        r#""where":[{"col":"w","op":">=","value":3}]},"#,
        r#"{"left":[1,"w"],"right":"v","table":"t","where":[]}],"#,
        r#""output":{"rows":["k",[2,"v"]]},"scan":"t","weight":3,"#,
        r#""where":[{"col":"k","op":"<>","value":-9223372036854775808}]},"#,
        r#"{"after":3,"cost":7,"joins":[],"#,
        r#""output":{"totals":[{"fn":"count"},{"col":"v","fn":"min"},{"col":"v","fn":"max"}]},"#,
        r#""scan":"t","weight":10,"where":[]}],"#,
        r#""tables":[{"file":"t.csv","name":"t"},{"file":"é","name":"\"u"}],"version":1}"#
    );
    for (text, wanted) in [
        (groups, groups),
        (shortest, groups),
        (joined, written),
        (written, written),
    ] {
        expect_canonical(&rt, rt.alloc(), text, wanted)?;
    }
    Ok(())
}
