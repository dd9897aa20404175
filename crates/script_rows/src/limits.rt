//! The most items and bytes that a script may have.

use crate::outcomes::outcome;
use std::alloc::{AllocError, Global};
use std::process::Abort;
use std::test::Fail;

/// So many of a piece of text.
fn repeated(alloc: Global, piece: &str, count: u32) -> Result<String, AllocError> {
    let mut text = String::new(alloc);
    for _ in 0..count {
        text.push_str(piece)?;
    }
    Ok(text)
}

/// Asserts the outcome of a script in which a piece of text stands so many times.
fn expect_outcome(
    rt: &impl Abort,
    alloc: Global,
    parts: (&str, &str, u32, &str),
    wanted: &str,
) -> Result<(), Fail> {
    let (before, piece, count, after) = parts;
    let pieces = repeated(alloc, piece, count)?;
    let whole = format!(in alloc; "{before}{}{after}", pieces.as_str())?;
    let outcome = outcome(alloc, whole.as_bytes())?;
    assert_eq!(rt; outcome.as_str(), wanted);
    Ok(())
}

#[test]
fn knows_its_limits(rt: HostRuntime) -> Result<(), Fail> {
    let arrays = r#"{"version":1,"tables":"#;
    let name = r#"{"version":1,"queries":[],"tables":[{"file":"f","name":""#;
    let file = r#"{"version":1,"queries":[],"tables":[{"name":"t","file":""#;
    let queries = r#"{"version":1,"tables":[],"queries":["#;
    let query = r#"{"scan":"t","output":{"rows":["k"]}},"#;
    let last = r#"{"scan":"t","output":{"rows":["k"]}}]}"#;
    for (before, piece, count, after, wanted) in [
        (arrays, "[", 126, "", "not json"),
        (name, "\u{e9}", 32, "\"}]}", "script"),
        (name, "\u{e9}", 33, "\"}]}", "bad text $.tables[0].name"),
        (file, "f", 255, "\"}]}", "script"),
        (file, "f", 256, "\"}]}", "bad text $.tables[0].file"),
        (queries, query, 4095, last, "script"),
        (queries, query, 4096, last, "too many $.queries"),
    ] {
        expect_outcome(&rt, rt.alloc(), (before, piece, count, after), wanted)?;
    }
    Ok(())
}

#[test]
fn knows_the_deepest_array(rt: HostRuntime) -> Result<(), Fail> {
    for (depth, wanted) in [(127, "wrong shape $"), (128, "not json")] {
        let close = repeated(rt.alloc(), "]", depth)?;
        expect_outcome(&rt, rt.alloc(), ("", "[", depth, close.as_str()), wanted)?;
    }
    Ok(())
}
