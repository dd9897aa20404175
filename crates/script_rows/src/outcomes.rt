//! What comes of reading a script.

use script_json::read_script;
use std::alloc::Global;
use std::process::Abort;
use std::test::Fail;

/// What comes of reading bytes: the text of the refusal, or `script`.
pub fn outcome(alloc: Global, bytes: &[u8]) -> Result<String, Fail> {
    match read_script(alloc, bytes) {
        Ok(_script) => Ok(String::from_str(alloc, "script")?),
        Err(refusal) => Ok(format!(in alloc; "{refusal}")?),
    }
}

/// Whether a text, between `before` and `after`, has this outcome.
fn has_outcome(
    alloc: Global,
    before: &str,
    text: &str,
    after: &str,
    wanted: &str,
) -> Result<bool, Fail> {
    let whole = format!(in alloc; "{before}{text}{after}")?;
    let outcome = outcome(alloc, whole.as_bytes())?;
    Ok(outcome.as_str() == wanted)
}

/// The first line `TEXT => OUTCOME` whose text, between `before` and `after`, has another outcome.
fn first_other<'a>(
    alloc: Global,
    before: &str,
    after: &str,
    rows: &'a str,
) -> Result<&'a str, Fail> {
    for row in rows.lines() {
        if let Some((text, wanted)) = row.split_once(" => ") {
            if !has_outcome(alloc, before, text, after, wanted)? {
                return Ok(row);
            }
        }
    }
    Ok("none")
}

/// Asserts that the text of each line `TEXT => OUTCOME`, between `before` and `after`, has this
/// outcome.
pub fn expect_outcomes(
    rt: &impl Abort,
    alloc: Global,
    before: &str,
    after: &str,
    rows: &str,
) -> Result<(), Fail> {
    let other = first_other(alloc, before, after, rows)?;
    assert_eq!(rt; other, "none");
    Ok(())
}
