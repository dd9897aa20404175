//! The most rows, columns and bytes of a name that a text may have.

use crate::texts::refused;
use csv_tables::{TableRefusal, load};
use std::alloc::Global;
use std::process::Abort;
use std::test::Fail;

/// Asserts how many rows and columns the table of a text has.
fn expect_size(rt: &impl Abort, alloc: Global, text: &[u8], size: (u32, u32)) -> Result<(), Fail> {
    let table = load(alloc, text)?;
    assert_eq!(rt; (table.rows(), table.cols()), size);
    Ok(())
}

/// Asserts how many rows and columns the table of a text has, and the refusal of the text with
/// some bytes more.
fn expect_limit(
    rt: &impl Abort,
    alloc: Global,
    mut text: Vec<u8>,
    size: (u32, u32),
    more: (&[u8], TableRefusal),
) -> Result<(), Fail> {
    expect_size(rt, alloc, text.as_slice(), size)?;
    text.extend_from_slice(more.0)?;
    assert_eq!(rt; refused(alloc, text.as_slice()), Some(more.1));
    Ok(())
}

// A table holds 1,048,576 rows, and a record more is too many whatever it holds.
#[test]
fn holds_so_many_rows(rt: HostRuntime) -> Result<(), Fail> {
    let mut text = Vec::from_slice(rt.alloc(), b"v\n")?;
    for _ in 0..1_048_576 {
        text.extend_from_slice(b"1\n")?;
    }
    let more = (b"x,".as_slice(), TableRefusal::TooManyRows);
    expect_limit(&rt, rt.alloc(), text, (1_048_576, 1), more)
}

// A header holds 32 names, whatever the fields past them are.
#[test]
fn holds_so_many_columns(rt: HostRuntime) -> Result<(), Fail> {
    let mut text = Vec::from_slice(rt.alloc(), b"0")?;
    for number in 1..32 {
        let name = format!(in rt.alloc(); ",{number}")?;
        text.extend_from_slice(name.as_bytes())?;
    }
    let more = (b",0".as_slice(), TableRefusal::TooManyColumns);
    expect_limit(&rt, rt.alloc(), text, (0, 32), more)
}

// A name has 64 bytes at most.
#[test]
fn takes_names_of_64_bytes(rt: HostRuntime) -> Result<(), Fail> {
    let mut text = Vec::from_slice(rt.alloc(), b"k,")?;
    for _ in 0..32 {
        text.extend_from_slice(b"\xc2\x80")?;
    }
    let more = (b"v".as_slice(), TableRefusal::BadName(2));
    expect_limit(&rt, rt.alloc(), text, (0, 2), more)
}
