//! Texts that stand for tables, texts that don't, and what is written.

use col_table::Table;
use csv_tables::{TableRefusal, load, push_line, write_table};
use std::alloc::{AllocError, Global};
use std::process::Abort;
use std::test::Fail;

/// The rows of a table, value by value and row by row.
fn values(alloc: Global, table: &Table) -> Result<Vec<i64>, AllocError> {
    let mut values = Vec::new(alloc);
    for row in 0..table.rows() {
        for col in 0..table.cols() {
            values.push(table.value(row, col))?;
        }
    }
    Ok(values)
}

/// Asserts the rows of a table that a text stands for.
fn expect_rows(
    rt: &impl Abort,
    alloc: Global,
    text: &[u8],
    table: &Table,
    rows: &[i64],
) -> Result<(), Fail> {
    assert_eq!(rt; values(alloc, table)?.as_slice(), rows, "at {text:?}");
    Ok(())
}

/// Asserts how many columns the table of a text has, and its rows.
fn expect_table(
    rt: &impl Abort,
    alloc: Global,
    text: &[u8],
    columns: u32,
    rows: &[i64],
) -> Result<(), Fail> {
    let table = load(alloc, text)?;
    assert_eq!(rt; table.cols(), columns, "at {text:?}");
    expect_rows(rt, alloc, text, &table, rows)
}

// Texts that stand for tables in each form of lines and fields, with the values of their rows.
#[test]
fn loads_each_form(rt: HostRuntime) -> Result<(), Fail> {
    for (text, columns, want) in [
        (
            b"k,v\n1,10\n1,20\n2,5\n".as_slice(),
            2,
            [1, 10, 1, 20, 2, 5].as_slice(),
        ),
        (b"v", 1, &[]),
        (b"v\n7", 1, &[7]),
        (b"\n\r\n\rv\n\r\n\r1\r\r\n2\n\r3", 1, &[1, 2, 3]),
        (b"a,b,c\n\"1\",\"2\",\"3\"\n", 3, &[1, 2, 3]),
        (b"v\n\"1\"2\n", 1, &[12]),
        (b"v\n\"1", 1, &[1]),
        (b"\"\"\n5\n", 1, &[5]),
        (b"\xef\xbb\xbfv\n1\n", 1, &[1]),
        (b"\xef\xbb\xbf\xef\xbb\xbfv\n1\n", 1, &[1]),
        (b"a,\n1,2", 2, &[1, 2]),
        (b"a,b\n\"1\",2\n3,\"4\"\n5,6\n", 2, &[1, 2, 3, 4, 5, 6]),
        (b"\xc2\x80,\xe2\x82\xac\n1,2\n", 2, &[1, 2]),
        (
            b"v\n-0\n000000000000000000000000001\n-0009\n",
            1,
            &[0, 1, -9],
        ),
        (
            b"v\n9223372036854775807\n-9223372036854775808\n",
            1,
            &[i64::MAX, i64::MIN],
        ),
    ] {
        expect_table(&rt, rt.alloc(), text, columns, want)?;
    }
    Ok(())
}

/// The refusal of a text, if it has one.
pub fn refused(alloc: Global, text: &[u8]) -> Option<TableRefusal> {
    match load(alloc, text) {
        Ok(_) => None,
        Err(refusal) => Some(refusal),
    }
}

// Texts that stand for no table, each with its first refusal.
#[test]
fn tells_the_first_refusal(rt: HostRuntime) {
    for (text, want) in [
        (b"".as_slice(), TableRefusal::NoHeader),
        (b"\xef\xbb\xbf", TableRefusal::NoHeader),
        (b"\n\r\n", TableRefusal::NoHeader),
        (b",", TableRefusal::TwiceNamed(2)),
        (b"a,b,a\n", TableRefusal::TwiceNamed(3)),
        (b"a,a,\x7f\n", TableRefusal::TwiceNamed(2)),
        (b"a,\x7f,a\n", TableRefusal::BadName(2)),
        (b"\xff\n1\n", TableRefusal::BadName(1)),
        (
            b"\x7f,,,,,,,,,,,,,,,,,,,,,,,,,,,,,,,,\n",
            TableRefusal::TooManyColumns,
        ),
        (
            b"\x7f,,,,,,,,,,,,,,,,,,,,,,,,,,,,,,,\n",
            TableRefusal::BadName(1),
        ),
        (b"a,b\nx\n1,2\n", TableRefusal::Ragged(1)),
        (
            b"a\n1\n,,,,,,,,,,,,,,,,,,,,,,,,,,,,,,,,,,,\"\n",
            TableRefusal::Ragged(2),
        ),
        (b"a,b,c\n1,2,3\n1,2\n", TableRefusal::Ragged(2)),
        (b"a\n1,x\n", TableRefusal::Ragged(1)),
        (
            b"v\n1\n9223372036854775808\n",
            TableRefusal::OutOfRange(2, 1),
        ),
        (b"v\n-9223372036854775809\n", TableRefusal::OutOfRange(1, 1)),
        (
            b"v\n99999999999999999999999999\n",
            TableRefusal::OutOfRange(1, 1),
        ),
        (
            b"a,b\n9223372036854775808,x\n",
            TableRefusal::OutOfRange(1, 1),
        ),
        (
            b"a,b\nx,9223372036854775808\n",
            TableRefusal::NotANumber(1, 1),
        ),
        (b"a,b\n1,\n", TableRefusal::NotANumber(1, 2)),
        (b"v\n\"\"\n", TableRefusal::NotANumber(1, 1)),
        (b"v\n-\n", TableRefusal::NotANumber(1, 1)),
        (b"v\n--1\n", TableRefusal::NotANumber(1, 1)),
        (b"v\n+1\n", TableRefusal::NotANumber(1, 1)),
        (b"v\n1 \n", TableRefusal::NotANumber(1, 1)),
        (b"v\n \n", TableRefusal::NotANumber(1, 1)),
        (b"v\n1\"\n", TableRefusal::NotANumber(1, 1)),
        (b"v\n\"1\n", TableRefusal::NotANumber(1, 1)),
        (b"v\n1.0\n", TableRefusal::NotANumber(1, 1)),
        (b"v\n1\n\xff\n", TableRefusal::NotANumber(2, 1)),
        (b"v\n\xef\xbb\xbf1\n", TableRefusal::NotANumber(1, 1)),
    ] {
        assert_eq!(rt; refused(rt.alloc(), text), Some(want), "at {text:?}");
    }
}

// The text of each refusal, as its error line has it.
#[test]
fn says_each_refusal(rt: HostRuntime) -> Result<(), Fail> {
    for (refusal, want) in [
        (TableRefusal::NoHeader, "no header"),
        (TableRefusal::TooManyColumns, "too many columns"),
        (TableRefusal::BadName(2), "bad name field 2"),
        (TableRefusal::TwiceNamed(3), "named twice field 3"),
        (TableRefusal::Ragged(1), "ragged record 1"),
        (
            TableRefusal::NotANumber(2, 3),
            "not a number record 2 field 3",
        ),
        (
            TableRefusal::OutOfRange(4, 1),
            "out of range record 4 field 1",
        ),
        (TableRefusal::TooManyRows, "too many rows"),
        (TableRefusal::OutOfMemory, "out of memory"),
    ] {
        assert_eq!(rt; format!(in rt.alloc(); "{refusal}")?.as_str(), want);
    }
    Ok(())
}

/// The text that the table of a text is written as.
fn rewritten(alloc: Global, text: &[u8]) -> Result<Vec<u8>, Fail> {
    let table = load(alloc, text)?;
    Ok(write_table(alloc, &table)?)
}

// Texts that stand for tables, and the text that their tables are written as.
#[test]
fn writes_what_it_loads(rt: HostRuntime) -> Result<(), Fail> {
    for (text, want) in [
        (
            b"k,v\r\n01,-0\r\n-9223372036854775808,9223372036854775807".as_slice(),
            b"k,v\n1,0\n-9223372036854775808,9223372036854775807\n".as_slice(),
        ),
        (b"\"\"", b"\"\"\n"),
        (b"\"\"\n5\n", b"\"\"\n5\n"),
        (b"a,\n1,2\n", b"a,\n1,2\n"),
        (b",a\n", b",a\n"),
        (
            b"\"a,b\",\"c\"\"d\",e\"f\n",
            b"\"a,b\",\"c\"\"d\",\"e\"\"f\"\n",
        ),
        (
            b"\xc2\x80\xe2\x82\xac\xf0\x9f\x98\x80\n",
            b"\xc2\x80\xe2\x82\xac\xf0\x9f\x98\x80\n",
        ),
        (b"\xef\xbb\xbf\xef\xbb\xbfk\n", b"\xef\xbb\xbfk\n"),
        (b"k,\xef\xbb\xbfk\n", b"k,\xef\xbb\xbfk\n"),
    ] {
        let written = rewritten(rt.alloc(), text)?;
        assert_eq!(rt; written.as_slice(), want, "at {text:?}");
    }
    Ok(())
}

// Lines that are added to a text, with the values at both ends of their range.
#[test]
fn adds_lines(rt: HostRuntime) -> Result<(), Fail> {
    let mut text = Vec::from_slice(rt.alloc(), b"k,v\n")?;
    push_line(&mut text, &[1, -10])?;
    push_line(&mut text, &[i64::MIN, i64::MAX])?;
    push_line(&mut text, &[0])?;
    let want = b"k,v\n1,-10\n-9223372036854775808,9223372036854775807\n0\n".as_slice();
    assert_eq!(rt; text.as_slice(), want);
    Ok(())
}

/// Asserts the rows of a text, or its refusal.
fn expect_outcome(
    rt: &impl Abort,
    alloc: Global,
    text: &[u8],
    want: Result<&[i64], TableRefusal>,
) -> Result<(), Fail> {
    match want {
        Ok(rows) => expect_rows(rt, alloc, text, &load(alloc, text)?, rows)?,
        Err(refusal) => assert_eq!(rt; refused(alloc, text), Some(refusal), "at {text:?}"),
    }
    Ok(())
}

// Every prefix of a text of 18 bytes: its rows, or its refusal.
#[test]
fn reads_each_prefix(rt: HostRuntime) -> Result<(), Fail> {
    let text = b"k,v\n1,10\n1,20\n2,5\n".as_slice();
    for (lengths, want) in [
        ([0, 0], Err(TableRefusal::NoHeader)),
        ([1, 2], Ok([].as_slice())),
        ([3, 4], Ok(&[])),
        ([5, 5], Err(TableRefusal::Ragged(1))),
        ([6, 6], Err(TableRefusal::NotANumber(1, 2))),
        ([7, 7], Ok(&[1, 1])),
        ([8, 9], Ok(&[1, 10])),
        ([10, 10], Err(TableRefusal::Ragged(2))),
        ([11, 11], Err(TableRefusal::NotANumber(2, 2))),
        ([12, 12], Ok(&[1, 10, 1, 2])),
        ([13, 14], Ok(&[1, 10, 1, 20])),
        ([15, 15], Err(TableRefusal::Ragged(3))),
        ([16, 16], Err(TableRefusal::NotANumber(3, 2))),
        ([17, 18], Ok(&[1, 10, 1, 20, 2, 5])),
    ] {
        for length in lengths {
            expect_outcome(&rt, rt.alloc(), &text[..length], want)?;
        }
    }
    Ok(())
}
