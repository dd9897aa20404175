//! Inputs that are made from a number.

use col_table::Table;
use load_gen::{Part, Summary, generate, make_part};
use plan_ast::NamedTable;
use std::alloc::Global;
use std::process::Abort;
use std::test::Fail;

/// Whether a row of a table has these values.
fn has_row(table: &Table, row: u32, values: &[i64]) -> bool {
    row < table.rows()
        && values.len() == table.cols() as usize
        && values
            .iter()
            .enumerate()
            .all(|(col, value)| table.value(row, col as u32) == *value)
}

/// Asserts how many rows a table has, and its first row and its last.
fn expect_rows(rt: &impl Abort, table: &Table, count: u32, first: &[i64], last: &[i64]) {
    assert_eq!(rt; table.rows(), count);
    assert!(rt; has_row(table, 0, first), "first of {count}");
    assert!(rt;
        has_row(table, count.saturating_sub(1), last),
        "last of {count}"
    );
}

/// Asserts the name and the file of a table.
fn expect_name(rt: &impl Abort, table: &NamedTable, name: &str, file: &str) {
    assert_eq!(rt; (table.name.as_str(), table.file.as_str()), (name, file));
}

/// Asserts the tables of an input, each with its first row and its last.
fn expect_tables(
    rt: &impl Abort,
    tables: &[NamedTable],
    ends_of_t: [&[i64]; 2],
    ends_of_u: [&[i64]; 2],
) {
    assert_eq!(rt; tables.len(), 2);
    let (t, u) = (&tables[0], &tables[1]);
    expect_name(rt, t, "t", "t.csv");
    expect_name(rt, u, "u", "u.csv");
    expect_rows(rt, &t.table, 200_000, ends_of_t[0], ends_of_t[1]);
    expect_rows(rt, &u.table, 1_000, ends_of_u[0], ends_of_u[1]);
}

// The first row and the last of both tables, of six numbers. 0 and 2,147,483,646 begin with one
// state.
#[test]
fn draws_tables(rt: HostRuntime) -> Result<(), Fail> {
    for (number, first, last, first_of_u, last_of_u) in [
        (0, [271, 2, 512], [71, 11, 342], [0, 67], [999, 46]),
        (1, [542, 4, -419], [495, 7, -759], [0, 87], [999, 45]),
        (7, [168, 0, -677], [333, 12, -36], [0, 7], [999, 80]),
        (
            2_147_483_645,
            [376, 13, -69],
            [576, 4, 101],
            [0, 80],
            [999, 1],
        ),
        (
            2_147_483_646,
            [271, 2, 512],
            [71, 11, 342],
            [0, 67],
            [999, 46],
        ),
        (
            4_294_967_295,
            [84, 8, 162],
            [990, 14, -518],
            [0, 27],
            [999, 90],
        ),
    ] {
        let made = generate(rt.alloc(), number)?;
        let tables = made.tables.as_slice();
        expect_tables(&rt, tables, [&first, &last], [&first_of_u, &last_of_u]);
    }
    Ok(())
}

/// Asserts the length of a text, and what it begins and ends with.
fn expect_text(rt: &impl Abort, text: &[u8], length: usize, begin: &[u8], end: &[u8]) {
    assert_eq!(rt; text.len(), length);
    assert!(rt; text.starts_with(begin), "at {length}");
    assert!(rt; text.ends_with(end), "at {length}");
}

// What the parts of 7 begin and end with, and their lengths.
#[test]
fn writes_parts(rt: HostRuntime) -> Result<(), Fail> {
    for (part, length, begin, end) in [
        (
            Part::TableT,
            2_131_152,
            b"k,g,v\n168,0,-677\n567,15,-586\n".as_slice(),
            b"\n333,12,-36\n".as_slice(),
        ),
        (Part::TableU, 6_786, b"k,w\n0,7\n1,2\n", b"\n999,80\n"),
        (
            Part::Script,
            6_543,
            br#"{"queries":[{"after":0,"cost":180,"joins":[],"output":{"totals":[{"fn":"count"},"#,
            br#""tables":[{"file":"t.csv","name":"t"},{"file":"u.csv","name":"u"}],"version":1}"#,
        ),
    ] {
        let text = make_part(rt.alloc(), 7, part)?;
        expect_text(&rt, text.as_slice(), length, begin, end);
    }
    Ok(())
}

/// The FNV-1a hash of a text.
fn hash(text: &[u8]) -> u32 {
    let mut hash: u32 = 2_166_136_261;
    for byte in text {
        hash = (hash ^ u32::from(*byte)).wrapping_mul(16_777_619);
    }
    hash
}

/// The hash of a part of a number.
fn hash_of_part(alloc: Global, number: u32, part: Part) -> Result<u32, Fail> {
    let text = make_part(alloc, number, part)?;
    Ok(hash(text.as_slice()))
}

// The whole text of the script and of the table `u`, of five numbers.
#[test]
fn writes_whole_parts(rt: HostRuntime) -> Result<(), Fail> {
    for (number, script, u) in [
        (0, 3_097_553_677, 3_849_229_211),
        (1, 1_501_077_906, 554_668_490),
        (7, 788_974_256, 3_491_447_831),
        (2_147_483_645, 4_236_453_115, 1_761_014_027),
        (4_294_967_295, 3_565_695_069, 4_161_405_485),
    ] {
        for (part, want) in [(Part::Script, script), (Part::TableU, u)] {
            let hash = hash_of_part(rt.alloc(), number, part)?;
            assert_eq!(rt; hash, want, "{part:?} of {number}");
        }
    }
    Ok(())
}

#[test]
fn writes_a_summary(rt: HostRuntime) -> Result<(), Fail> {
    let summary = Summary {
        number: 7,
        rows: 201_000,
        queries: 40,
        sets: 60,
        answered: 39,
        lines: 0,
        ranges: 18_446_744_073_709_551_615,
    };
    let text = summary.to_string(rt.alloc())?;
    let want = "number 7\nrows 201000\nqueries 40\nsets 60\nanswered 39\nlines 0\n\
        ranges 18446744073709551615\nend\n";
    assert_eq!(rt; text.as_str(), want);
    Ok(())
}
