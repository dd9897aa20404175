//! Names of columns, and what texts have in common.

use col_table::{BadName, ColumnName, ListOf, Text, is_plain, without_mark};
use std::alloc::Global;
use std::process::Abort;
use std::test::Fail;

/// The name that a text is.
pub fn name(alloc: Global, text: &str) -> Result<ColumnName, Fail> {
    Ok(ColumnName::new(String::from_str(alloc, text)?)?)
}

/// The names that texts are.
pub fn names(alloc: Global, texts: &[&str]) -> Result<Vec<ColumnName>, Fail> {
    let mut names = Vec::new(alloc);
    for text in texts {
        names.push(name(alloc, text)?)?;
    }
    Ok(names)
}

/// Asserts that texts are names, also once they are copied.
fn expect_names(rt: &impl Abort, alloc: Global, texts: &[&str]) -> Result<(), Fail> {
    for text in texts {
        let name = name(alloc, text)?;
        assert!(rt; name.as_str() == *text, "at {text:?}");
        assert!(rt; name.clone()?.as_str() == *text, "at {text:?}");
    }
    Ok(())
}

/// Whether a text that is no name comes back as it was.
fn comes_back(alloc: Global, text: &str) -> Result<bool, Fail> {
    match ColumnName::new(String::from_str(alloc, text)?) {
        Ok(_) => Ok(false),
        Err(BadName(back)) => Ok(back.as_str() == text),
    }
}

/// Asserts that texts are no names.
fn expect_no_names(rt: &impl Abort, alloc: Global, texts: &[&str]) -> Result<(), Fail> {
    for text in texts {
        assert!(rt; comes_back(alloc, text)?, "at {text:?}");
    }
    Ok(())
}

/// Asserts how many bytes texts have.
fn expect_bytes(rt: &impl Abort, texts: &[&str], len: usize) {
    for text in texts {
        assert_eq!(rt; text.len(), len);
    }
}

#[test]
fn tells_names(rt: HostRuntime) -> Result<(), Fail> {
    // 64 bytes in characters of one byte, of two bytes and of four, and 65 in each
    let longest = [
        "0123456789abcdef0123456789abcdef0123456789abcdef0123456789abcdef",
        "ééééééééééééééééééééééééééééé\u{80}éé",
        "🜁🜁🜁🜁🜁🜁🜁🜁🜁🜁🜁🜁🜁🜁🜁🜁",
    ];
    let too_long = [
        "0123456789abcdef0123456789abcdef0123456789abcdef0123456789abcdef!",
        "ééééééééééééééééééééééééééééé\u{80}éé!",
        "🜁🜁🜁🜁🜁🜁🜁🜁🜁🜁🜁🜁🜁🜁🜁🜁!",
    ];
    expect_bytes(&rt, &longest, 64);
    expect_bytes(&rt, &too_long, 65);
    expect_names(&rt, rt.alloc(), &["", " ", "k", "\u{80}", "\u{feff}k"])?;
    expect_names(&rt, rt.alloc(), &longest)?;
    expect_no_names(&rt, rt.alloc(), &too_long)?;
    expect_no_names(&rt, rt.alloc(), &["\u{1f}", "a\tb", "~\u{7f}"])
}

#[test]
fn tells_control_characters(rt: HostRuntime) {
    for (text, plain) in [
        ("", true),
        ("a b", true),
        ("\u{80}", true),
        ("a\tb", false),
        ("\u{7f}", false),
    ] {
        assert_eq!(rt; is_plain(text), plain);
    }
}

#[test]
fn drops_a_byte_order_mark(rt: HostRuntime) {
    for (bytes, rest) in [
        (b"\xEF\xBB\xBFk".as_slice(), b"k".as_slice()),
        (b"\xEF\xBB\xBF\xEF\xBB\xBF", b"\xEF\xBB\xBF"),
        (b"\xEF\xBB", b"\xEF\xBB"),
        (b"", b""),
    ] {
        assert_eq!(rt; without_mark(bytes), rest);
    }
}

#[test]
fn wraps_lists(rt: HostRuntime) -> Result<(), Fail> {
    let list = ListOf::of([3, 1, 2].to_vec(rt.alloc())?);
    assert_eq!(rt; list.as_slice(), [3, 1, 2].as_slice());
    assert_eq!(rt; list.into_vec().as_slice(), [3, 1, 2].as_slice());
    Ok(())
}

#[test]
fn wraps_texts(rt: HostRuntime) -> Result<(), Fail> {
    let text = Text::of(String::from_str(rt.alloc(), "t.csv")?);
    assert_eq!(rt; text.as_str(), "t.csv");
    assert_eq!(rt; text.into_string().as_str(), "t.csv");
    Ok(())
}
