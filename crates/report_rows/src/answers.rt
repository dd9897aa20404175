//! Replies as text.

use col_table::ListOf;
use plan_ast::{AggValue, Answer, Group};
use report_text::{QueryReply, Reply, answers_text};
use std::alloc::{AllocError, Global};
use std::process::Abort;
use std::test::Fail;

/// A reply with the answer to its query.
pub fn answered(query: u32, answer: Answer) -> QueryReply {
    QueryReply {
        query,
        reply: Reply::Answer(answer),
    }
}

/// A reply that says that there was too little memory.
pub fn short_of_memory(query: u32) -> QueryReply {
    QueryReply {
        query,
        reply: Reply::Memory,
    }
}

/// A row of two values, and one of the least value.
fn rows(alloc: Global) -> Result<Answer, AllocError> {
    let first = ListOf::of(vec![in alloc; 1, 10]?);
    let second = ListOf::of(vec![in alloc; -9_223_372_036_854_775_808]?);
    Ok(Answer::Rows(ListOf::of(vec![in alloc; first, second]?)))
}

/// A total of each kind.
fn totals(alloc: Global) -> Result<Answer, AllocError> {
    let values = vec![in alloc;
        AggValue::Count(0),
        AggValue::Sum(18_446_744_073_709_551_614),
        AggValue::Least(None),
        AggValue::Greatest(Some(-3)),
    ]?;
    Ok(Answer::Totals(ListOf::of(values)))
}

fn group(alloc: Global, key: [i64; 2], sum: i128) -> Result<Group, AllocError> {
    Ok(Group {
        key: ListOf::of(vec![in alloc; key[0], key[1]]?),
        values: ListOf::of(vec![in alloc; AggValue::Sum(sum)]?),
    })
}

fn groups(alloc: Global) -> Result<Answer, AllocError> {
    let groups = vec![in alloc; group(alloc, [1, -1], 30)?, group(alloc, [2, -2], 5)?]?;
    Ok(Answer::Groups(ListOf::of(groups)))
}

/// A reply of each kind, and one of no groups.
fn replies(alloc: Global) -> Result<Vec<QueryReply>, AllocError> {
    let mut replies = Vec::new(alloc);
    replies.push(answered(0, rows(alloc)?))?;
    replies.push(answered(1, totals(alloc)?))?;
    replies.push(answered(3, groups(alloc)?))?;
    replies.push(answered(4, Answer::Groups(ListOf::of(Vec::new(alloc)))))?;
    replies.push(short_of_memory(5))?;
    Ok(replies)
}

/// Asserts the text of replies.
fn expect_text(
    rt: &impl Abort,
    alloc: Global,
    replies: &[QueryReply],
    want: &str,
) -> Result<(), AllocError> {
    let text = answers_text(alloc, replies)?;
    assert_eq!(rt; text.as_slice(), want.as_bytes());
    Ok(())
}

#[test]
fn prints_answers(rt: HostRuntime) -> Result<(), Fail> {
    let replies = replies(rt.alloc())?;
    let want = "query 0 lines 2\nrow 1,10\nrow -9223372036854775808\n\
        query 1 lines 1\ntotal 0,18446744073709551614,-,-3\n\
        query 3 lines 2\ngroup 1,-1: 30\ngroup 2,-2: 5\n\
        query 4 lines 0\nquery 5 memory\n";
    expect_text(&rt, rt.alloc(), replies.as_slice(), want)?;
    Ok(())
}
