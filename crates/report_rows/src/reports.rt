//! Reports as text.

use crate::answers::{answered, short_of_memory};
use col_table::ListOf;
use plan_ast::{AggValue, Answer};
use report_text::{ClaimOf, Gap, QueryReply, Record, Report, Share, report_text};
use std::alloc::{AllocError, Global};
use std::process::Abort;
use std::test::Fail;

/// The claims of worker 1 that end at these tuples, one after another.
fn claims(alloc: Global, ends: &[u32]) -> Result<ListOf<ClaimOf>, AllocError> {
    let mut claims = Vec::new(alloc);
    let mut from = 0;
    for to in ends {
        claims.push(ClaimOf {
            from,
            to: *to,
            worker: 1,
        })?;
        from = *to;
    }
    Ok(ListOf::of(claims))
}

/// A record, which is short if it has no claims.
fn set(alloc: Global, query: u32, finisher: u32, ends: &[u32]) -> Result<Record, AllocError> {
    Ok(Record {
        query,
        stage: 1,
        slot: 127,
        total: 1_048_576,
        finisher,
        short: ends.is_empty(),
        claims: claims(alloc, ends)?,
    })
}

fn share(worker: u32, query: u32) -> Share {
    Share {
        worker,
        query,
        ranges: 2,
        tuples: 19,
        ns: 340_282_366_920_938_463_463_374_607_431_768_211_455,
        priority: 10_000,
    }
}

fn gap(worker: u32) -> Gap {
    Gap {
        worker,
        widest: 31_457,
        largest: 62_914,
    }
}

fn replies(alloc: Global) -> Result<ListOf<QueryReply>, AllocError> {
    let totals = ListOf::of(vec![in alloc; AggValue::Count(3)]?);
    let mut replies = Vec::new(alloc);
    replies.push(answered(0, Answer::Totals(totals)))?;
    replies.push(short_of_memory(1))?;
    Ok(ListOf::of(replies))
}

fn records(alloc: Global) -> Result<ListOf<Record>, AllocError> {
    let mut records = Vec::new(alloc);
    records.push(set(alloc, 0, 63, &[16, 1_048_576])?)?;
    records.push(set(alloc, 4_095, 0, &[])?)?;
    Ok(ListOf::of(records))
}

fn shares(alloc: Global) -> Result<ListOf<Share>, AllocError> {
    Ok(ListOf::of(vec![in alloc; share(0, 0), share(0, 7), share(63, 1)]?))
}

fn gaps(alloc: Global) -> Result<ListOf<Gap>, AllocError> {
    Ok(ListOf::of(vec![in alloc; gap(0), gap(1), gap(63)]?))
}

fn report(alloc: Global) -> Result<Report, AllocError> {
    let replies = replies(alloc)?;
    let records = records(alloc)?;
    let shares = shares(alloc)?;
    let gaps = gaps(alloc)?;
    Ok(Report {
        replies,
        records,
        shares,
        gaps,
    })
}

fn report_of_nothing(alloc: Global) -> Report {
    Report {
        replies: ListOf::of(Vec::new(alloc)),
        records: ListOf::of(Vec::new(alloc)),
        shares: ListOf::of(Vec::new(alloc)),
        gaps: ListOf::of(Vec::new(alloc)),
    }
}

/// Asserts the text of a report.
fn expect_text(
    rt: &impl Abort,
    alloc: Global,
    report: &Report,
    want: &str,
) -> Result<(), AllocError> {
    let text = report_text(alloc, report)?;
    assert_eq!(rt; text.as_slice(), want.as_bytes());
    Ok(())
}

#[test]
fn prints_a_report(rt: HostRuntime) -> Result<(), Fail> {
    let report = report(rt.alloc())?;
    let want = "query 0 lines 1\ntotal 3\nquery 1 memory\nshares\n\
        worker 0 query 0 ranges 2 tuples 19 \
        ns 340282366920938463463374607431768211455 priority 10000\n\
        worker 0 query 7 ranges 2 tuples 19 \
        ns 340282366920938463463374607431768211455 priority 10000\n\
        worker 0 widest 31457 largest 62914\nworker 1 widest 31457 largest 62914\n\
        worker 63 query 1 ranges 2 tuples 19 \
        ns 340282366920938463463374607431768211455 priority 10000\n\
        worker 63 widest 31457 largest 62914\njournal\n\
        set 0.1 slot 127 total 1048576 finisher 63\n\
        claim 0 16 worker 1\nclaim 16 1048576 worker 1\n\
        set 4095.1 slot 127 total 1048576 finisher 0 short\nend\n";
    expect_text(&rt, rt.alloc(), &report, want)?;
    Ok(())
}

#[test]
fn prints_a_report_of_nothing(rt: HostRuntime) -> Result<(), Fail> {
    let report = report_of_nothing(rt.alloc());
    expect_text(&rt, rt.alloc(), &report, "shares\njournal\nend\n")?;
    Ok(())
}
