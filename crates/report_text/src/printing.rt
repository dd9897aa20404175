// The printed text of a report.
ghost use Rattle.std.specs.Prelude.{◌≡◌, ◌++◌, IfOk, OnOk, flat_map, string_bytes};
ghost use Rattle.report_text.specs.AnswersText.{line};
ghost use Rattle.report_text.specs.ReportText.{claim_line, end_text, gap_line, own_share};
ghost use Rattle.report_text.specs.ReportText.{report_bytes, set_bytes, set_line, share_line};
ghost use Rattle.report_text.specs.ReportText.{work_text, worker_bytes};

use crate::answers::write_replies;
use crate::report::{ClaimOf, Gap, Record, Report, Share};
use std::alloc::{AllocError, Global};
use std::fmt::Write;

/// The text of a report.
///
/// First come the answers, as in `answers_text`. Then, after the line `shares`, for each gap the
/// shares of its worker, a line each, and the line of the gap. Then, after the line `journal`, each
/// record with its claims, a line each. The last line is `end`.
pub fn report_text(alloc: Global, report: &Report) -> Result<Vec<u8>, AllocError>
    ensures { IfOk result (λ text. text.items ≡ report_bytes report.now) }
{
    let mut text = String::new(alloc);
    write_replies(&mut text, report.replies.as_slice())?;
    text.push_str("shares\n")?;
    write_workers(&mut text, report.shares.as_slice(), report.gaps.as_slice())?;
    text.push_str("journal\n")?;
    write_sets(&mut text, report.records.as_slice())?;
    text.push_str("end\n")?;
    Ok(text.into_bytes())
}

// Adds the lines of each worker.
fn write_workers(text: &mut String, shares: &[Share], gaps: &[Gap]) -> Result<(), AllocError>
    ensures { OnOk result (string_bytes text.new
        ≡ string_bytes text.old ++ flat_map (worker_bytes shares.now) gaps.now) }
{
    for gap in gaps {
        write_shares(text, shares, gap.worker)?;
        write_gap(text, gap)?;
    }
    Ok(())
}

// Adds a line for each share of a worker.
fn write_shares(text: &mut String, shares: &[Share], worker: u32) -> Result<(), AllocError>
    ensures { OnOk result (string_bytes text.new
        ≡ string_bytes text.old ++ flat_map (own_share worker) shares.now) }
{
    for share in shares {
        write_own_share(text, share, worker)?;
    }
    Ok(())
}

// Adds the line of a share if it is this worker's.
fn write_own_share(text: &mut String, share: &Share, worker: u32) -> Result<(), AllocError>
    ensures { OnOk result (string_bytes text.new
        ≡ string_bytes text.old ++ own_share worker share.now) }
{
    if share.worker == worker {
        write_share(text, share)
    } else {
        Ok(())
    }
}

// Adds the line of a share.
fn write_share(text: &mut String, share: &Share) -> Result<(), AllocError>
    ensures { OnOk result (string_bytes text.new
        ≡ string_bytes text.old ++ line (share_line share.now)) }
{
    let (worker, query) = (share.worker, share.query);
    write!(text, "worker {worker} query {query}")?;
    write_work(text, share)?;
    text.push_str("\n")
}

// Adds how much a worker did for a query.
fn write_work(text: &mut String, share: &Share) -> Result<(), AllocError>
    ensures { OnOk result (string_bytes text.new ≡ string_bytes text.old ++ work_text share.now) }
{
    let (ranges, tuples) = (share.ranges, share.tuples);
    write!(text, " ranges {ranges} tuples {tuples}")?;
    let (ns, priority) = (share.ns, share.priority);
    write!(text, " ns {ns} priority {priority}")
}

// Adds the line of a worker's gap.
fn write_gap(text: &mut String, gap: &Gap) -> Result<(), AllocError>
    ensures { OnOk result (string_bytes text.new
        ≡ string_bytes text.old ++ line (gap_line gap.now)) }
{
    let (worker, widest, largest) = (gap.worker, gap.widest, gap.largest);
    writeln!(text, "worker {worker} widest {widest} largest {largest}")
}

// Adds the lines of each finalised task set.
fn write_sets(text: &mut String, sets: &[Record]) -> Result<(), AllocError>
    ensures { OnOk result (string_bytes text.new
        ≡ string_bytes text.old ++ flat_map set_bytes sets.now) }
{
    for set in sets {
        write_set(text, set)?;
        write_claims(text, set.claims.as_slice())?;
    }
    Ok(())
}

// Adds the line of a finalised task set.
fn write_set(text: &mut String, set: &Record) -> Result<(), AllocError>
    ensures { OnOk result (string_bytes text.new
        ≡ string_bytes text.old ++ line (set_line set.now)) }
{
    let (query, stage, slot) = (set.query, set.stage, set.slot);
    write!(text, "set {query}.{stage} slot {slot}")?;
    write_end(text, set)?;
    text.push_str("\n")
}

// Adds how large a task set was, who finalised it, and whether it is short.
fn write_end(text: &mut String, set: &Record) -> Result<(), AllocError>
    ensures { OnOk result (string_bytes text.new ≡ string_bytes text.old ++ end_text set.now) }
{
    let (total, finisher) = (set.total, set.finisher);
    let short = if set.short { " short" } else { "" };
    write!(text, " total {total} finisher {finisher}{short}")
}

// Adds a line for each claimed morsel.
fn write_claims(text: &mut String, claims: &[ClaimOf]) -> Result<(), AllocError>
    ensures { OnOk result (string_bytes text.new
        ≡ string_bytes text.old ++ flat_map (λ claim. line (claim_line claim)) claims.now) }
{
    for claim in claims {
        write_claim(text, claim)?;
    }
    Ok(())
}

// Adds the line of a claimed morsel.
fn write_claim(text: &mut String, claim: &ClaimOf) -> Result<(), AllocError>
    ensures { OnOk result (string_bytes text.new
        ≡ string_bytes text.old ++ line (claim_line claim.now)) }
{
    let (from, to, worker) = (claim.from, claim.to, claim.worker);
    writeln!(text, "claim {from} {to} worker {worker}")
}
