//! The command `make` of a number alone: the summary of the run of its large input.
ghost use Rattle.std.specs.Prelude.{◌≡◌, ◌≤◌, ℕ, List, [], All, IfErr, IfOk, None, count_by};
ghost use Rattle.std.specs.Prelude.{length, map, sum_by};
ghost use Rattle.std.specs.Arc.{arc_value};
ghost use Rattle.load_gen.specs.Summaries.{summary_text};
ghost use Rattle.plan_ast.specs.declared.queries.NamedTable.{NamedTable};
ghost use Rattle.report_text.specs.AnswersText.{answer_lines};
ghost use Rattle.report_text.specs.declared.replies.QueryReply.{QueryReply};
ghost use Rattle.report_text.specs.declared.report.Record.{Record};
ghost use Rattle.script_json.specs.Format.{first_early};
ghost use Rattle.sched_tool.specs.MakeCommand.{summary_behaviour};
ghost use Rattle.sched_tool.specs.Commands.{Gives, GivesUp};
ghost use Rattle.bench_cell.specs.Plans.{subject_of_plan};
ghost use Rattle.pool_run.specs.Runs.{ReportsBy, turns};
ghost use Rattle.sched_tool.specs.Runs.{FitsReplies, asked_over};
ghost use Rattle.sched_tool.specs.Summaries.{is_answer, lines_in, subject_of};
ghost use Rattle.sched_tool.specs.Summaries.{summary_of};

use super::output::Output;
use super::plan::plan_of;
use super::refusal::Refusal;
use super::subject::{Opened, check_queries};
use bench_cell::Plan;
use load_gen::{Generated, Summary, generate};
use outside_io::Meter;
use plan_ast::{Answer, NamedTable};
use pool_run::run_turns;
use report_text::{QueryReply, Record, Reply, Report};
use std::alloc::{AllocError, Global};
use std::sync::Arc;

// How a large input is run.
const WORKERS: u32 = 8;

const SLOTS: u32 = 128;

/// `make` of a number alone: its large input is run by 8 workers over 128 slots, in rounds of whole
/// turns, and the summary of the run is written. It reads no file.
pub fn make_summary<M: Meter>(alloc: Global, number: u32, meter: &mut M) -> Result<Output, Refusal>
    ensures ok { IfOk result (λ output. (failed : List (List ℕ))
        → Gives (summary_behaviour M.may_take number) failed failed output) }
    ensures err { IfErr result (λ refusal. (failed : List (List ℕ))
        → GivesUp (summary_behaviour M.may_take number) failed failed refusal) }
{
    let plan = generated_plan(alloc, number)?;
    let report = run_rounds(alloc, Arc::try_clone(&plan)?, meter)?;
    let summary = summary_of(number, &plan, &report);
    let text = format!(in alloc; "{summary}")?;
    Ok(Output::of_run(text.into_bytes(), report.replies.as_slice()))
}

// The report of the run of a large input's plan.
fn run_rounds<M: Meter>(alloc: Global, plan: Arc<Plan>, meter: &mut M) -> Result<Report, AllocError>
    requires { first_early 0 0 (subject_of_plan (arc_value plan)).queries ≡ None }
    ensures { IfOk result (ReportsBy M.may_take
        (asked_over (subject_of_plan (arc_value plan)) 8 128 (turns []))) }
{
    Ok(run_turns(alloc, plan, WORKERS, SLOTS, &[], meter)?.report)
}

// The plan of a number's large input.
fn generated_plan(alloc: Global, number: u32) -> Result<Arc<Plan>, Refusal>
    ensures subject { IfOk result (λ plan. subject_of_plan (arc_value plan) ≡ subject_of number) }
    ensures in_time { IfOk result
        (λ plan. first_early 0 0 (subject_of_plan (arc_value plan)).queries ≡ None) }
    ensures err { IfErr result (λ refusal. refusal ≡ Refusal.OutOfMemory) }
{
    let Generated { script, tables } = generate(alloc, number)?;
    let tables = tables.into_vec();
    let queries = check_queries(alloc, tables.as_slice(), script.queries.as_slice())?;
    Ok(plan_of(alloc, Opened { tables, queries })?)
}

// The summary of a run of a plan with this report.
fn summary_of(number: u32, plan: &Plan, report: &Report) -> Summary
    requires { subject_of_plan plan.now ≡ subject_of number }
    ensures { result ≡ summary_of number report.now }
{
    let replies = report.replies.as_slice();
    Summary {
        number,
        rows: rows_of(plan.tables.as_slice()),
        queries: plan.len(),
        sets: u64::from(plan.sets()),
        answered: answered_of(replies),
        lines: lines_of(replies),
        ranges: ranges_of(report.records.as_slice()),
    }
}

// The rows of all tables.
fn rows_of(tables: &[NamedTable]) -> u64
    requires { length tables.now ≤ 8 }
    ensures { result ≡ sum_by (λ (made : NamedTable). length made.table.rows) tables.now }
{
    let mut rows = 0;
    for made in tables {
        rows += u64::from(made.table.rows());
    }
    rows
}

// How many queries are answered.
fn answered_of(replies: &[QueryReply]) -> u64
    ensures { result ≡ count_by (λ (told : QueryReply). is_answer told.reply) replies.now }
{
    let mut answered = 0;
    for told in replies {
        answered += u64::from(is_answer(&told.reply));
    }
    answered
}

// Whether a reply is an answer.
fn is_answer(reply: &Reply) -> bool
    ensures { result ≡ is_answer reply.now }
{
    matches!(reply, Reply::Answer(_))
}

// The lines of all answers.
fn lines_of(replies: &[QueryReply]) -> u128
    ensures { result ≡ sum_by (λ (told : QueryReply). lines_in told.reply) replies.now }
{
    let mut lines = 0;
    for told in replies {
        lines += lines_in(&told.reply) as u128;
    }
    lines
}

// The lines of the answer, if a reply is one.
fn lines_in(reply: &Reply) -> usize
    ensures { result ≡ lines_in reply.now }
{
    match reply {
        Reply::Answer(answer) => lines_of_answer(answer),
        Reply::Memory => 0,
    }
}

// The lines of an answer.
fn lines_of_answer(answer: &Answer) -> usize
    ensures { result ≡ length (answer_lines answer.now) }
{
    match answer {
        Answer::Rows(rows) => rows.as_slice().len(),
        Answer::Totals(_) => 1,
        Answer::Groups(groups) => groups.as_slice().len(),
    }
}

// The claims of all task sets.
fn ranges_of(records: &[Record]) -> u128
    ensures { result ≡ sum_by (λ (kept : Record). length kept.claims) records.now }
{
    let mut ranges = 0;
    for kept in records {
        ranges += kept.claims.as_slice().len() as u128;
    }
    ranges
}
