//! The commands `turns` and `steps`: the report of a run of a script on one thread.
ghost use Rattle.std.specs.Prelude.{◌≡◌, ◌≢◌, ℕ, List, IfErr, IfOk, None};
ghost use Rattle.std.specs.Arc.{arc_value};
ghost use Rattle.report_text.specs.ReportText.{report_bytes};
ghost use Rattle.script_json.specs.Format.{first_early};
ghost use Rattle.pool_run.specs.Runs.{ReportsBy, threads};
ghost use Rattle.sched_tool.specs.Commands.{Gives, GivesUp, if_on_one_thread};
ghost use Rattle.sched_tool.specs.Outsides.{possible};
ghost use Rattle.sched_tool.specs.Requests.{IsRunnable, course_of, request_of};
ghost use Rattle.sched_tool.specs.RunCommands.{order_behaviour};
ghost use Rattle.sched_tool.specs.Runs.{FitsReplies, requested};
ghost use Rattle.bench_cell.specs.Plans.{subject_of_plan};
ghost use Rattle.sched_tool.specs.declared.program.request.Course.TheVariants.{Threads};

use super::output::Output;
use super::plan::plan_of;
use super::refusal::Refusal;
use super::request::{Course, Request};
use super::subject::open_subject;
use bench_cell::Plan;
use outside_io::{Files, Meter};
use pool_run::{run_steps, run_turns};
use report_text::{Report, report_text};
use std::alloc::{AllocError, Global};
use std::sync::Arc;

/// `turns` or `steps` of the script in a file: the report of its run. The script, its tables and
/// its queries are read and checked as `check` does it. A run by threads is refused.
pub fn run_script<F: Files, M: Meter>(
    alloc: Global,
    files: &mut F,
    meter: &mut M,
    request: &Request<'_>,
) -> Result<Output, Refusal>
    requires { IsRunnable (request_of request.now) }
    ensures kept { (any : List ℕ) → F.content files.new any ≡ F.content files.old any }
    ensures ok { let asked = request_of request.now in
        IfOk result (Gives (if_on_one_thread asked.course
        (order_behaviour (possible (F.content files.old) M.may_take) asked))
        (F.failed files.old) (F.failed files.new)) }
    ensures err { let asked = request_of request.now in
        IfErr result (GivesUp (if_on_one_thread asked.course
        (order_behaviour (possible (F.content files.old) M.may_take) asked))
        (F.failed files.old) (F.failed files.new)) }
{
    match request.course {
        Course::Threads => Err(Refusal::Usage),
        _ => report_script(alloc, files, meter, request),
    }
}

// The report of a run of the script in a file, by its order.
fn report_script<F: Files, M: Meter>(
    alloc: Global,
    files: &mut F,
    meter: &mut M,
    request: &Request<'_>,
) -> Result<Output, Refusal>
    requires runnable { IsRunnable (request_of request.now) }
    requires by_order { request.now.course ≢ Threads }
    ensures kept { (any : List ℕ) → F.content files.new any ≡ F.content files.old any }
    ensures ok { IfOk result (Gives
        (order_behaviour (possible (F.content files.old) M.may_take) (request_of request.now))
        (F.failed files.old) (F.failed files.new)) }
    ensures err { IfErr result (GivesUp
        (order_behaviour (possible (F.content files.old) M.may_take) (request_of request.now))
        (F.failed files.old) (F.failed files.new)) }
{
    let opened = open_subject(alloc, files, request.script)?;
    let plan = plan_of(alloc, opened)?;
    let report = run_plan(alloc, plan, request, meter)?;
    Ok(report_output(alloc, &report)?)
}

// The report of a run of a plan, by its order.
fn run_plan<M: Meter>(
    alloc: Global,
    plan: Arc<Plan>,
    request: &Request<'_>,
    meter: &mut M,
) -> Result<Report, AllocError>
    requires runnable { IsRunnable (request_of request.now) }
    requires by_order { request.now.course ≢ Threads }
    requires in_time { first_early 0 0 (subject_of_plan (arc_value plan)).queries ≡ None }
    ensures { IfOk result (ReportsBy M.may_take
        (requested (request_of request.now) (subject_of_plan (arc_value plan)))) }
{
    let (workers, slots) = (request.workers, request.slots);
    match &request.course {
        Course::Turns(order) => {
            Ok(run_turns(alloc, plan, workers, slots, order.as_slice(), meter)?.report)
        }
        Course::Steps(order) => {
            Ok(run_steps(alloc, plan, workers, slots, order.as_slice(), meter)?.report)
        }
        Course::Threads => unreachable!(),
    }
}

/// The text of a report, with the status that its replies ask for.
pub fn report_output(alloc: Global, report: &Report) -> Result<Output, AllocError>
    ensures text { IfOk result (λ output. output.text.items ≡ report_bytes report.now) }
    ensures status { IfOk result (λ output. FitsReplies output.status report.now.replies) }
{
    let text = report_text(alloc, report)?;
    Ok(Output::of_run(text, report.replies.as_slice()))
}
