//! The command `run`: the report of a run of a script whose workers have threads of their own.
ghost use Rattle.std.specs.Prelude.{◌≡◌, ◌≤◌, ℕ, List, IfErr, IfOk, IfSome, None, vec_len};
ghost use Rattle.std.specs.Arc.{arc_value};
ghost use Rattle.bench_cell.specs.Plans.{subject_of_plan};
ghost use Rattle.pool_run.specs.Runs.{RanBy};
ghost use Rattle.script_json.specs.Format.{first_early};
ghost use Rattle.slot_history.specs.declared.shape.TheConstants.{MOST_WORKERS};
ghost use Rattle.sched_tool.specs.Commands.{Gives, GivesUp, behaviour_run, if_by_threads};
ghost use Rattle.sched_tool.specs.Outsides.{known, possible};
ghost use Rattle.sched_tool.specs.Promises.{EndsRightly};
ghost use Rattle.sched_tool.specs.Requests.{IsRunnable, asked, request_of};
ghost use Rattle.sched_tool.specs.RunCommands.{IsRunAsked, IsRunOf, threads_behaviour};
ghost use Rattle.sched_tool.specs.Runs.{requested};
ghost use Rattle.sched_tool.specs.declared.program.request.Course.TheVariants.{Threads as ByThreads};

use super::command::tell;
use super::output::Output;
use super::plan::plan_of;
use super::refusal::Refusal;
use super::reports::report_output;
use super::request::{Course, Request};
use super::subject::open_subject;
use super::words::{Command, read_words};
use bench_cell::Plan;
use outside_io::{Files, Gate, Meter, Sink};
use pool_run::{ThreadRan, run_threads};
use std::alloc::{AllocError, Global};
use std::sync::{Arc, Wait};
use std::thread::Threads;

/// Does what the words after the program's name ask for if that is `run`: the queries of a script
/// are run by workers on threads of their own, and the report of the run is written. It answers the
/// status that the program ends with. All other words are outside its grammar.
///
/// Refusals are those of `command`, in the same order. What the run answered is left in `ran`, in
/// which there was nothing. A report is written only if it is there, and it is the report in `ran`.
/// There are at least `MOST_WORKERS` meters, and as many come back. The call may wait for the
/// threads, and no clause says that it returns.
pub fn command_run<R: Threads + Wait + Sync, F: Files, S: Sink, M: Meter + Send, G: Gate + Sync>(
    rt: &R,
    alloc: Global,
    words: &[String],
    files: &mut F,
    out: &mut S,
    meters: &mut Vec<M>,
    gate: &G,
    ran: &mut Option<ThreadRan>,
) -> u8
    requires meters { MOST_WORKERS ≤ vec_len meters.old }
    requires none { ran.old ≡ None }
    ensures ends { EndsRightly
        (behaviour_run (possible (F.content files.old) M.may_take) ran.new words.now)
        (behaviour_run (known (F.content files.old) M.may_take) ran.new words.now)
        (F.failed files.old) (F.failed files.new)
        (record { written = S.written out.old; faults = S.faults out.old })
        (record { written = S.written out.new; faults = S.faults out.new }) result }
    // Whatever is in `ran` is a run that the words ask for.
    ensures ran { IsRunAsked (possible (F.content files.old) M.may_take) (asked words.now) ran.new }
    ensures meters { vec_len meters.new ≡ vec_len meters.old }
    ensures kept { (any : List ℕ) → F.content files.new any ≡ F.content files.old any }
{
    let ended = run_asked(rt, alloc, words, files, meters, gate, ran);
    tell(alloc, out, ended)
}

// Makes the run that the words ask for.
fn run_asked<R: Threads + Wait + Sync, F: Files, M: Meter + Send, G: Gate + Sync>(
    rt: &R,
    alloc: Global,
    words: &[String],
    files: &mut F,
    meters: &mut Vec<M>,
    gate: &G,
    ran: &mut Option<ThreadRan>,
) -> Result<Output, Refusal>
    requires meters { MOST_WORKERS ≤ vec_len meters.old }
    requires none { ran.old ≡ None }
    ensures kept { (any : List ℕ) → F.content files.new any ≡ F.content files.old any }
    ensures meters { vec_len meters.new ≡ vec_len meters.old }
    ensures ran { IsRunAsked (possible (F.content files.old) M.may_take) (asked words.now) ran.new }
    ensures ok { IfOk result (Gives
        (behaviour_run (possible (F.content files.old) M.may_take) ran.new words.now)
        (F.failed files.old) (F.failed files.new)) }
    ensures err { IfErr result (GivesUp
        (behaviour_run (possible (F.content files.old) M.may_take) ran.new words.now)
        (F.failed files.old) (F.failed files.new)) }
{
    match read_words(alloc, words)? {
        Command::Run(request) => run_script(rt, alloc, files, meters, gate, &request, ran),
        _ => Err(Refusal::Usage),
    }
}

// A run of the script in a file, if it is one by threads. A run on one thread is refused.
fn run_script<R: Threads + Wait + Sync, F: Files, M: Meter + Send, G: Gate + Sync>(
    rt: &R,
    alloc: Global,
    files: &mut F,
    meters: &mut Vec<M>,
    gate: &G,
    request: &Request<'_>,
    ran: &mut Option<ThreadRan>,
) -> Result<Output, Refusal>
    requires runnable { IsRunnable (request_of request.now) }
    requires meters { MOST_WORKERS ≤ vec_len meters.old }
    requires none { ran.old ≡ None }
    ensures kept { (any : List ℕ) → F.content files.new any ≡ F.content files.old any }
    ensures meters { vec_len meters.new ≡ vec_len meters.old }
    ensures ran { IfSome ran.new
        (IsRunOf (possible (F.content files.old) M.may_take) (request_of request.now)) }
    ensures ok { let asked = request_of request.now in
        IfOk result (Gives (if_by_threads asked.course
        (threads_behaviour (possible (F.content files.old) M.may_take) ran.new asked))
        (F.failed files.old) (F.failed files.new)) }
    ensures err { let asked = request_of request.now in
        IfErr result (GivesUp (if_by_threads asked.course
        (threads_behaviour (possible (F.content files.old) M.may_take) ran.new asked))
        (F.failed files.old) (F.failed files.new)) }
{
    match request.course {
        Course::Threads => report_script(rt, alloc, files, meters, gate, request, ran),
        _ => Err(Refusal::Usage),
    }
}

// The report of a run of the script in a file by threads. The script, its tables and its queries
// are read and checked as `check` does it.
fn report_script<R: Threads + Wait + Sync, F: Files, M: Meter + Send, G: Gate + Sync>(
    rt: &R,
    alloc: Global,
    files: &mut F,
    meters: &mut Vec<M>,
    gate: &G,
    request: &Request<'_>,
    ran: &mut Option<ThreadRan>,
) -> Result<Output, Refusal>
    requires runnable { IsRunnable (request_of request.now) }
    requires by_threads { request.now.course ≡ ByThreads }
    requires meters { MOST_WORKERS ≤ vec_len meters.old }
    requires none { ran.old ≡ None }
    ensures kept { (any : List ℕ) → F.content files.new any ≡ F.content files.old any }
    ensures meters { vec_len meters.new ≡ vec_len meters.old }
    ensures ran { IfSome ran.new
        (IsRunOf (possible (F.content files.old) M.may_take) (request_of request.now)) }
    ensures ok { IfOk result (Gives
        (threads_behaviour (possible (F.content files.old) M.may_take) ran.new
        (request_of request.now))
        (F.failed files.old) (F.failed files.new)) }
    ensures err { IfErr result (GivesUp
        (threads_behaviour (possible (F.content files.old) M.may_take) ran.new
        (request_of request.now))
        (F.failed files.old) (F.failed files.new)) }
{
    let opened = open_subject(alloc, files, request.script)?;
    let plan = plan_of(alloc, opened)?;
    let left = run_plan(rt, alloc, plan, request, meters, gate)?;
    let output = report_output(alloc, &left.report);
    *ran = Some(left);
    Ok(output?)
}

// A run of a plan by threads.
fn run_plan<R: Threads + Wait + Sync, M: Meter + Send, G: Gate + Sync>(
    rt: &R,
    alloc: Global,
    plan: Arc<Plan>,
    request: &Request<'_>,
    meters: &mut Vec<M>,
    gate: &G,
) -> Result<ThreadRan, AllocError>
    requires runnable { IsRunnable (request_of request.now) }
    requires by_threads { request.now.course ≡ ByThreads }
    requires meters { MOST_WORKERS ≤ vec_len meters.old }
    requires in_time { first_early 0 0 (subject_of_plan (arc_value plan)).queries ≡ None }
    ensures ran { IfOk result (λ left. RanBy M.may_take
        (requested (request_of request.now) (subject_of_plan (arc_value plan)))
        left.report left.joined.history left.times.items) }
    ensures meters { vec_len meters.new ≡ vec_len meters.old }
{
    run_threads(
        rt,
        alloc,
        plan,
        request.workers,
        request.slots,
        meters,
        gate,
    )
}
