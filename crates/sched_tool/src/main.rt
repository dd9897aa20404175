//! The program: the words after its name are read as a command, which reads its files and writes
//! one text.
//!
//! It stands on the outside (`outside_io`), on scripts (`script_json`) and tables (`csv_tables`)
//! that are read, on queries and their check (`plan_ast`), on their answers (`pipe_ops`), on runs
//! of them (`pool_run`, over the plans of `bench_cell`), on the text of answers and reports
//! (`report_text`), and on the generator of large inputs (`load_gen`).
//!
//! The one fact that it promises is the contract of `run_program`: for the words, and for what is
//! known of the files, it says which text is written and with which status, and the cause of every
//! other ending. Of all that `program` has, `main` sees this call, the words that it is given
//! (`GivenWords`) and the end of a program that has no memory to begin (`Ended::without_memory`).
#![tactic(auto)]

ghost use Rattle.std.specs.Prelude.{◌≡◌, ◌≤◌, IfOk, true, vec_len};
ghost use Rattle.slot_history.specs.declared.shape.TheConstants.{MOST_WORKERS};
ghost use Rattle.sched_tool.specs.Programs.{asks_for_run, words_in};

mod program;

use outside_io::{CostMeter, DirFiles, RealMeter, StdSink};
use program::{Ended, GivenWords, run_program};
use slot_history::MOST_WORKERS;
use std::alloc::{AllocError, Global};
use std::rt::Env;
use std::{env, io};

fn main(rt: HostRuntime) -> Ended {
    let alloc = rt.alloc();
    let mut files = DirFiles::new(rt, alloc);
    let mut out = StdSink::new(rt);
    let mut meter = CostMeter::new();
    let words = GivenWords::of(words_after_name(&rt));
    match clocks_for(rt, alloc, &words) {
        Ok(mut clocks) => {
            run_program(
                &rt,
                alloc,
                words,
                &mut files,
                &mut out,
                &mut meter,
                &mut clocks,
            )
        }
        Err(AllocError) => Ended::without_memory(&mut out),
    }
}

// The words after the program's name.
fn words_after_name<R: Env + AllocGlobal>(rt: &R) -> io::Result<Vec<String>> {
    Ok(env::args(rt)?.skip(1).collect(rt.alloc())?)
}

// A clock for each worker that a run may have, if the words ask for a run by threads.
fn clocks_for(
    rt: HostRuntime,
    alloc: Global,
    words: &GivenWords,
) -> Result<Vec<RealMeter<HostRuntime>>, AllocError>
    ensures { IfOk result
        (λ clocks. asks_for_run (words_in words.now) ≡ true → MOST_WORKERS ≤ vec_len clocks) }
{
    if words.ask_for_run() {
        all_clocks(rt, alloc)
    } else {
        Ok(Vec::new(alloc))
    }
}

// A clock for each worker that a run may have.
fn all_clocks(rt: HostRuntime, alloc: Global) -> Result<Vec<RealMeter<HostRuntime>>, AllocError>
    ensures { IfOk result (λ clocks. vec_len clocks ≡ MOST_WORKERS) }
{
    let mut clocks = Vec::with_capacity(alloc, MOST_WORKERS as usize)?;
    for _ in 0..MOST_WORKERS {
        clocks.push(RealMeter::new(rt))?;
    }
    Ok(clocks)
}
