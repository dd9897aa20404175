//! The program's end: it ends with the status that its command answers, and with no other.
ghost use Rattle.std.specs.Prelude.{◌≡◌, ◌≤◌, ℕ, List, false, true, vec_len};
ghost use Rattle.std.specs.Process.{exit_status};
ghost use Rattle.slot_history.specs.declared.shape.TheConstants.{MOST_WORKERS};
ghost use Rattle.sched_tool.specs.Commands.{behaviour_asked};
ghost use Rattle.sched_tool.specs.Promises.{EndsRightly};
ghost use Rattle.sched_tool.specs.ErrorLines.{error_bytes};
ghost use Rattle.sched_tool.specs.Outsides.{known, possible};
ghost use Rattle.sched_tool.specs.Programs.{EndsRun, asks_for_run, end_status, words_in};
ghost use Rattle.sched_tool.specs.Statuses.{memory_status};
ghost use Rattle.sched_tool.specs.Writing.{IsWritten};
ghost use Rattle.sched_tool.specs.declared.program.given.GivenWords.{GivenWords};
ghost use Rattle.sched_tool.specs.declared.program.refusal.Refusal.{Refusal};

mod check;
mod command;
mod error_lines;
mod given;
mod laws;
mod line;
mod make;
mod order;
mod output;
mod plan;
mod refusal;
mod reports;
mod request;
#[cfg(test)]
mod run_tests;
#[cfg(test)]
mod run_word_tests;
mod status;
mod subject;
mod summary;
#[cfg(test)]
mod tests;
#[cfg(test)]
mod thread_tests;
mod threads;
mod words;

use command::{command, end_without_memory};
pub use given::GivenWords;
use given::asks_for_run;
use outside_io::{Files, Meter, OpenGate, Sink};
use std::alloc::Global;
use std::process::{ExitCode, Termination};
use std::sync::Wait;
use std::thread::Threads;
use threads::command_run;

/// The end of the program. `main` answers one that `run_program` or `without_memory` made, and can
/// make no other, so the process ends with the status that one of these answered.
pub struct Ended {
    status: u8,
}

impl Ended {
    /// The program's end if there is no memory to begin: the line that says so is written.
    pub fn without_memory<S: Sink>(out: &mut S) -> Ended
        ensures { IsWritten
            (record { written = S.written out.old; faults = S.faults out.old })
            (record { written = S.written out.new; faults = S.faults out.new })
            (error_bytes Refusal.OutOfMemory) memory_status (end_status result) }
    {
        Ended {
            status: end_without_memory(out),
        }
    }
}

impl Termination for Ended {
    fn report<R: Eprint>(self, _rt: &R) -> ExitCode
        ensures { exit_status result ≡ end_status self }
    {
        let Ended { status: code } = self;
        ExitCode::from(code)
    }
}

/// Runs the command that the words ask for, and promises what `command` promises, or what
/// `command_run` promises if the first word is `run`: its workers have threads of their own, and
/// each a clock of `clocks`. Words that are not UTF-8 are outside the grammar, as no words at all
/// are. If there is no memory for the words, the line that says so is written.
pub fn run_program<R: Threads + Wait + Sync, F: Files, S: Sink, M: Meter, C: Meter + Send>(
    rt: &R,
    alloc: Global,
    words: GivenWords,
    files: &mut F,
    out: &mut S,
    meter: &mut M,
    clocks: &mut Vec<C>,
) -> Ended
    requires { asks_for_run (words_in words) ≡ true → MOST_WORKERS ≤ vec_len clocks.old }
    ensures ends { asks_for_run (words_in words) ≡ false → EndsRightly
        (behaviour_asked (possible (F.content files.old) M.may_take) (words_in words))
        (behaviour_asked (known (F.content files.old) M.may_take) (words_in words))
        (F.failed files.old) (F.failed files.new)
        (record { written = S.written out.old; faults = S.faults out.old })
        (record { written = S.written out.new; faults = S.faults out.new })
        (end_status result) }
    ensures run { asks_for_run (words_in words) ≡ true → EndsRun
        (F.content files.old) C.may_take (words_in words)
        (F.failed files.old) (F.failed files.new)
        (record { written = S.written out.old; faults = S.faults out.old })
        (record { written = S.written out.new; faults = S.faults out.new })
        (end_status result) }
    ensures memory { words ≡ GivenWords.OutOfMemory → IsWritten
        (record { written = S.written out.old; faults = S.faults out.old })
        (record { written = S.written out.new; faults = S.faults out.new })
        (error_bytes Refusal.OutOfMemory) memory_status (end_status result) }
    ensures kept { (any : List ℕ) → F.content files.new any ≡ F.content files.old any }
{
    match words {
        GivenWords::Words(words) => Ended {
            status: run_words(rt, alloc, words.as_slice(), files, out, meter, clocks),
        },
        GivenWords::NotText => Ended {
            status: command(alloc, &[], files, out, meter),
        },
        GivenWords::OutOfMemory => Ended::without_memory(out),
    }
}

// Runs the command that the words ask for, by threads if it is `run`, and answers its status.
fn run_words<R: Threads + Wait + Sync, F: Files, S: Sink, M: Meter, C: Meter + Send>(
    rt: &R,
    alloc: Global,
    words: &[String],
    files: &mut F,
    out: &mut S,
    meter: &mut M,
    clocks: &mut Vec<C>,
) -> u8
    requires { asks_for_run words.now ≡ true → MOST_WORKERS ≤ vec_len clocks.old }
    ensures ends { asks_for_run words.now ≡ false → EndsRightly
        (behaviour_asked (possible (F.content files.old) M.may_take) words.now)
        (behaviour_asked (known (F.content files.old) M.may_take) words.now)
        (F.failed files.old) (F.failed files.new)
        (record { written = S.written out.old; faults = S.faults out.old })
        (record { written = S.written out.new; faults = S.faults out.new }) result }
    ensures run { asks_for_run words.now ≡ true → EndsRun
        (F.content files.old) C.may_take words.now
        (F.failed files.old) (F.failed files.new)
        (record { written = S.written out.old; faults = S.faults out.old })
        (record { written = S.written out.new; faults = S.faults out.new }) result }
    ensures kept { (any : List ℕ) → F.content files.new any ≡ F.content files.old any }
{
    if asks_for_run(words) {
        let mut ran = None;
        command_run(rt, alloc, words, files, out, clocks, &OpenGate, &mut ran)
    } else {
        command(alloc, words, files, out, meter)
    }
}
