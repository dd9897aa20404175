//! A command from its words to the bytes that it writes.
ghost use Rattle.std.specs.Prelude.{◌≡◌, ℕ, List, IfErr, IfOk};
ghost use Rattle.sched_tool.specs.Commands.{Gives, GivesUp, behaviour_asked};
ghost use Rattle.sched_tool.specs.Promises.{EndsRightly};
ghost use Rattle.sched_tool.specs.ErrorLines.{error_bytes};
ghost use Rattle.sched_tool.specs.Outsides.{known, possible};
ghost use Rattle.sched_tool.specs.Statuses.{memory_status};
ghost use Rattle.sched_tool.specs.Writing.{IsRefusalWritten, IsWritten};
ghost use Rattle.sched_tool.specs.declared.program.refusal.Refusal.{Refusal};

use super::check::check_script;
use super::error_lines::OUT_OF_MEMORY_LINE;
use super::make::make_text;
use super::output::Output;
use super::refusal::Refusal;
use super::reports::run_script;
use super::status::{CANNOT_WRITE, OUT_OF_MEMORY, status_of};
use super::summary::make_summary;
use super::words::{Command, read_words};
use outside_io::{Files, Meter, Sink, write_all};
use std::alloc::{AllocError, Global};

/// Does what the words after the program's name ask for, writes one text, and answers the status
/// that the program ends with. `check` reads the script and its tables, and writes the answers to
/// its queries. `turns` and `steps` run its queries on one thread, and write the report of the run.
/// `make` writes a part of a large input, or runs it and writes the summary of the run. The meter
/// says how long the ranges of a run take.
///
/// The first refusal in this order is written, as its line, in place of all else: the words are
/// outside the grammar, or ask for `run`, which `command_run` does (2); the script can't be read
/// (3) or is refused (5); table by table in the script's order, the table can't be read (3) or is
/// refused (6); a query is refused (5). If memory runs out, the command ends there (7); but if only
/// queries of a run run out of memory, the report or the summary says so, and the status is 7 too.
/// If a write fails, the status is 4, and a prefix of the text was written.
pub fn command<F: Files, S: Sink, M: Meter>(
    alloc: Global,
    words: &[String],
    files: &mut F,
    out: &mut S,
    meter: &mut M,
) -> u8
    ensures ends { EndsRightly
        (behaviour_asked (possible (F.content files.old) M.may_take) words.now)
        (behaviour_asked (known (F.content files.old) M.may_take) words.now)
        (F.failed files.old) (F.failed files.new)
        (record { written = S.written out.old; faults = S.faults out.old })
        (record { written = S.written out.new; faults = S.faults out.new }) result }
    // What is known of the files stays.
    ensures kept { (any : List ℕ) → F.content files.new any ≡ F.content files.old any }
{
    let ended = run_command(alloc, words, files, meter);
    tell(alloc, out, ended)
}

// Runs the command that the words ask for.
fn run_command<F: Files, M: Meter>(
    alloc: Global,
    words: &[String],
    files: &mut F,
    meter: &mut M,
) -> Result<Output, Refusal>
    ensures kept { (any : List ℕ) → F.content files.new any ≡ F.content files.old any }
    ensures ok { IfOk result (Gives
        (behaviour_asked (possible (F.content files.old) M.may_take) words.now)
        (F.failed files.old) (F.failed files.new)) }
    ensures err { IfErr result (GivesUp
        (behaviour_asked (possible (F.content files.old) M.may_take) words.now)
        (F.failed files.old) (F.failed files.new)) }
{
    match read_words(alloc, words)? {
        Command::Check(script) => check_script(alloc, files, script),
        Command::Run(request) => run_script(alloc, files, meter, &request),
        Command::Make(number, Some(part)) => make_text(alloc, number, part),
        Command::Make(number, None) => make_summary(alloc, number, meter),
    }
}

/// Writes what a command ended with, its text or the line of its refusal, and answers the status.
pub fn tell<S: Sink>(alloc: Global, out: &mut S, ended: Result<Output, Refusal>) -> u8
    ensures answered { IfOk ended (λ output. IsWritten
        (record { written = S.written out.old; faults = S.faults out.old })
        (record { written = S.written out.new; faults = S.faults out.new })
        output.text.items output.status result) }
    ensures refused { IfErr ended (λ refusal. IsRefusalWritten
        (record { written = S.written out.old; faults = S.faults out.old })
        (record { written = S.written out.new; faults = S.faults out.new }) refusal result) }
{
    match ended {
        Ok(output) => write_text(out, output.text.as_slice(), output.status),
        Err(refusal) => write_refusal(alloc, out, &refusal),
    }
}

// Writes a text and answers its status, or that of a write error if the writing fails.
fn write_text<S: Sink>(out: &mut S, text: &[u8], status: u8) -> u8
    ensures { IsWritten (record { written = S.written out.old; faults = S.faults out.old })
        (record { written = S.written out.new; faults = S.faults out.new }) text.now status result }
{
    match write_all(out, text) {
        Ok(()) => status,
        Err(_) => CANNOT_WRITE,
    }
}

// Writes the line of a refusal and answers its status, or that of a write error if the writing
// fails.
fn write_refusal<S: Sink>(alloc: Global, out: &mut S, refusal: &Refusal) -> u8
    ensures { IsRefusalWritten (record { written = S.written out.old; faults = S.faults out.old })
        (record { written = S.written out.new; faults = S.faults out.new }) refusal.now result }
{
    match format!(in alloc; "{refusal}\n") {
        Ok(line) => write_text(out, line.as_bytes(), status_of(refusal)),
        Err(AllocError) => end_without_memory(out),
    }
}

/// Writes that memory ran out, and answers the status of that, or of a write error if the writing
/// fails. It never allocates.
pub fn end_without_memory<S: Sink>(out: &mut S) -> u8
    ensures { IsWritten (record { written = S.written out.old; faults = S.faults out.old })
        (record { written = S.written out.new; faults = S.faults out.new })
        (error_bytes Refusal.OutOfMemory) memory_status result }
{
    write_text(out, OUT_OF_MEMORY_LINE.as_bytes(), OUT_OF_MEMORY)
}
