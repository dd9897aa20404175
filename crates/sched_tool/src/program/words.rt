//! What the words after the program's name mean.
ghost use Rattle.std.specs.Prelude.{◌≡◌, ◌≤◌, Some, IfErr, IfOk};
ghost use Rattle.std.specs.Char.{is_ascii_digit};
ghost use Rattle.std.specs.List.{list_all};
ghost use Rattle.slot_history.specs.declared.shape.TheConstants.{MOST_SLOTS, MOST_WORKERS};
ghost use Rattle.sched_tool.specs.Requests.{CanRun, IsRunnable, IsOrder, IsUnread, asked};
ghost use Rattle.sched_tool.specs.Requests.{asked_by, course_of, request_of};
ghost use Rattle.pool_run.specs.Runs.{order_of};
ghost use Rattle.sched_tool.specs.Lines.{seen, text_of};
ghost use Rattle.sched_tool.specs.Words.{course_in, is_bare, make_of, meaning_in, number_of};
ghost use Rattle.sched_tool.specs.Words.{part_of, run_of, script_of, slots_of, workers_of};

use super::line::{Line, read_line};
use super::order::read_order;
use super::refusal::Refusal;
use super::request::{Course, Request};
use load_gen::Part;
use slot_history::{MOST_SLOTS, MOST_WORKERS};
use std::alloc::Global;

/// What the program is asked for.
#[derive(Drop)]
pub enum Command<'a> {
    /// The answers to the queries of the script in this file.
    Check(&'a str),
    /// A run of a script, on one thread or by threads.
    Run(Request<'a>),
    /// The text of this part of the large input of this number, or the summary of its run.
    Make(u32, Option<Part>),
}

/// Reads the words after the program's name: the command first, then those that its line in the
/// grammar has. All other lists of words are outside the grammar.
///
/// ```text
/// check SCRIPT
/// turns SCRIPT --workers N [--slots N] [--order LIST]
/// steps SCRIPT --workers N [--slots N] [--order LIST]
/// run SCRIPT --workers N [--slots N]
/// make NUMBER [PART]
/// ```
///
/// SCRIPT has at least one byte. N is written in one to nine digits: 1 to `MOST_WORKERS` workers,
/// and 1 to `MOST_SLOTS` slots (that many by default). LIST is 1 to `MOST_NUMBERS` such numbers with
/// a comma between, each below the number of workers. NUMBER is at most 4,294,967,295, in one to
/// ten digits. PART is `script`, `t` or `u`.
pub fn read_words(alloc: Global, words: &[String]) -> Result<Command<'_>, Refusal>
    ensures meant { IfOk result (λ command. asked words.now ≡ Some (asked_by command)) }
    ensures runnable { IfOk result CanRun }
    ensures err { IfErr result (IsUnread (asked words.now)) }
{
    match words {
        [] => Err(Refusal::Usage),
        [command, rest @ ..] => match read_line(rest) {
            Some(line) => read_command(alloc, command.as_str(), line),
            None => Err(Refusal::Usage),
        },
    }
}

// Reads a command with what the words after it give.
fn read_command<'a>(alloc: Global, command: &str, line: Line<'a>) -> Result<Command<'a>, Refusal>
    ensures meant { IfOk result
        (λ told. meaning_in command.now (seen line.entry) ≡ Some (asked_by told)) }
    ensures runnable { IfOk result CanRun }
    ensures err { IfErr result (IsUnread (meaning_in command.now (seen line.entry))) }
{
    match command {
        "check" => {
            if is_bare(line) {
                Ok(Command::Check(read_script(line.first, line.second)?))
            } else {
                Err(Refusal::Usage)
            }
        }
        "make" => {
            if is_bare(line) {
                read_make(line.first, line.second)
            } else {
                Err(Refusal::Usage)
            }
        }
        _ => Ok(Command::Run(read_run(alloc, command, line)?)),
    }
}

// Whether no option is given.
fn is_bare(line: Line<'_>) -> bool
    ensures { result ≡ is_bare (seen line.entry) }
{
    line.workers.is_none() && line.slots.is_none() && line.order.is_none()
}

// Reads the positional words of a command that has a script's file alone.
fn read_script<'a>(file: Option<&'a str>, more: Option<&'a str>) -> Result<&'a str, Refusal>
    ensures ok { IfOk result
        (λ script. script_of (text_of file.entry) (text_of more.entry) ≡ Some script.now) }
    ensures err { IfErr result (IsUnread (script_of (text_of file.entry) (text_of more.entry))) }
{
    match (file, more) {
        (Some(file), None) if !file.is_empty() => Ok(file),
        _ => Err(Refusal::Usage),
    }
}

// Reads the number and the part of `make`.
fn read_make<'a>(number: Option<&str>, part: Option<&str>) -> Result<Command<'a>, Refusal>
    ensures meant { IfOk result
        (λ told. make_of (text_of number.entry) (text_of part.entry) ≡ Some (asked_by told)) }
    ensures runnable { IfOk result CanRun }
    ensures err { IfErr result (IsUnread (make_of (text_of number.entry) (text_of part.entry))) }
{
    let Some(number) = number else {
        return Err(Refusal::Usage);
    };
    let number = number_of(number, 10, 0, u32::MAX)?;
    match part {
        None => Ok(Command::Make(number, None)),
        Some(part) => match part_of(part) {
            Some(part) => Ok(Command::Make(number, Some(part))),
            None => Err(Refusal::Usage),
        },
    }
}

// Reads a run: a script's file, the options, and the course of this command.
fn read_run<'a>(alloc: Global, command: &str, line: Line<'a>) -> Result<Request<'a>, Refusal>
    ensures meant { IfOk result
        (λ told. run_of command.now (seen line.entry) ≡ Some (request_of told)) }
    ensures runnable { IfOk result (λ told. IsRunnable (request_of told)) }
    ensures err { IfErr result (IsUnread (run_of command.now (seen line.entry))) }
{
    let script = read_script(line.first, line.second)?;
    let workers = workers_of(line.workers)?;
    let slots = slots_of(line.slots)?;
    let course = read_course(alloc, command, workers, line.order)?;
    Ok(Request {
        script,
        workers,
        slots,
        course,
    })
}

// The number of workers, which must be given.
fn workers_of(text: Option<&str>) -> Result<u32, Refusal>
    ensures is { IfOk result (λ workers. workers_of (text_of text.entry) ≡ Some workers) }
    ensures within { IfOk result (λ workers. (1 ≤ workers) × (workers ≤ MOST_WORKERS)) }
    ensures err { IfErr result (IsUnread (workers_of (text_of text.entry))) }
{
    match text {
        None => Err(Refusal::Usage),
        Some(text) => number_of(text, 9, 1, MOST_WORKERS),
    }
}

// The number of slots.
fn slots_of(text: Option<&str>) -> Result<u32, Refusal>
    ensures is { IfOk result (λ slots. slots_of (text_of text.entry) ≡ Some slots) }
    ensures within { IfOk result (λ slots. (1 ≤ slots) × (slots ≤ MOST_SLOTS)) }
    ensures err { IfErr result (IsUnread (slots_of (text_of text.entry))) }
{
    match text {
        None => Ok(MOST_SLOTS),
        Some(text) => number_of(text, 9, 1, MOST_SLOTS),
    }
}

// The course of the runs of a command, with the order if one is given: `run` has none.
fn read_course(
    alloc: Global,
    command: &str,
    workers: u32,
    order: Option<&str>,
) -> Result<Course, Refusal>
    requires { 1 ≤ workers }
    ensures meant { IfOk result
        (λ course. course_in command.now workers (text_of order.entry) ≡ Some (course_of course)) }
    ensures within { IfOk result (λ course. IsOrder workers (order_of (course_of course))) }
    ensures err { IfErr result (IsUnread (course_in command.now workers (text_of order.entry))) }
{
    match command {
        "turns" => Ok(Course::Turns(read_order(alloc, workers, order)?)),
        "steps" => Ok(Course::Steps(read_order(alloc, workers, order)?)),
        "run" if order.is_none() => Ok(Course::Threads),
        _ => Err(Refusal::Usage),
    }
}

// The part of a large input that a word names.
fn part_of(word: &str) -> Option<Part>
    ensures { result ≡ part_of word.now }
{
    match word {
        "script" => Some(Part::Script),
        "t" => Some(Part::TableT),
        "u" => Some(Part::TableU),
        _ => None,
    }
}

/// The number that a word writes: one to so many decimal digits, from the least to the greatest.
pub fn number_of(word: &str, most: usize, least: u32, greatest: u32) -> Result<u32, Refusal>
    ensures is { IfOk result (λ number. number_of most least greatest word.now ≡ Some number) }
    ensures within { IfOk result (λ number. (least ≤ number) × (number ≤ greatest)) }
    ensures err { IfErr result (IsUnread (number_of most least greatest word.now)) }
{
    if word.len() > most || !are_digits(word.as_bytes()) {
        return Err(Refusal::Usage);
    }
    match word.parse::<u32>() {
        Ok(number) => {
            if least <= number && number <= greatest {
                Ok(number)
            } else {
                Err(Refusal::Usage)
            }
        }
        Err(_) => Err(Refusal::Usage),
    }
}

// Whether all bytes are decimal digits.
fn are_digits(text: &[u8]) -> bool
    ensures { result ≡ list_all is_ascii_digit text.now }
{
    for byte in text {
        if !byte.is_ascii_digit() {
            return false;
        }
    }
    true
}
