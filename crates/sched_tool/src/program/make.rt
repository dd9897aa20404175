//! The command `make`: the text of a part of a large input.
ghost use Rattle.std.specs.Prelude.{ℕ, List, IfErr, IfOk};
ghost use Rattle.sched_tool.specs.MakeCommand.{make_behaviour};
ghost use Rattle.sched_tool.specs.Commands.{Gives, GivesUp};

use super::output::Output;
use super::refusal::Refusal;
use load_gen::{Part, make_part};
use std::alloc::Global;

/// `make` of a part of a number's large input: its text, which is made whole before it is written.
/// It reads no file.
pub fn make_text(alloc: Global, number: u32, part: Part) -> Result<Output, Refusal>
    ensures ok { IfOk result (λ output. (failed : List (List ℕ))
        → Gives (make_behaviour number part) failed failed output) }
    ensures err { IfErr result (λ refusal. (failed : List (List ℕ))
        → GivesUp (make_behaviour number part) failed failed refusal) }
{
    let text = make_part(alloc, number, part)?;
    Ok(Output::whole(text))
}
