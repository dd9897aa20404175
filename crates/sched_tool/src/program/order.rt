//! The order of the workers' turns or steps, read from its text.
ghost use Rattle.std.specs.Prelude.{◌≡◌, ◌≤◌, ◌<◌, All, IfErr, IfOk, Some, length};
ghost use Rattle.sched_tool.specs.Requests.{IsUnread};
ghost use Rattle.sched_tool.specs.Lines.{text_of};
ghost use Rattle.sched_tool.specs.Words.{list_of, order_of};
ghost use Rattle.pool_run.specs.declared.runs.TheConstants.{MOST_NUMBERS};

use super::refusal::Refusal;
use super::words::number_of;
use std::alloc::Global;

/// The most numbers in an order.
pub const MOST_NUMBERS: usize = 4096;

/// Reads an order: numbers of workers with a comma between, at most `MOST_NUMBERS`. It is empty if
/// none is given.
pub fn read_order(alloc: Global, workers: u32, text: Option<&str>) -> Result<Vec<u32>, Refusal>
    requires { 1 ≤ workers }
    ensures is { IfOk result (λ order. order_of workers (text_of text.entry) ≡ Some order.items) }
    ensures below { IfOk result (λ order. All (λ worker. worker < workers) order.items) }
    ensures few { IfOk result (λ order. length order.items ≤ MOST_NUMBERS) }
    ensures err { IfErr result (IsUnread (order_of workers (text_of text.entry))) }
{
    let Some(text) = text else {
        return Ok(Vec::new(alloc));
    };
    let list = read_list(alloc, text, workers - 1)?;
    Ok(list)
}

// Reads numbers with a comma between, each at most the greatest.
fn read_list(alloc: Global, text: &str, greatest: u32) -> Result<Vec<u32>, Refusal>
    ensures ok { IfOk result (λ list. list_of greatest text.now ≡ Some list.items) }
    ensures err { IfErr result (IsUnread (list_of greatest text.now)) }
{
    let mut list = Vec::new(alloc);
    let mut rest = text;
    while let Some((field, more)) = rest.split_once(',') {
        list.push(number_of(field, 9, 0, greatest)?)?;
        if list.len() == MOST_NUMBERS {
            return Err(Refusal::Usage);
        }
        rest = more;
    }
    list.push(number_of(rest, 9, 0, greatest)?)?;
    Ok(list)
}
