//! The command `check`: the answers to the queries of a script, one after another.
ghost use Rattle.std.specs.Prelude.{◌≡◌, ◌≤◌, ℕ, List, All, IfErr, IfOk, length, map};
ghost use Rattle.plan_ast.specs.Checks.{IsCheckedFor, query_of};
ghost use Rattle.sched_tool.specs.CheckCommand.{check_behaviour, check_text, replies_of};
ghost use Rattle.sched_tool.specs.Commands.{Gives, GivesUp};
ghost use Rattle.sched_tool.specs.Outsides.{may_hold};

use super::output::Output;
use super::refusal::Refusal;
use super::subject::{Opened, open_subject};
use outside_io::Files;
use pipe_ops::plain_answer;
use plan_ast::{Checked, NamedTable};
use report_text::{QueryReply, Reply, answers_text};
use std::alloc::{AllocError, Global};

/// `check` of the script in a file: the answer to each query, and `end`.
///
/// The script is read first, then each of its tables; then each query is checked, and last each is
/// answered. The first refusal ends it.
pub fn check_script<F: Files>(alloc: Global, files: &mut F, file: &str) -> Result<Output, Refusal>
    ensures kept { (any : List ℕ) → F.content files.new any ≡ F.content files.old any }
    ensures ok { IfOk result (Gives
        (check_behaviour (may_hold (F.content files.old)) file.now)
        (F.failed files.old) (F.failed files.new)) }
    ensures err { IfErr result (GivesUp
        (check_behaviour (may_hold (F.content files.old)) file.now)
        (F.failed files.old) (F.failed files.new)) }
{
    let Opened { tables, queries } = open_subject(alloc, files, file)?;
    let text = text_of(alloc, tables.as_slice(), queries.as_slice())?;
    Ok(Output::whole(text))
}

// Answers each query, and writes the answers out.
fn text_of(alloc: Global, tables: &[NamedTable], checked: &[Checked]) -> Result<Vec<u8>, AllocError>
    requires placed { All (IsCheckedFor tables.now) checked.now }
    requires few { length checked.now ≤ 4096 }
    ensures { IfOk result (λ text. text.items
        ≡ check_text (record { tables = tables.now; queries = map query_of checked.now })) }
{
    let replies = answer_queries(alloc, tables, checked)?;
    let mut text = answers_text(alloc, replies.as_slice())?;
    text.extend_from_slice(b"end\n")?;
    Ok(text)
}

// Answers each query, in order.
fn answer_queries(
    alloc: Global,
    tables: &[NamedTable],
    checked: &[Checked],
) -> Result<Vec<QueryReply>, AllocError>
    requires placed { All (IsCheckedFor tables.now) checked.now }
    requires few { length checked.now ≤ 4096 }
    ensures { IfOk result (λ replies. replies.items
        ≡ replies_of (record { tables = tables.now; queries = map query_of checked.now })) }
{
    let mut replies = Vec::with_capacity(alloc, checked.len())?;
    for (query, checked) in checked.iter().enumerate() {
        replies.push(QueryReply {
            query: query as u32,
            reply: Reply::Answer(plain_answer(alloc, checked, tables)?),
        })?;
    }
    Ok(replies)
}
