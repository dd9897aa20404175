//! What a command gives to be written.
ghost use Rattle.std.specs.Prelude.{◌≡◌, MatchBool};
ghost use Rattle.report_text.specs.declared.replies.Reply.{Reply};
ghost use Rattle.sched_tool.specs.Runs.{AnswerAll, FitsReplies, IsAnswer, LackAnswer};
ghost use Rattle.sched_tool.specs.Statuses.{answer_status};

use super::status::{ANSWERED, OUT_OF_MEMORY};
use report_text::{QueryReply, Reply};

/// A text, and the status that the program ends with once the text is written: `ANSWERED` if every
/// query is answered, and `OUT_OF_MEMORY` if a query ran out of memory.
#[derive(Debug, Drop)]
pub struct Output {
    pub text: Vec<u8>,
    pub status: u8,
}

impl Output {
    /// The text of a command that answers every query.
    pub fn whole(text: Vec<u8>) -> Output
        ensures text { result.text ≡ text }
        ensures status { result.status ≡ answer_status }
    {
        Output {
            text,
            status: ANSWERED,
        }
    }

    /// The text of a run with these replies.
    pub fn of_run(text: Vec<u8>, replies: &[QueryReply]) -> Output
        ensures text { result.text ≡ text }
        ensures status { FitsReplies result.status replies.now }
    {
        let status = if lack_answer(replies) {
            OUT_OF_MEMORY
        } else {
            ANSWERED
        };
        Output { text, status }
    }
}

// Whether a query ran out of memory.
fn lack_answer(replies: &[QueryReply]) -> bool
    ensures { MatchBool result (LackAnswer replies.now) (AnswerAll replies.now) }
{
    for told in replies {
        if says_memory(&told.reply) {
            return true;
        }
    }
    false
}

// Whether a reply says that memory ran out.
fn says_memory(reply: &Reply) -> bool
    ensures { MatchBool result (reply.now ≡ Reply.Memory) (IsAnswer reply.now) }
{
    matches!(reply, Reply::Memory)
}
