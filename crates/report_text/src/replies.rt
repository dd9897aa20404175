// The replies to the queries of a run.
use plan_ast::Answer;

/// The reply to a query: its answer, or that it ran out of memory.
#[derive(Debug, Drop)]
pub enum Reply {
    Answer(Answer),
    Memory,
}

/// The reply to a query, with the query's number in the script, from 0.
#[derive(Debug, Drop)]
pub struct QueryReply {
    pub query: u32,
    pub reply: Reply,
}
