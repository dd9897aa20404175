// What a run reports: replies, shares, gaps and the journal of task sets.
use crate::replies::QueryReply;
use col_table::ListOf;

/// A claimed morsel: the tuples from `from` up to but without `to`, claimed by a worker.
#[derive(Clone, Copy, Debug, PartialEq, Eq)]
pub struct ClaimOf {
    pub from: u32,
    pub to: u32,
    pub worker: u32,
}

/// The record of a finalised task set.
///
/// It names the query and the stage, both from 0, the slot, the number of tuples, and the worker
/// that finalised it. The claims ascend by where they begin. A task set that ran out of memory is
/// short, and its record has no claims.
#[derive(Debug, Drop)]
pub struct Record {
    pub query: u32,
    pub stage: u32,
    pub slot: u32,
    pub total: u32,
    pub finisher: u32,
    pub short: bool,
    pub claims: ListOf<ClaimOf>,
}

/// What a worker did for a query: the morsels and tuples that it worked on, the time that they
/// took in nanoseconds, and the priority that the query has with this worker at the end.
#[derive(Clone, Copy, Debug, PartialEq, Eq)]
pub struct Share {
    pub worker: u32,
    pub query: u32,
    pub ranges: u64,
    pub tuples: u64,
    pub ns: u128,
    pub priority: u32,
}

/// How far apart a worker's passes were: the widest gap of two slots that were active at the same
/// time, and the largest advance.
#[derive(Clone, Copy, Debug, PartialEq, Eq)]
pub struct Gap {
    pub worker: u32,
    pub widest: u128,
    pub largest: u64,
}

/// The report of a run. Replies ascend by query, records by query and stage, shares by worker and
/// query, gaps by worker.
#[derive(Debug, Drop)]
pub struct Report {
    pub replies: ListOf<QueryReply>,
    pub records: ListOf<Record>,
    pub shares: ListOf<Share>,
    pub gaps: ListOf<Gap>,
}
