// The report of a run, from what its workers tell.
ghost use Rattle.std.specs.Prelude.{◌≡◌, ◌≤◌, ◌+◌, ◌*◌, ◌++◌, ◌∷◌, [], IfOk, OnOk};
ghost use Rattle.std.specs.Prelude.{IsPermutation, IsSortedByKey};
ghost use Rattle.std.specs.Ordering.{nat_cmp};
ghost use Rattle.turn_model.specs.Reports.{id_of_record};
ghost use Rattle.pool_run.specs.Collected.{HaveTold, IsToldBy};
ghost use Rattle.pool_run.specs.Scenes.{NoneTurns};

use bench_cell::Plan;
use col_table::ListOf;
use report_text::{Gap, QueryReply, Record, Report, Share};
use slot_station::Memo;
use std::alloc::{AllocError, Global};
use worker_machine::{Worker, WorkerParts};

// The report of a run and, at place w, the elapsed times of worker w.
#[derive(Drop)]
pub(crate) struct Told {
    pub report: Report,
    pub times: Vec<Memo>,
}

// What workers told so far, in the order of the workers.
#[derive(Drop)]
pub(crate) struct Parts {
    pub replies: Vec<QueryReply>,
    pub records: Vec<Record>,
    pub shares: Vec<Share>,
    pub gaps: Vec<Gap>,
    pub times: Vec<Memo>,
}

impl Parts {
    ghost use Rattle.std.specs.Prelude.{◌≡◌, ◌≤◌, ◌++◌, ◌∷◌, [], true, IfOk, OnOk, List};
    ghost use Rattle.slot_history.specs.declared.shape.TheConstants.{MOST_WORKERS};
    ghost use Rattle.worker_machine.specs.declared.state.Worker.{Worker};
    ghost use Rattle.worker_machine.specs.Left.{is_ready};
    ghost use Rattle.pool_run.specs.Collected.{HaveTold, IsToldBy};

    // Nothing, with room for all that the workers of a plan tell.
    pub(crate) fn new(alloc: Global, plan: &Plan, workers: u32) -> Result<Parts, AllocError>
        requires { workers ≤ MOST_WORKERS }
        ensures { IfOk result (HaveTold []) }
    {
        let workers = workers as usize;
        let queries = plan.len() as usize;
        Ok(Parts {
            replies: Vec::with_capacity(alloc, queries)?,
            records: Vec::with_capacity(alloc, plan.sets() as usize)?,
            shares: Vec::with_capacity(alloc, workers * queries)?,
            gaps: Vec::with_capacity(alloc, workers)?,
            times: Vec::with_capacity(alloc, workers)?,
        })
    }

    // What the next worker tells, moved behind that of those before it.
    pub(crate) fn add(&mut self, worker: Worker) -> Result<(), AllocError>
        requires { is_ready worker.phase ≡ true }
        ensures { OnOk result ((team : List Worker) → HaveTold team self.old
            → HaveTold (team ++ worker ∷ []) self.new) }
    {
        let WorkerParts {
            mut replies,
            mut records,
            mut shares,
            gap,
            times,
        } = worker.into_parts();
        self.replies.append(&mut replies)?;
        self.records.append(&mut records)?;
        self.shares.append(&mut shares)?;
        self.gaps.push(gap)?;
        self.times.push(times)?;
        Ok(())
    }

    // The report, in its order, and the times.
    fn told(self) -> Told
        ensures { (team : List Worker) → HaveTold team self
            → IsToldBy team result.report result.times.items }
    {
        let Parts {
            mut replies,
            mut records,
            shares,
            gaps,
            times,
        } = self;
        sort_replies(&mut replies);
        sort_records(&mut records);
        let report = Report {
            replies: ListOf::of(replies),
            records: ListOf::of(records),
            shares: ListOf::of(shares),
            gaps: ListOf::of(gaps),
        };
        Told { report, times }
    }
}

// What the workers of a run tell. No turn is under way.
pub(crate) fn collect(team: Vec<Worker>, mut parts: Parts) -> Result<Told, AllocError>
    requires none { NoneTurns team.items }
    requires parts { HaveTold [] parts }
    ensures { IfOk result (λ told. IsToldBy team.items told.report told.times.items) }
{
    for worker in team {
        parts.add(worker)?;
    }
    Ok(parts.told())
}

fn sort_replies(replies: &mut Vec<QueryReply>)
    ensures moved { IsPermutation replies.old.items replies.new.items }
    ensures sorted { IsSortedByKey (λ reply. reply.query) nat_cmp replies.new.items }
{
    replies.sort_unstable_by(|one, other| one.query.cmp(&other.query));
}

fn sort_records(records: &mut Vec<Record>)
    ensures moved { IsPermutation records.old.items records.new.items }
    ensures sorted { IsSortedByKey id_of_record nat_cmp records.new.items }
{
    records.sort_unstable_by(|one, other| number(one).cmp(&number(other)));
}

// The number of the task set of a record.
fn number(kept: &Record) -> u64
    ensures { result ≡ id_of_record kept.now }
{
    let query = u64::from(kept.query);
    let stage = u64::from(kept.stage);
    query * 8 + stage
}
