// How much a worker worked for each query.
ghost use Rattle.std.specs.Prelude.{◌≡◌, ◌≤◌, ◌<◌, ℕ};
ghost use Rattle.std.specs.Vec.{vec_capacity};
ghost use Rattle.turn_model.specs.Shares.{AscendWithin, counted, with_range};
ghost use Rattle.worker_machine.specs.Counting.{as_range};

use report_text::Share;

// A range of a query that a worker worked on.
#[derive(Clone, Copy)]
pub(crate) struct Worked {
    pub worker: u32,
    pub query: u32,
    pub tuples: u32,
    pub ns: u64,
    // The query's priority at the worker after the range.
    pub priority: u32,
}

// Counts one more range in the worker's share of its query. The shares ascend by query. There is
// room for one of each query (`HasShares`): a worker has no more than that.
pub(crate) fn count_range(shares: &mut Vec<Share>, range: Worked)
    ensures room { vec_capacity shares.old ≤ vec_capacity shares.new }
    ensures counted { (queries : ℕ) → AscendWithin 0 queries shares.old.items
        → range.query < queries → queries ≤ vec_capacity shares.old
        → shares.new.items ≡ counted (as_range range) shares.old.items }
{
    let at = shares.partition_point(|share| share.query < range.query);
    if at < shares.len() && shares[at].query == range.query {
        add(&mut shares[at], &range);
    } else {
        let mut share = Share {
            worker: range.worker,
            query: range.query,
            ranges: 0,
            tuples: 0,
            ns: 0,
            priority: 0,
        };
        add(&mut share, &range);
        let _room = shares.insert(at, share);
    }
}

fn add(share: &mut Share, range: &Worked)
    ensures { share.new ≡ with_range (as_range range.now) share.old }
{
    share.ranges = share.ranges.saturating_add(1);
    share.tuples = share.tuples.saturating_add(u64::from(range.tuples));
    share.ns = share.ns.saturating_add(u128::from(range.ns));
    share.priority = range.priority;
}
