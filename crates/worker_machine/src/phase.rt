// What a worker is to do next.
use bench_cell::Bench;
use plan_ast::Answer;
use slot_station::{Announcer, Coordinator, Debt, Holder, Spent};
use turn_model::Turn;

/// What a step came to.
#[derive(Clone, Copy, Debug, PartialEq, Eq)]
pub enum Stepped {
    /// The turn goes on.
    More,
    /// The turn ended.
    End(Turn),
}

/// The call that a worker makes next, with what it has in hand for it.
#[derive(Drop)]
pub enum Phase {
    /// No turn is under way; the last one ended so. A turn begins with the first return part.
    Ready(Turn),
    /// Takes further return parts.
    Return(u32),
    /// Takes change parts.
    Change(u32),
    /// Asks for the number of task sets that are done.
    Count,
    /// Asks for the number of admitted queries.
    Arrive,
    /// Reserves this slot, or one after it, for the query that is due.
    Scan(u32),
    /// Admits the query.
    Admit(Holder),
    /// Puts the bench of this worker and of those above it, which are in hand, into the cells.
    Put(Holder, u32),
    /// Sets the total of the next task set.
    Size(Holder),
    /// Installs it.
    Install(Holder),
    /// Tells the next worker of it.
    Tell(Announcer),
    /// Notes the rest of the query's task sets as done: memory ran out.
    Give(Holder),
    /// Releases the slot.
    FreeIt(Holder),
    /// Enters the chosen slot.
    Enter(u32),
    /// Looks at it.
    Look(u32),
    /// Leaves it without a claim.
    Early,
    /// Takes its own bench of the slot and task set.
    Take(u32, u32),
    /// Claims a range for the bench.
    Claim(u32, u32, Bench),
    /// Shuts the task set.
    Shut(Spent, Bench),
    /// Puts its own bench back.
    Back(Option<Coordinator>, Bench),
    /// Leaves the slot.
    Leave(Option<Coordinator>),
    /// Asks the next worker whether it is at the slot.
    Ask(Coordinator),
    /// Ends the asking.
    Sweep(Coordinator),
    /// Pays what it owes.
    Pay(Debt),
    /// Fetches the bench of this worker; those of the workers below it are in hand.
    Fetch(Holder, u32),
    /// Notes the task set as done: with the answer if it was the query's last, else with the
    /// benches of the next one in hand.
    Note(Holder, Option<Answer>),
}
