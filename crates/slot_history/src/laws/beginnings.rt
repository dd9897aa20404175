//! Beginnings of a history: what a worker that knows one knows of the whole.

ghost use Rattle.slot_history.specs.Beginnings as law;

/// A beginning of a legal history is legal. Of two beginnings of one history, one begins the other.
///
/// Ruled out: a call that was allowed only because of a later one.
pub fn beginnings_nest()
    ensures legal { law.BeginningsAreLegal }
    ensures nest { law.BeginningsNest }
{}

/// A beginning that has all own calls of every worker is the whole history. What lies between a
/// beginning that has all own calls of a worker and the whole, has them too.
///
/// Ruled out: a call by no worker of the shape.
pub fn whole_by_own_calls()
    ensures whole { law.WholeByOwnCalls }
    ensures between { law.OwnCallsBetween }
{}

/// Calls of others leave a worker's place, its ranges and its notice records as they are.
///
/// Ruled out: a mark that moves the worker that is marked.
pub fn others_leave_it()
    ensures { law.OthersLeaveIt }
{}

/// What a beginning says of a task set stays: its total and its slot from its install on, and from
/// its last call on also its claims, and so the ranges of each worker.
///
/// Ruled out: a second install of one task set, and a claim after its last call.
pub fn task_sets_stay()
    ensures { law.TaskSetsStay }
{}

/// The task set that a worker finalises had its last call, and its claims tile the total of its
/// install. A beginning that has all own calls of this worker has all claims of the task set,
/// whoever made them.
///
/// Ruled out: a worker that finalises before it has seen every claim of its task set.
pub fn holder_has_claims()
    ensures tiles { law.HolderTiles }
    ensures claims { law.HolderHasClaims }
{}
