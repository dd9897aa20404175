//! How turns end.

/// How a turn of a worker ended.
#[derive(Clone, Copy, Debug, PartialEq, Eq)]
pub enum Turn {
    /// A query was admitted, or a slot was visited.
    Acted,
    /// No slot was active and no query could be admitted, and task sets are left.
    Idle,
    /// No slot was active and no query could be admitted, and no task set is left.
    Over,
}
