// A worker.
use crate::kept::Core;
use crate::phase::Phase;

/// A worker: what it keeps, and what it is to do next.
#[derive(Drop)]
pub struct Worker {
    pub(crate) core: Core,
    /// Whether a turn is under way, and with which call it goes on.
    pub phase: Phase,
}
