//! A run that words ask for.

/// How the workers of a run follow one another.
#[derive(Drop)]
pub enum Course {
    /// On one thread: a whole turn of each worker of this order; then rounds of whole turns.
    Turns(Vec<u32>),
    /// On one thread: a single step of each worker of this order; then the turns under way are
    /// ended, and rounds of whole turns follow.
    Steps(Vec<u32>),
    /// In no order: each worker has a thread of its own.
    Threads,
}

/// A run of the script in a file.
#[derive(Drop)]
pub struct Request<'a> {
    pub script: &'a str,
    /// 1 to `MOST_WORKERS`.
    pub workers: u32,
    /// 1 to `MOST_SLOTS`.
    pub slots: u32,
    pub course: Course,
}
