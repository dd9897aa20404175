//! How large an object is, and the limits that every crate cites.

/// The most slots of an object.
pub const MOST_SLOTS: u32 = 128;

/// How many mask words of 64 slots each a worker has of each kind of notice.
pub const PARTS: u32 = 2;

/// The most workers of an object.
pub const MOST_WORKERS: u32 = 64;

/// The most queries of a subject.
pub const MOST_QUERIES: u32 = 4096;

/// The number of stages that a query's ids are spaced by: stage `k` of query `q` has the id `STAGES
/// * q + k`.
pub const STAGES: u32 = 8;

/// The most tuples that one claim asks for.
pub const MOST_CLAIM: u32 = 65_536;

/// The most tuples of a task set.
pub const MOST_TOTAL: u32 = 1_048_576;

/// The numbers of workers, slots and queries of an object.
#[derive(Clone, Copy, Debug, PartialEq, Eq)]
pub struct Shape {
    /// 1 to `MOST_WORKERS`.
    pub workers: u32,
    /// 1 to `MOST_SLOTS`.
    pub slots: u32,
    /// 0 to `MOST_QUERIES`.
    pub queries: u32,
}
