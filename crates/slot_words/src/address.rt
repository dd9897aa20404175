//! The words by name, and where each lies among all words.

ghost use Rattle.std.specs.Prelude.{◌≡◌, ◌<◌, ◌^◌};
ghost use Rattle.slot_words.specs.Addresses as indices;

use slot_history::shape::{PARTS, Shape};

/// A word of the object, by name. Slots, workers and parts of masks are counted from 0.
#[derive(Clone, Copy, Debug, PartialEq, Eq)]
pub enum Address {
    /// 0 for ever.
    Meeting,
    /// How many queries are admitted.
    ArrivalsAt,
    /// How many task sets are noted as done.
    FinishedAt,
    /// The state of a slot.
    StateOf(u32),
    /// The total and the cursor of a slot.
    CursorOf(u32),
    /// The counter of the debts at a slot.
    CounterOf(u32),
    /// The state of a worker: where it is, and whether it is marked.
    WorkerOf(u32),
    /// The pending return notices of a worker, of the 64 slots of a part.
    ReturnOf(u32, u32),
    /// The pending change notices of a worker, of the 64 slots of a part.
    ChangeOf(u32, u32),
}

/// The index of the first word of a worker, its state. Its masks follow.
fn worker_index(shape: &Shape, worker: u32) -> usize
    ensures index { result ≡ indices.worker_index shape.now worker }
    ensures small { result < 2 ^ 40 }
{
    3 + 3 * shape.slots as usize + (1 + 2 * PARTS as usize) * worker as usize
}

/// The index of a word: three single words, then three for each slot, then those of each worker.
pub fn index(shape: &Shape, address: Address) -> usize
    ensures { result ≡ indices.index shape.now address }
{
    match address {
        Address::Meeting => 0,
        Address::ArrivalsAt => 1,
        Address::FinishedAt => 2,
        Address::StateOf(s) => 3 + 3 * s as usize,
        Address::CursorOf(s) => 4 + 3 * s as usize,
        Address::CounterOf(s) => 5 + 3 * s as usize,
        Address::WorkerOf(w) => worker_index(shape, w),
        Address::ReturnOf(w, part) => worker_index(shape, w) + 1 + part as usize,
        Address::ChangeOf(w, part) => {
            worker_index(shape, w) + 1 + PARTS as usize + part as usize
        }
    }
}

/// How many words there are.
pub fn count_of_words(shape: &Shape) -> usize
    ensures { result ≡ indices.count_of_words shape.now }
{
    worker_index(shape, shape.workers)
}
