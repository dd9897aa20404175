//! Numbers that only contracts see.
ghost use Rattle.std.specs.Prelude.{◌≡◌, List, ℕ, [], ◌∷◌, ◌++◌, IfOk, reverse};

use crate::ghost_list::GhostList;
use std::alloc::{AllocError, Global};
use std::marker::Model;

/// The numbers noted so far, in the order of noting: one word at run time, and contracts see the
/// list.
#[derive(Drop)]
pub struct Memo {
    numbers: GhostList<u64>,
}

impl Model for Memo {
    ghost Value = { List ℕ };

    ghost view = { λ m. reverse m.numbers };
}

impl Memo {
    /// Nothing is noted yet.
    pub fn new(alloc: Global) -> Result<Memo, AllocError>
        ensures { IfOk result (λ m. m ≡ []) }
    {
        Ok(Memo {
            numbers: GhostList::new(alloc)?,
        })
    }

    /// Notes one more number. It takes no memory.
    pub fn note(&mut self, value: u64)
        ensures { self.new ≡ self.old ++ value ∷ [] }
    {
        self.numbers.push(&value);
    }
}
