//! The words at the start.

ghost use Rattle.std.specs.Prelude.{◌≡◌, IfOk};
ghost use Rattle.slot_history.specs.Bounds.{IsShape};
ghost use Rattle.slot_words.specs.Words.{AreFirst};

use crate::address::{Address, count_of_words, index};
use crate::encoding::counter_word;
use slot_history::shape::Shape;
use std::alloc::{AllocError, Global};

/// The words of an object that nobody has used: each counter is at 0, and every other word is 0.
pub fn first_words(alloc: Global, shape: &Shape) -> Result<Vec<u64>, AllocError>
    requires { IsShape shape.now }
    ensures { IfOk result (λ words. AreFirst shape.now words.items) }
{
    let mut words = vec![in alloc; 0u64; count_of_words(shape)]?;
    for slot in 0..shape.slots {
        words[index(shape, Address::CounterOf(slot))] = counter_word(0);
    }
    Ok(words)
}
