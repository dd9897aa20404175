//! The rule of a table of which nothing is asked.
ghost use Rattle.std.specs.Prelude.{[]};

use atomic_table::TableRule;
use std::collections::LinkedList;

/// Nothing is asked of the words or of the views. A view begins empty.
pub(crate) struct AnyWord;

impl<E, F> TableRule<E, LinkedList<F>, ()> for AnyWord {
    ghost holds = { λ _ _. Unit {0} };

    ghost first = { λ _. [] };
}
