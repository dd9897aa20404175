//! A list that only contracts see. At run time it is one word and a seat of no bytes.
ghost use Rattle.std.specs.Prelude.{◌≡◌, List, ℕ, [], ◌∷◌, ◌<◌, IfOk};

use crate::any_word::AnyWord;
use atomic_table::{Badge, Play, Seat, Table};
use std::alloc::{AllocError, Global};
use std::collections::LinkedList;
use std::marker::Model;

/// What is said is one more in the view.
struct Push;

impl<E> Play<E, LinkedList<E>> for Push {
    ghost use Rattle.slot_station.specs.GhostLists.{Adds};

    ghost then = { Adds };
}

/// The values added so far, the newest first. Contracts see the list.
pub struct GhostList<E> {
    table: Table<E, LinkedList<E>, (), AnyWord, Global>,
    seat: Seat<E, LinkedList<E>>,
}

impl<E> Model for GhostList<E> {
    ghost Value = { List E };

    ghost view = { λ n. n.seat.me.0 };

    ghost invariant = { λ n. (n.seat.table_id ≡ n.table.shared.table_id)
        × (0 < n.table.shared.table_id.words)
        × (n.table.shared.table_id.slots ≡ 0)
        × (n.seat.me.1 ≡ []) };
}

impl<E> GhostList<E> {
    /// An empty list.
    pub fn new(alloc: Global) -> Result<GhostList<E>, AllocError>
        ensures { IfOk result (λ n. n ≡ []) }
    {
        let (table, seat) = Table::of_words(alloc, &[0], &())?;
        Ok(GhostList { table, seat })
    }

    /// Adds one value. It takes no memory.
    pub fn push(&mut self, item: &E)
        ensures { self.new ≡ item.now ∷ self.old }
    {
        let table = &self.table;
        table
            .shared
            .compare_exchange_with::<Push>(&mut self.seat, 0, 0, 0, item);
    }

    /// The list, in a form that says nothing of how it was made. It takes no memory.
    pub fn into_badge(self) -> Badge<LinkedList<E>>
        ensures { result.views ≡ self ∷ [] }
    {
        let GhostList { table, seat } = self;
        let badge = seat.into_badge();
        table.close().free();
        badge
    }
}

impl<E> Drop for GhostList<E> {
    fn drop(self) {
        let GhostList { table, seat } = self;
        drop(seat);
        table.close().free();
    }
}
