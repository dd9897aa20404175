//! The history of an object that has ended.
ghost use Rattle.std.specs.Prelude.{◌≡◌, ◌<◌};
ghost use Rattle.slot_station.specs.Log.{calls_of_first};

use crate::any_word::AnyWord;
use crate::log::Logged;
use atomic_table::{Badge, Play, Table};
use std::alloc::{AllocError, Global};
use std::collections::LinkedList;
use std::marker::Model;

/// The history of an object that has ended. It holds a seat's view and no entries at run time;
/// contracts see the list of its entries, the newest first.
#[derive(Drop)]
pub struct History {
    badge: Badge<LinkedList<Logged>>,
}

impl Model for History {
    ghost use Rattle.slot_history.specs.declared.act.Entry.{Entry};
    ghost use Rattle.std.specs.Prelude.{List};
    ghost use Rattle.slot_station.specs.Log.{calls_of_first};

    ghost Value = { List Entry };

    ghost view = { λ h. calls_of_first h.badge.views };
}

impl History {
    /// The history whose log the badge shows. It takes no memory.
    pub fn of(badge: Badge<LinkedList<Logged>>) -> History
        ensures { result ≡ calls_of_first badge.views }
    {
        History { badge }
    }
}

/// What shows a history: the one that stands in the view of a joined seat, as an example.
pub trait ShowsHistory {
    ghost use Rattle.slot_history.specs.declared.act.Entry.{Entry};
    ghost use Rattle.std.specs.Prelude.{List};

    // Its entries, the newest first.
    ghost history: { Self → List Entry };
}

/// The view is the log of the history that is shown.
struct ShowHistory;

impl<X: ShowsHistory> Play<X, LinkedList<Logged>> for ShowHistory {
    ghost use Rattle.slot_station.specs.GhostLists.{IsShown};

    ghost then = { λ step old _ new. IsShown X.history step.said old.0 new.0 × (new.1 ≡ old.1) };
}

/// Where a history is kept that has to outlive the object that shows it. It is made with the
/// object, so that the end takes no memory; at run time it is one word. Threads may share it.
#[derive(Drop)]
pub struct HistoryKeeper<X: ShowsHistory> {
    table: Table<X, LinkedList<Logged>, (), AnyWord, Global>,
}

impl<X: ShowsHistory> Model for HistoryKeeper<X> {
    ghost Value = { Unit {0} };

    ghost view = { λ _. tt };

    ghost invariant = { λ keeper. let id = keeper.table.shared.table_id in
        (0 < id.words) × (id.slots ≡ 0) };
}

impl<X: ShowsHistory> HistoryKeeper<X> {
    /// No history is kept yet.
    pub fn new(alloc: Global) -> Result<HistoryKeeper<X>, AllocError> {
        let (table, _) = Table::of_words(alloc, &[0], &())?;
        Ok(HistoryKeeper { table })
    }

    /// The history that is shown. It takes no memory.
    pub fn keep(self, last: &X) -> History
        ensures { result ≡ X.history last.now }
    {
        let HistoryKeeper { table } = self;
        let (_, mut seat) = table.shared.load_new_seat::<ShowHistory>(0);
        table
            .shared
            .compare_exchange_with::<ShowHistory>(&mut seat, 0, 0, 0, last);
        let badge = seat.into_badge();
        table.close().free();
        History::of(badge)
    }
}
