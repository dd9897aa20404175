//! The rule over the words, the cells and the views, and what a seat learns at each kind of step.
ghost use Rattle.std.specs.Prelude.{ℕ};
ghost use Rattle.slot_history.specs.Calls.{Call, Looking};
ghost use Rattle.board_rule.specs.Cells.{Takes, Gives};
ghost use Rattle.board_rule.specs.Rule.{RunningRule, terms_of};
ghost use Rattle.board_rule.specs.Steps.{HasCalled};
ghost use Rattle.board_rule.specs.Views.{dealt_part, fresh_view, joined, kept_part, spent};
ghost use Rattle.board_rule.specs.Views.{view_place};
ghost use Rattle.slot_words.specs.Steps.{answer_of};

use crate::view::View;
use atomic_table::{Join, Play, Split, TableRule};
use slot_history::shape::Shape;
use slot_station::station::Fits;
use std::marker::{Brand, PhantomData};
use std::snapshot::Snapshot;

/// What the table is given at its start, for good: how large it is, and what it serves.
#[derive(Drop)]
pub struct About<T> {
    pub shape: Shape,
    pub subject: Snapshot<T>,
}

/// The running rule.
pub struct Running<B> {
    cells: PhantomData<B>,
}

impl<B: Fits> TableRule<Option<B>, View<B::Subject>, About<B::Subject>> for Running<B> {
    ghost holds = { λ about. RunningRule (terms_of B.total B.fits about) };

    ghost first = { λ about. fresh_view about.shape about.subject.value 0 about.shape.workers };
}

/// Which call a step is. Who makes the step picks it.
pub trait NamesCall {
    ghost call: { Call };
}

impl NamesCall for Brand {
    ghost call = { Looking };
}

/// A step that is a call, with the answer that the call reads in the word found.
pub struct Calling<K> {
    call: PhantomData<K>,
}

impl<K: NamesCall, B: Fits> Play<Option<B>, View<B::Subject>> for Calling<K> {
    ghost then = { λ _ old found new.
        HasCalled B.total (answer_of K.call (view_place old.0) found) old new };
}

/// Whose cell is taken. Who takes it picks the worker.
pub trait NamesCell {
    ghost cell: { ℕ };
}

impl NamesCell for Brand {
    ghost cell = { 0 };
}

/// A load that takes a cell.
pub struct Taking<K> {
    cell: PhantomData<K>,
}

impl<K: NamesCell, B: Fits> Play<Option<B>, View<B::Subject>> for Taking<K> {
    ghost then = { λ _ old _ new. Takes B.fits K.cell old new };
}

/// A load that gives back the cell that is out.
pub struct Giving;

impl<B: Fits> Play<Option<B>, View<B::Subject>> for Giving {
    ghost then = { λ _ old _ new. Gives old new };
}

/// A load that deals the further numbers to a new seat.
pub struct Dealing;

impl<T> Split<View<T>> for Dealing {
    ghost left = { kept_part };

    ghost right = { dealt_part };
}

/// A load that joins two seats.
pub struct Joining;

impl<T> Join<View<T>> for Joining {
    ghost both = { joined };

    ghost spent = { spent };
}
