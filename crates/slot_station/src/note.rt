//! What is known of a cell.
ghost use Rattle.std.specs.Prelude.{◌≡◌};
ghost use Rattle.slot_station.specs.Cells.{kept_note, fresh_note};

/// What the worker that has a cell knows of it.
#[derive(Clone, Copy, Debug, PartialEq, Eq)]
pub enum Note {
    /// The cell holds None.
    Empty,
    /// The cell holds a value that fits the ranges which its worker claimed of the slot's task set.
    Kept,
    /// The cell holds a value that fits the next task set and no ranges.
    Fresh,
    /// Nothing is known of the cell.
    Loose,
}

/// The note of an own cell into which this was put.
pub fn kept_for<B>(new: &Option<B>) -> Note
    ensures { result ≡ kept_note new.now }
{
    match new {
        Some(_) => Note::Kept,
        None => Note::Empty,
    }
}

/// The note of a cell of a slot that is held, into which this was put.
pub fn fresh_for<B>(new: &Option<B>) -> Note
    ensures { result ≡ fresh_note new.now }
{
    match new {
        Some(_) => Note::Fresh,
        None => Note::Empty,
    }
}
