//! No notice of an open slot is lost.

ghost use Rattle.slot_history.specs.Laws.{Always};
ghost use Rattle.slot_history.specs.Notices.{IsNoticed};

/// Every worker knows of each open slot, by an active record that lets it in, or a notice that will
/// make it so is pending or still to be told. Of each slot with a task set, its record has the
/// query or none, or a change notice is pending or still to be told.
///
/// Ruled out: an announcer that skips a worker or is free before all are told, an announcement
/// before the install, a return in place of a change after a reservation, a take that loses a
/// notice, and a look that drops the record of a slot that it saw open for a query that the record
/// allows.
pub fn no_notice_is_lost()
    ensures { Always IsNoticed }
{}
