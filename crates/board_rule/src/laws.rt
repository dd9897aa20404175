//! The laws of the board. Each function does nothing, and its contract is a law.
ghost use Rattle.board_rule.specs.Laws.{Extends, NoticesStay, OutWithOne};

use slot_station::station::Fits;

/// The extension law, once for every call. Take a table on which the rule holds, a seat, and a call
/// that the seat's own trail and notes allow. After the call's one step the rule holds again, and
/// the seat's trail is the longest trail with this call.
///
/// It rests on the law of the call's step on words (`slot_words::laws`), on the laws of histories,
/// and on the law that such a call keeps what is known of cells
/// (`slot_station::laws::cells_go_on`). Nothing else is said of marks or of cells.
pub fn extends<B: Fits>()
    ensures { Extends B.total B.fits }
{}

/// Between any two steps no notice of an open slot is lost. Of each open slot each worker has an
/// active record that lets it in, or a notice that will make it so is pending or still to be told.
pub fn no_notice_is_lost<B: Fits>()
    ensures { NoticesStay B.total B.fits }
{}

/// A cell that is not in the table is out with exactly one seat. The seat's worker has the cell: it
/// is its own while it is inside, or one of the slot that it holds. So no two threads ever have one
/// cell.
pub fn one_has_it_out<B: Fits>()
    ensures { OutWithOne B.total B.fits }
{}
