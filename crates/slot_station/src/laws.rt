//! Laws that hold of every station, and of the cells of every form of the object.
ghost use Rattle.slot_station.specs.Laws.{RepliesFollow, CellsGoOn, RepliesAllowed};
ghost use Rattle.slot_station.specs.Laws.{ExchangesGoOn, ExchangesSay, HoldersShow};

use crate::station::{Fits, Station};

/// What a reply says follows from what its call made, for every form of the object.
///
/// So a form owes a call's `Makes` alone. The rest follows: that the numbers of the reply are the
/// subject's and the object's, that ranges are cut and lie past the worker's own ones, that a
/// coordinator leaves without a debt, and where the worker is then.
pub fn replies_follow<B: Fits, S: Station<B>>()
    ensures { RepliesFollow B.total S.Origin }
{}

/// A call that the notes of its worker allow keeps what is known of every cell.
pub fn cells_go_on<B: Fits>()
    ensures { (subject : B.Subject) → CellsGoOn (B.fits subject) }
{}

/// Whether a worker's notes allow a call does not depend on its reply.
///
/// So a worker asks by its notes before the reply is known, and `cells_go_on` holds of the reply.
pub fn replies_allowed()
    ensures { RepliesAllowed }
{}

/// An exchange of a cell keeps what is known of every cell. It is said of what a station shows: its
/// trail need only begin the history, if it has all of its worker's own calls.
///
/// The worker finds what its note says. If what it puts fits, the cell is as the new note says.
/// What is known of the other cells stays.
pub fn exchanges_go_on<B: Fits, S: Station<B>>()
    ensures { ExchangesGoOn B.fits S.Origin }
{}

/// What an exchange finds and puts by the worker's place, in the words of `Station::own_cell` and
/// `Station::cell`.
pub fn exchanges_say<B: Fits, S: Station<B>>()
    ensures { ExchangesSay B.fits S.Origin }
{}

/// A holder's token has the fields of what its worker holds: its slot and query, the stage that was
/// finalised, and whether it holds after a finalisation.
pub fn holders_show<B: Fits, S: Station<B>>()
    ensures { HoldersShow S.Origin B.Subject }
{}
