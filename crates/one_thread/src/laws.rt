//! What a seat leaves to others.
ghost use Rattle.one_thread.specs.Seats.{OthersStay};

use slot_station::station::Fits;

/// The seat of a worker leaves what every other worker's seat shows: its trail and its notes.
/// `IsSince` says what a seat did to its table since it was made.
pub fn others_stay<B: Fits>()
    ensures { OthersStay B.Subject }
{}
