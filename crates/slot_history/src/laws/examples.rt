//! Worked examples: the answers that the definitions give to calls.

ghost use Rattle.slot_history.specs.Examples.{PaysBeforeSweep, BothPayBeforeSweep, StrayPaysLast};
ghost use Rattle.slot_history.specs.Examples.{SlotIsTaken, SlotIsFilledAgain, NoticesCross};

/// The answers of three short histories to marks, payments and sweeps, each in one order of its
/// workers.
pub fn payments()
    ensures before_sweep { PaysBeforeSweep }
    ensures both_before_sweep { BothPayBeforeSweep }
    ensures stray_last { StrayPaysLast }
{}

/// The answers of three short histories to whoever comes to a slot that is taken, filled again, or
/// announced twice.
pub fn filled_slots()
    ensures taken { SlotIsTaken }
    ensures filled_again { SlotIsFilledAgain }
    ensures notices_cross { NoticesCross }
{}
