//! The law of each call: the one word that its step is on, what it makes of that word, and what it
//! answers.
//!
//! Each function does nothing, and its contract is a law. The word, the change and the answer in it
//! are the step, by the number `w` of the worker that calls and its place `p`. Crates above cite
//! `law` of `proofs/Law.antt`, which has all of them.

ghost use Rattle.std.specs.Prelude.{ℕ, ◌+◌, bit_or};
ghost use Rattle.slot_history.specs.declared.act.Act.TheVariants.{Enter, Arrivals, Finished};
ghost use Rattle.slot_history.specs.declared.act.Act.TheVariants.{NoteDone, SetTotal, Install};
ghost use Rattle.slot_history.specs.declared.act.Act.TheVariants.{Release, Announce, TakeReturn};
ghost use Rattle.slot_history.specs.declared.act.Act.TheVariants.{TakeChange};
ghost use Rattle.slot_history.specs.States.{slot_of, id_at};
ghost use Rattle.slot_history.specs.Calls.{Entering, Looking, Claiming, Shutting, Leaving, Paying};
ghost use Rattle.slot_history.specs.Calls.{MarkingNext, Sweeping, Reserving, Admitting};
ghost use Rattle.slot_history.specs.Calls.{AskingArrivals, AskingFinished, NotingDone};
ghost use Rattle.slot_history.specs.Calls.{SettingTotal, Installing, Releasing, AnnouncingNext};
ghost use Rattle.slot_history.specs.Calls.{TakingReturn, TakingChange};
ghost use Rattle.slot_history.specs.Allowed.{bit_of};
ghost use Rattle.slot_history.specs.Table.{nth_other};
ghost use Rattle.slot_words.specs.declared.address.Address.TheVariants.{ArrivalsAt, FinishedAt};
ghost use Rattle.slot_words.specs.declared.address.Address.TheVariants.{StateOf, CursorOf};
ghost use Rattle.slot_words.specs.declared.address.Address.TheVariants.{CounterOf, WorkerOf};
ghost use Rattle.slot_words.specs.declared.address.Address.TheVariants.{ReturnOf, ChangeOf};
ghost use Rattle.slot_words.specs.Encodings.{open_word, at_word, marked, cursor_word};
ghost use Rattle.slot_words.specs.Steps.{added, one_less, compare_exchanged, look_answer};
ghost use Rattle.slot_words.specs.Steps.{claim_answer, shut_answer, leave_answer, pay_answer};
ghost use Rattle.slot_words.specs.Steps.{mark_answer, sweep_answer, reserve_answer, admit_answer};
ghost use Rattle.slot_words.specs.Steps.{asked_at, marked_at, mask_told};
ghost use Rattle.slot_words.specs.Laws.{IsLaw, CountersSay, FirstWordsStand, StatesArePacked};

/// A store on the own state word.
///
/// No lock: nobody but a coordinator writes another worker's state word, and it marks only a worker
/// that is at its slot.
pub fn enter()
    ensures { (s : ℕ) → IsLaw (Entering s) (λ w p. WorkerOf w)
        (λ p word. at_word s) (λ p word. Enter s) }
{}

/// A load of the slot's state word.
///
/// No lock: the worker's own word says that it is at the slot before it looks. So whoever shuts the
/// slot after the look finds it there, or it has left.
pub fn look()
    ensures { IsLaw Looking (λ w p. StateOf (slot_of p))
        (λ p word. word) (λ p word. look_answer word) }
{}

/// An addition to the slot's cursor word, whose high half is the total.
///
/// No lock: the total cannot change while somebody is inside, and two additions get two ranges.
pub fn claim()
    ensures { (n : ℕ) → IsLaw (Claiming n) (λ w p. CursorOf (slot_of p))
        (λ p word. added n word) (λ p word. claim_answer n word) }
{}

/// A swap of the own state word with 0.
///
/// No lock: the mark lies in the word that the leave takes. So this leave finds the mark, or the
/// coordinator comes too late to set it.
pub fn leave()
    ensures { IsLaw Leaving (λ w p. WorkerOf w) (λ p word. 0) (λ p word. leave_answer word) }
{}

/// The lowest bit of the slot's state word is set, which is the tag.
///
/// No lock: the step shows whether the tag was there before, so exactly one shut is the first.
pub fn shut()
    ensures { IsLaw Shutting (λ w p. StateOf (slot_of p))
        (λ p word. bit_or word 1) (λ p word. shut_answer word) }
{}

/// One compare and exchange on the state word of the next other worker: from at the slot to at the
/// slot and marked for the coordinator's task set.
///
/// No lock: the mark is set only in a word that says that the worker is at the slot; any other word
/// says that it isn't.
pub fn mark_next()
    ensures { IsLaw MarkingNext (λ w p. WorkerOf (nth_other w (asked_at p)))
        (λ p word. let there = at_word (slot_of p) in
        compare_exchanged there (marked there (id_at p)) word)
        (λ p word. mark_answer (slot_of p) word) }
{}

/// An addition of the number of marks to the slot's counter.
///
/// No lock: earlier payments have counted down, so the sum is the number of workers that still have
/// to pay.
pub fn sweep()
    ensures { IsLaw Sweeping (λ w p. CounterOf (slot_of p))
        (λ p word. added (marked_at p) word) (λ p word. sweep_answer (marked_at p) word) }
{}

/// A subtraction of 1 from the slot's counter.
///
/// No lock: it is above 0 only after the sweep, and one payment alone takes it from 1 to 0.
pub fn pay()
    ensures { IsLaw Paying (λ w p. CounterOf (slot_of p))
        (λ p word. one_less word) (λ p word. pay_answer word) }
{}

/// One compare and exchange on the slot's state word, from empty to reserved.
///
/// No lock: of two workers that want the slot, one finds it empty.
pub fn reserve()
    ensures { (s : ℕ) → IsLaw (Reserving s) (λ w p. StateOf s)
        (λ p word. compare_exchanged 0 1 word) (λ p word. reserve_answer s word) }
{}

/// One compare and exchange on the arrivals, from q to q + 1.
///
/// No lock: of two workers that want to admit q, one finds it the next.
pub fn admit()
    ensures { (q : ℕ) → IsLaw (Admitting q) (λ w p. ArrivalsAt)
        (λ p word. compare_exchanged q (q + 1) word) (λ p word. admit_answer q word) }
{}

/// A load of the arrivals.
///
/// No lock: it is one number in one word.
pub fn arrivals()
    ensures { IsLaw AskingArrivals (λ w p. ArrivalsAt) (λ p word. word) (λ p word. Arrivals word) }
{}

/// A load of the number of task sets noted as done.
///
/// No lock: it is one number in one word.
pub fn finished()
    ensures { IsLaw AskingFinished (λ w p. FinishedAt) (λ p word. word) (λ p word. Finished word) }
{}

/// An addition to the number of task sets noted as done.
///
/// No lock: two additions both count, in either order.
pub fn note_done()
    ensures { (n : ℕ) → IsLaw (NotingDone n) (λ w p. FinishedAt)
        (λ p word. added n word) (λ p word. NoteDone n) }
{}

/// A store of the total and the cursor 0 in the slot's cursor word.
///
/// No lock: nobody but its holder uses the cursor of a slot that is reserved or being finalised.
pub fn set_total()
    ensures { (total : ℕ) → IsLaw (SettingTotal total) (λ w p. CursorOf (slot_of p))
        (λ p word. cursor_word total 0) (λ p word. SetTotal total) }
{}

/// A store of the open word in the slot's state word.
///
/// No lock: nobody but its holder changes the state of a slot that is reserved or being finalised,
/// and the total is there before the slot opens.
pub fn install()
    ensures { (id : ℕ) → IsLaw (Installing id) (λ w p. StateOf (slot_of p))
        (λ p word. open_word id) (λ p word. Install id) }
{}

/// A store of 0 in the slot's state word.
///
/// No lock: as for `install`.
pub fn release()
    ensures { IsLaw Releasing (λ w p. StateOf (slot_of p)) (λ p word. 0) (λ p word. Release) }
{}

/// The slot's bit is set in a mask word of the worker that is told: of its returns after a
/// finalisation, of its changes after a reservation.
///
/// No lock: bits of other slots stay, and a bit that is set twice is set.
pub fn announce()
    ensures { IsLaw AnnouncingNext (λ w p. mask_told p)
        (λ p word. bit_or word (bit_of (slot_of p))) (λ p word. Announce) }
{}

/// A swap of an own mask word with 0.
///
/// No lock: a notice that is set before the swap is taken by it, and a later one stays.
pub fn take_return()
    ensures { (part : ℕ) → IsLaw (TakingReturn part) (λ w p. ReturnOf w part)
        (λ p word. 0) (λ p word. TakeReturn part word) }
{}

/// A swap of an own mask word with 0.
///
/// No lock: as for `take_return`.
pub fn take_change()
    ensures { (part : ℕ) → IsLaw (TakingChange part) (λ w p. ChangeOf w part)
        (λ p word. 0) (λ p word. TakeChange part word) }
{}

/// Before the sweep a slot's counter is minus the number of workers that paid, and after it the
/// number that still have to pay. It lies within 64 of 0.
pub fn counters()
    ensures { CountersSay }
{}

/// The words at the start stand for the opening state.
pub fn first_words_stand()
    ensures { FirstWordsStand }
{}

/// The state word of a slot is 0 if it is empty and 1 if it is reserved. Else it is the open word
/// of its id, with the tag once the task set is shut.
pub fn states_are_packed()
    ensures { StatesArePacked }
{}
