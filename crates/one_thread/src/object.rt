//! What makes the steps of calls on one thread.
use slot_history::place::Place;
use slot_history::shape::Shape;
use slot_station::ghost_list::GhostList;
use slot_station::log::{Exchange, Logged};
use slot_station::reply::{Admit, Claim, Leave, Look, Mark, Pay, Reserve, Shut, Sweep};
use slot_station::token::Announcer;
use std::alloc::{AllocError, Global};

/// A slot object on one thread without its cells: it makes each call's step, for any of its workers
/// by their numbers. Contracts see its story: how large it is, and its log. No call but `make`
/// takes memory.
///
/// Each call asks that its worker may make it. `docs/PROTOCOL.md` says when that is so, in "The
/// calls, one by one".
pub trait SlotObject: Drop {
    ghost use Rattle.std.specs.Prelude.{◌≡◌, ℕ, ◌<◌, [], ◌∷◌, IfOk};
    ghost use Rattle.slot_history.specs.declared.act.Act.TheVariants.{Enter, Arrivals, Finished};
    ghost use Rattle.slot_history.specs.declared.act.Act.TheVariants.{NoteDone, SetTotal, Install};
    ghost use Rattle.slot_history.specs.declared.act.Act.TheVariants.{Release, Announce};
    ghost use Rattle.slot_history.specs.declared.act.Act.TheVariants.{TakeReturn, TakeChange};
    ghost use Rattle.slot_history.specs.Calls.{Entering, Looking, Claiming, Shutting, Leaving};
    ghost use Rattle.slot_history.specs.Calls.{Paying, MarkingNext, Sweeping, Reserving, Admitting};
    ghost use Rattle.slot_history.specs.Calls.{AskingArrivals, AskingFinished, NotingDone};
    ghost use Rattle.slot_history.specs.Calls.{SettingTotal, Installing, Releasing, AnnouncingNext};
    ghost use Rattle.slot_history.specs.Calls.{TakingReturn, TakingChange};
    ghost use Rattle.slot_history.specs.Histories.{IsLegal};
    ghost use Rattle.slot_station.specs.declared.log.Logged.TheVariants.{Exchanged};
    ghost use Rattle.slot_station.specs.Log.{calls_of};
    ghost use Rattle.slot_station.specs.Places.{IsCounted};
    ghost use Rattle.slot_station.specs.Replies.{look_act, claim_act, shut_act, leave_act};
    ghost use Rattle.slot_station.specs.Replies.{mark_act, sweep_act, pay_act, reserve_act};
    ghost use Rattle.slot_station.specs.Replies.{admit_act};
    ghost use Rattle.slot_station.specs.Shapes.{IsShape};
    ghost use Rattle.slot_station.specs.Tokens.{IsAnnouncer, ClaimGives, ShutGives, LeaveGives};
    ghost use Rattle.slot_station.specs.Tokens.{SweepGives, PayGives, ReserveGives};
    ghost use Rattle.one_thread.specs.Stories.{Story, MayMake, MakesCall, Brings, place_in};

    // How large it is, and its log.
    ghost story: { Self → Story };

    /// An object whose slots are empty and with no notices.
    fn make(alloc: Global, shape: Shape) -> Result<Self, AllocError>
        requires { IsShape shape }
        ensures { IfOk result (λ object. story object ≡ record { shape = shape; log = [] }) };

    /// How large the object is.
    fn shape(&self) -> Shape
        ensures shape { result ≡ (story self.now).shape }
        ensures range { IsShape result }
        ensures legal { IsLegal (story self.now).shape (calls_of (story self.now).log) };

    /// Where a worker is.
    fn place(&self, worker: u32) -> Place
        requires { worker < (story self.now).shape.workers }
        ensures { result ≡ place_in (story self.now) worker };

    /// The log, when the object ends.
    fn into_log(self) -> GhostList<Logged>
        ensures { result ≡ (story self).log };

    /// A worker exchanged a cell, its own or another's, and has this note of it now.
    fn exchanged(&mut self, exchange: Exchange)
        ensures { story self.new
            ≡ record (story self.old) { log = Exchanged exchange ∷ (story self.old).log } };

    /// The worker goes to slot s.
    fn enter(&mut self, worker: u32, s: u32)
        requires { MayMake (story self.old) worker (Entering s) }
        ensures { MakesCall (story self.old) worker (Enter s) (story self.new) };

    /// The worker looks at the slot at which it is.
    fn look(&mut self, worker: u32) -> Look
        requires { MayMake (story self.old) worker Looking }
        ensures { MakesCall (story self.old) worker (look_act result) (story self.new) };

    /// The worker claims up to n tuples of the task set with which it is inside.
    fn claim(&mut self, worker: u32, n: u32) -> Claim
        requires { MayMake (story self.old) worker (Claiming n) }
        ensures made { MakesCall (story self.old) worker (claim_act n result) (story self.new) }
        ensures spent { Brings ClaimGives (story self.new) worker result };

    /// The worker shuts the task set that it found used up.
    fn shut(&mut self, worker: u32) -> Shut
        requires { MayMake (story self.old) worker Shutting }
        ensures made { MakesCall (story self.old) worker (shut_act result) (story self.new) }
        ensures first { Brings ShutGives (story self.new) worker result };

    /// The worker leaves the slot at which it is.
    fn leave(&mut self, worker: u32) -> Leave
        requires { MayMake (story self.old) worker Leaving }
        ensures made { MakesCall (story self.old) worker (leave_act result) (story self.new) }
        ensures debt { Brings LeaveGives (story self.new) worker result };

    /// The worker asks the next one.
    fn mark_next(&mut self, worker: u32) -> Mark
        requires { MayMake (story self.old) worker MarkingNext }
        ensures made { MakesCall (story self.old) worker (mark_act result) (story self.new) }
        ensures counted { IsCounted (place_in (story self.old) worker) };

    /// The worker ends its asking.
    fn sweep(&mut self, worker: u32) -> Sweep
        requires { MayMake (story self.old) worker Sweeping }
        ensures made { MakesCall (story self.old) worker (sweep_act result) (story self.new) }
        ensures holder { Brings SweepGives (story self.new) worker result };

    /// The worker pays what it owes.
    fn pay(&mut self, worker: u32) -> Pay
        requires { MayMake (story self.old) worker Paying }
        ensures made { MakesCall (story self.old) worker (pay_act result) (story self.new) }
        ensures holder { Brings PayGives (story self.new) worker result };

    /// The worker reserves slot s.
    fn reserve(&mut self, worker: u32, s: u32) -> Reserve
        requires { MayMake (story self.old) worker (Reserving s) }
        ensures made { MakesCall (story self.old) worker (reserve_act s result) (story self.new) }
        ensures holder { Brings ReserveGives (story self.new) worker result };

    /// The worker admits query q for the slot that it holds.
    fn admit(&mut self, worker: u32, q: u32) -> Admit
        requires { MayMake (story self.old) worker (Admitting q) }
        ensures { MakesCall (story self.old) worker (admit_act q result) (story self.new) };

    /// The number of admitted queries.
    fn arrivals(&mut self, worker: u32) -> u32
        requires { MayMake (story self.old) worker AskingArrivals }
        ensures { MakesCall (story self.old) worker (Arrivals result) (story self.new) };

    /// The number of task sets that were noted as done.
    fn finished(&mut self, worker: u32) -> u32
        requires { MayMake (story self.old) worker AskingFinished }
        ensures { MakesCall (story self.old) worker (Finished result) (story self.new) };

    /// The worker notes k task sets as done.
    fn note_done(&mut self, worker: u32, k: u32)
        requires { MayMake (story self.old) worker (NotingDone k) }
        ensures { MakesCall (story self.old) worker (NoteDone k) (story self.new) };

    /// The worker sets the total of the task set that it will install.
    fn set_total(&mut self, worker: u32, total: u32)
        requires { MayMake (story self.old) worker (SettingTotal total) }
        ensures { MakesCall (story self.old) worker (SetTotal total) (story self.new) };

    /// The worker opens the slot that it holds.
    fn install(&mut self, worker: u32, id: u32) -> Announcer
        requires { MayMake (story self.old) worker (Installing id) }
        ensures made { MakesCall (story self.old) worker (Install id) (story self.new) }
        ensures announcer { Brings IsAnnouncer (story self.new) worker result };

    /// The worker gives its slot back.
    fn release(&mut self, worker: u32)
        requires { MayMake (story self.old) worker Releasing }
        ensures { MakesCall (story self.old) worker Release (story self.new) };

    /// The worker tells the next one.
    fn announce(&mut self, worker: u32)
        requires { MayMake (story self.old) worker AnnouncingNext }
        ensures made { MakesCall (story self.old) worker Announce (story self.new) }
        ensures counted { IsCounted (place_in (story self.old) worker) };

    /// The worker takes its return notices of a part.
    fn take_return(&mut self, worker: u32, part: u32) -> u64
        requires { MayMake (story self.old) worker (TakingReturn part) }
        ensures { MakesCall (story self.old) worker (TakeReturn part result) (story self.new) };

    /// The worker takes its change notices of a part.
    fn take_change(&mut self, worker: u32, part: u32) -> u64
        requires { MayMake (story self.old) worker (TakingChange part) }
        ensures { MakesCall (story self.old) worker (TakeChange part result) (story self.new) };
}
