//! What a worker holds between calls that belong together. A token's fields are what the trail
//! gives for its worker; they are public so that every form of the station can make them. A token
//! may be dropped: its worker then stays at its place.
ghost use Rattle.std.specs.Prelude.{◌≡◌, ◌↔◌, ◌+◌, IsTrue};

use crate::reply::{Admit, Mark};

/// Of a worker that found its task set used up.
#[derive(Debug, PartialEq, Eq, Drop)]
pub struct Spent {
    pub worker: u32,
    pub slot: u32,
    /// The task set's number.
    pub id: u32,
}

/// Of a worker that was marked at a slot and has left it.
#[derive(Debug, PartialEq, Eq, Drop)]
pub struct Debt {
    pub worker: u32,
    pub slot: u32,
    /// The task set for which the worker was marked.
    pub id: u32,
}

/// Of the worker that shut a task set.
#[derive(Debug, PartialEq, Eq, Drop)]
pub struct Coordinator {
    pub worker: u32,
    pub slot: u32,
    /// The task set's number.
    pub id: u32,
    /// How many workers there are.
    pub workers: u32,
    /// How many of them were asked.
    pub asked: u32,
    /// How many of those asked were at the slot.
    pub marked: u32,
}

/// Of the worker that holds a slot, after a reservation or a finalisation.
#[derive(Debug, PartialEq, Eq, Drop)]
pub struct Holder {
    pub worker: u32,
    pub slot: u32,
    /// The query that the slot is held for. A reservation has none before its admission.
    pub query: Option<u32>,
    /// The stage that was finalised, and 0 of a reservation.
    pub stage: u32,
    /// Whether the slot is held after a finalisation.
    pub again: bool,
}

/// Of the worker that has opened a slot and announces it.
#[derive(Debug, PartialEq, Eq, Drop)]
pub struct Announcer {
    pub worker: u32,
    pub slot: u32,
    /// How many workers there are.
    pub workers: u32,
    /// How many of them were told.
    pub told: u32,
    /// Whether the slot was opened after a finalisation.
    pub again: bool,
}

impl Spent {
    /// The slot of the task set.
    pub fn slot(&self) -> u32
        ensures { result ≡ self.now.slot }
    {
        self.slot
    }
}

impl Debt {
    /// The slot at which the worker was marked.
    pub fn slot(&self) -> u32
        ensures { result ≡ self.now.slot }
    {
        self.slot
    }
}

impl Coordinator {
    ghost use Rattle.std.specs.Prelude.{◌≡◌, ◌↔◌, ◌+◌, ◌^◌, ◌<◌, IsTrue};
    ghost use Rattle.slot_station.specs.Replies.{marked_coordinator};

    /// The slot of the task set.
    pub fn slot(&self) -> u32
        ensures { result ≡ self.now.slot }
    {
        self.slot
    }

    /// Whether every other worker was asked.
    pub fn all_asked(&self) -> bool
        ensures { IsTrue result ↔ (self.now.asked + 1 ≡ self.now.workers) }
    {
        u64::from(self.asked) + 1 == u64::from(self.workers)
    }

    /// Counts one more that was asked.
    pub fn count(&mut self, mark: Mark)
        requires { (self.old.asked + 1 < 2 ^ 32) × (self.old.marked + 1 < 2 ^ 32) }
        ensures { self.new ≡ marked_coordinator mark self.old }
    {
        self.asked += 1;
        if mark == Mark::Marked {
            self.marked += 1;
        }
    }
}

impl Holder {
    ghost use Rattle.std.specs.Prelude.{◌≡◌};
    ghost use Rattle.slot_station.specs.Replies.{admitted_holder};

    /// The slot that is held.
    pub fn slot(&self) -> u32
        ensures { result ≡ self.now.slot }
    {
        self.slot
    }

    /// The query that the slot is held for, if there is one by now.
    pub fn query(&self) -> Option<u32>
        ensures { result ≡ self.now.query }
    {
        self.query
    }

    /// The stage that was finalised, and 0 of a reservation.
    pub fn stage(&self) -> u32
        ensures { result ≡ self.now.stage }
    {
        self.stage
    }

    /// Takes the query, where it was admitted.
    pub fn admit(&mut self, q: u32, admit: Admit)
        ensures { self.new ≡ admitted_holder q admit self.old }
    {
        if admit == Admit::Got {
            self.query = Some(q);
        }
    }
}

impl Announcer {
    /// The slot that was opened.
    pub fn slot(&self) -> u32
        ensures { result ≡ self.now.slot }
    {
        self.slot
    }

    /// Whether every worker was told.
    pub fn all_told(&self) -> bool
        ensures { IsTrue result ↔ (self.now.told ≡ self.now.workers) }
    {
        self.told == self.workers
    }
}
