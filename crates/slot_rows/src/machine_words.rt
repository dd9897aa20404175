//! Words after calls. Of two workers and one slot there are 16 words: 3 single ones, then the
//! slot's state, cursor and counter, then of each worker its state and four masks.

use one_thread::object::SlotObject;
use slot_history::place::{Held, Place};
use slot_history::shape::Shape;
use slot_proto::machine::Machine;
use slot_proto::proto::{Proto, words};
use slot_station::reply::{
    Admit, Claim, Leave, Look, MakeRefusal, Mark, Pay, Reserve, Shut, Sweep,
};
use slot_station::station::Fits;
use std::process::Abort;
use std::snapshot::Snapshot;
use std::test::Fail;

const ZERO: u64 = 4_294_967_296;

const TOTAL: u64 = 68_719_476_736;

/// A subject of one query with a task set of 16 tuples.
const SHAPE: Shape = Shape {
    workers: 2,
    slots: 1,
    queries: 1,
};

/// What worker 0 has in hand once it reserved the slot.
const RESERVED: Held = Held {
    query: None,
    stage: 0,
    again: false,
    noted: 0,
    total: None,
};

fn expect_words(rt: &impl Abort, machine: &Machine, slot: [u64; 3], first: u64, second: u64) {
    let words = machine.words();
    assert!(rt; words.len() == 16);
    let shown = [words[3], words[4], words[5], words[6], words[11]];
    let wanted = [slot[0], slot[1], slot[2], first, second];
    assert_eq!(rt; shown.as_slice(), wanted.as_slice());
}

/// Worker 0 reserves the slot and admits the query.
fn reserve(rt: &impl Abort, machine: &mut Machine) {
    assert!(rt; machine.shape() == SHAPE);
    assert!(rt; machine.place(0) == Place::Free);
    assert!(rt; matches!(machine.reserve(0, 0), Reserve::Got(_)));
    expect_words(rt, machine, [1, 0, ZERO], 0, 0);
    assert!(rt; machine.place(0) == Place::Holding(0, RESERVED));
    assert!(rt; machine.admit(0, 0) == Admit::Got);
}

/// Worker 0 opens the slot with the task set 0.
fn open(rt: &impl Abort, machine: &mut Machine) {
    assert!(rt; machine.shape() == SHAPE);
    let admitted = Held {
        query: Some(0),
        ..RESERVED
    };
    assert!(rt; machine.place(0) == Place::Holding(0, admitted));
    machine.set_total(0, 16);
    expect_words(rt, machine, [1, TOTAL, ZERO], 0, 0);
    let ready = Held {
        total: Some(16),
        ..admitted
    };
    assert!(rt; machine.place(0) == Place::Holding(0, ready));
    let announcer = machine.install(0, 0);
    drop(announcer);
    expect_words(rt, machine, [6, TOTAL, ZERO], 0, 0);
}

/// Worker 0 opens the slot with the task set 0, and tells both workers.
fn fill(rt: &impl Abort, machine: &mut Machine) {
    reserve(rt, machine);
    open(rt, machine);
    assert!(rt; machine.shape() == SHAPE);
    assert!(rt; machine.place(0) == Place::Announcing(0, false, 0));
    machine.announce(0);
    assert!(rt; machine.place(0) == Place::Announcing(0, false, 1));
    machine.announce(0);
}

#[test]
fn words_of_a_filled_slot(rt: HostRuntime) -> Result<(), Fail> {
    let mut machine = Machine::make(rt.alloc(), SHAPE)?;
    fill(&rt, &mut machine);
    let words = machine.words();
    assert_eq!(rt;
        words,
        [0, 1, 0, 6, TOTAL, ZERO, 0, 0, 0, 1, 0, 0, 0, 0, 1, 0].as_slice()
    );
    assert_eq!(rt; machine.take_change(1, 0), 1);
    assert_eq!(rt; machine.take_return(1, 0), 0);
    assert_eq!(rt; machine.arrivals(1), 1);
    assert_eq!(rt; machine.finished(1), 0);
    Ok(())
}

/// A worker comes inside the open slot.
fn come_in(rt: &impl Abort, machine: &mut Machine, worker: u32) {
    assert!(rt; machine.shape() == SHAPE);
    assert!(rt; worker < 2);
    assert!(rt; machine.place(worker) == Place::Free);
    machine.enter(worker, 0);
    assert!(rt; machine.place(worker) == Place::Entered(0));
    assert!(rt; machine.look(worker) == Look::Open(0));
}

/// Both workers are inside, worker 0 claims all tuples, shuts the task set and marks worker 1.
fn work(rt: &impl Abort, machine: &mut Machine) {
    come_in(rt, machine, 0);
    come_in(rt, machine, 1);
    claim_all(rt, machine);
    shut(rt, machine);
}

/// Worker 0 claims all tuples, and finds that none are left.
fn claim_all(rt: &impl Abort, machine: &mut Machine) {
    assert!(rt; machine.shape() == SHAPE);
    assert!(rt; machine.place(0) == Place::Inside(0, 0));
    assert!(rt; machine.claim(0, 16) == Claim::Range(0, 16));
    expect_words(rt, machine, [6, TOTAL + 16, ZERO], 1, 1);
    assert!(rt; machine.place(0) == Place::Inside(0, 0));
    assert!(rt; matches!(machine.claim(0, 16), Claim::Exhausted(_)));
}

/// Worker 0 shuts the task set, leaves and marks worker 1.
fn shut(rt: &impl Abort, machine: &mut Machine) {
    assert!(rt; machine.shape() == SHAPE);
    assert!(rt; machine.place(0) == Place::Used(0, 0));
    assert!(rt; matches!(machine.shut(0), Shut::Won(_)));
    expect_words(rt, machine, [7, TOTAL + 32, ZERO], 1, 1);
    assert!(rt; machine.place(0) == Place::Leading(0, 0));
    assert!(rt; machine.leave(0) == Leave::Left);
    assert!(rt; machine.place(0) == Place::Asking(0, 0, 0, 0));
    assert!(rt; machine.mark_next(0) == Mark::Marked);
    expect_words(rt, machine, [7, TOTAL + 32, ZERO], 0, 513);
}

/// Worker 1 finds all tuples claimed and the task set shut, and leaves with a debt. `counter` is
/// the word of the slot's counter.
fn owe(rt: &impl Abort, machine: &mut Machine, counter: u64) {
    assert!(rt; machine.shape() == SHAPE);
    assert!(rt; machine.place(1) == Place::Inside(0, 0));
    assert!(rt; matches!(machine.claim(1, 1), Claim::Exhausted(_)));
    assert!(rt; machine.place(1) == Place::Used(0, 0));
    assert!(rt; machine.shut(1) == Shut::Lost);
    expect_words(rt, machine, [7, TOTAL + 33, counter], 0, 513);
    assert!(rt; machine.place(1) == Place::Behind(0, 0));
    assert!(rt; matches!(machine.leave(1), Leave::Owe(_)));
    expect_words(rt, machine, [7, TOTAL + 33, counter], 0, 0);
}

/// A worker finalises: it notes one task set and gives the slot back.
fn finalise(rt: &impl Abort, machine: &mut Machine, worker: u32) {
    assert!(rt; worker < machine.shape().workers);
    let held = Held {
        query: Some(0),
        again: true,
        ..RESERVED
    };
    assert!(rt; machine.place(worker) == Place::Holding(0, held));
    machine.note_done(worker, 1);
    let noted = Held { noted: 1, ..held };
    assert!(rt; machine.place(worker) == Place::Holding(0, noted));
    machine.release(worker);
    expect_words(rt, machine, [0, TOTAL + 33, ZERO], 0, 0);
    assert!(rt; machine.finished(worker) == 1);
}

/// The coordinator sweeps before the marked worker pays, which then finalises.
#[test]
fn words_of_a_late_payment(rt: HostRuntime) -> Result<(), Fail> {
    let mut machine = Machine::make(rt.alloc(), SHAPE)?;
    fill(&rt, &mut machine);
    work(&rt, &mut machine);
    assert!(rt; machine.shape() == SHAPE);
    assert!(rt; machine.place(0) == Place::Asking(0, 0, 1, 1));
    assert!(rt; machine.sweep(0) == Sweep::Others(1));
    expect_words(&rt, &machine, [7, TOTAL + 32, ZERO + 1], 0, 513);
    owe(&rt, &mut machine, ZERO + 1);
    assert!(rt; machine.shape() == SHAPE);
    assert!(rt; machine.place(1) == Place::Owing(0, 0));
    assert!(rt; matches!(machine.pay(1), Pay::Last(_)));
    finalise(&rt, &mut machine, 1);
    Ok(())
}

/// The marked worker pays before the coordinator sweeps, which then finalises.
#[test]
fn words_of_an_early_payment(rt: HostRuntime) -> Result<(), Fail> {
    let mut machine = Machine::make(rt.alloc(), SHAPE)?;
    fill(&rt, &mut machine);
    work(&rt, &mut machine);
    owe(&rt, &mut machine, ZERO);
    assert!(rt; machine.shape() == SHAPE);
    assert!(rt; machine.place(1) == Place::Owing(0, 0));
    assert!(rt; machine.pay(1) == Pay::Done);
    expect_words(&rt, &machine, [7, TOTAL + 33, ZERO - 1], 0, 0);
    assert!(rt; machine.place(0) == Place::Asking(0, 0, 1, 1));
    assert!(rt; matches!(machine.sweep(0), Sweep::Last(_)));
    expect_words(&rt, &machine, [7, TOTAL + 33, ZERO], 0, 0);
    finalise(&rt, &mut machine, 0);
    Ok(())
}

/// A cell that fits anything.
#[derive(Drop)]
struct Piece;

impl Fits for Piece {
    ghost use Rattle.std.specs.Prelude.{None};

    type Subject = u32;

    ghost queries = { λ subject. 1 };

    ghost total = { λ subject id. None };

    ghost fits = { λ subject worker id ranges piece. Unit {0} };
}

/// Of one worker and one slot there are 11 words; word 5 is the counter.
#[test]
fn words_of_a_table(rt: HostRuntime) -> Result<(), Fail> {
    let made = Proto::<Piece>::make(rt.alloc(), 1, 1, 1, Snapshot::of(&0));
    let Ok(table) = made else {
        panic!(rt; "no table");
    };
    assert_eq!(rt;
        words(&table),
        [0, 0, 0, 0, 0, ZERO, 0, 0, 0, 0, 0].as_slice()
    );
    let refused = Proto::<Piece>::make(rt.alloc(), 129, 1, 1, Snapshot::of(&0));
    assert_eq!(rt; refused.err(), Some(MakeRefusal::BadSlots));
    drop(table.end());
    Ok(())
}
