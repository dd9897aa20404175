//! Four threads at one board. Whatever their schedule, each tuple is in exactly one claim, and the
//! final words are the same.
ghost use Rattle.std.specs.Prelude.{◌≡◌, ◌<◌, All, IfOk};
ghost use Rattle.board_rule.specs.Passes.{IsPassOf, board_shape, board_subject};
ghost use Rattle.station_rows.specs.Boards.{AreOf};

use crate::board_form::{call_with, free_passes};
use crate::board_table::BoardTable;
use crate::form::Ask;
use crate::hand::Hand;
use crate::player::Player;
use crate::rows::{opens, shuts};
use crate::subject::{Piece, Sets};
use board_rule::board::{Board, Pass};
use slot_history::act::Act;
use slot_station::steps::Steps;
use std::alloc::{AllocError, Global};
use std::marker::Brand;
use std::process::Abort;
use std::sync::ledger::{Blank, Ledger};
use std::test::Fail;
use std::thread;
use std::thread::Threads;

/// How many threads there are.
const WORKERS: u32 = 4;

/// How often each visits the slot.
const VISITS: u32 = 25;

/// How many tuples it claims in a visit.
const MORSEL: u32 = 8;

/// A board and the sets that it serves. The threads share it.
#[derive(Drop)]
struct Site<'a> {
    board: &'a Board<Piece>,
    sets: &'a Sets,
    ghost subject: { sets.now ≡ board_subject board.now },
    ghost queries: { (board_shape board.now).queries ≡ (board_subject board.now).queries },
}

/// A pass, and the ranges that its worker claimed.
type Visited = Result<(Pass<Piece>, Vec<(u32, u32)>), AllocError>;

/// Makes a call of a worker that has nothing in hand before and after it.
fn make<L: Ledger>(
    rt: &impl Abort,
    site: &Site,
    pass: Pass<Piece>,
    act: Act,
    steps: &mut Steps<L>,
) -> (Pass<Piece>, Act)
    requires { IsPassOf site.now.board.now pass }
    ensures { IsPassOf site.now.board.now result.0 }
{
    let ask = Ask {
        worker: pass.worker,
        sets: site.sets,
        hand: Hand::Nothing,
        act,
    };
    let (pass, (made, hand)) = call_with(rt, site.board, pass, ask, steps);
    assert_eq!(rt; hand, Hand::Nothing);
    (pass, made)
}

/// Goes to the slot, claims a morsel of its task set, and leaves.
fn visit<L: Ledger>(
    rt: &impl Abort,
    site: &Site,
    pass: Pass<Piece>,
    steps: &mut Steps<L>,
) -> (Pass<Piece>, (u32, u32))
    requires { IsPassOf site.now.board.now pass }
    ensures { IsPassOf site.now.board.now result.0 }
{
    let (pass, _) = make(rt, site, pass, Act::Enter(0), steps);
    let (pass, seen) = make(rt, site, pass, Act::LookOpen(0), steps);
    assert_eq!(rt; seen, Act::LookOpen(0));
    let (pass, claimed) = make(rt, site, pass, Act::ClaimUsed(MORSEL), steps);
    let Act::ClaimRange(_, from, to) = claimed else {
        panic!(rt; "every tuple was claimed already");
    };
    let (pass, left) = make(rt, site, pass, Act::LeaveLeft, steps);
    assert_eq!(rt; left, Act::LeaveLeft);
    (pass, (from, to))
}

/// Visits the slot time and again.
fn visits<L: Ledger>(
    rt: &impl Abort,
    alloc: Global,
    site: &Site,
    mut pass: Pass<Piece>,
    blank: Blank,
) -> Visited
    requires pass { IsPassOf site.now.board.now pass }
    requires name { blank.name ≡ L.name }
    requires parts { blank.parts ≡ L.parts }
    requires some { 0 < blank.parts }
    ensures { IfOk result (λ r. IsPassOf site.now.board.now r.0) }
{
    let mut steps = Steps::<L>::start(blank);
    let mut ranges = Vec::new(alloc);
    for _ in 0..VISITS {
        let (after, range) = visit(rt, site, pass, &mut steps);
        ranges.push(range)?;
        pass = after;
    }
    Ok((pass, ranges))
}

/// Visits the slot time and again, in a thread of its own.
fn visits_alone(rt: &impl Abort, alloc: Global, site: &Site, pass: Pass<Piece>) -> Visited
    requires { IsPassOf site.now.board.now pass }
    ensures { IfOk result (λ r. IsPassOf site.now.board.now r.0) }
{
    visits::<Brand>(rt, alloc, site, pass, Blank::new(1))
}

/// The passes that came back, and all ranges.
fn gather(
    alloc: Global,
    board: &Board<Piece>,
    visited: Vec<Visited>,
) -> Result<(Vec<Option<Pass<Piece>>>, Vec<(u32, u32)>), AllocError>
    requires { All (λ one. IfOk one (λ r. IsPassOf board.now r.0)) visited.items }
    ensures { IfOk result (λ r. AreOf board.now r.0.items) }
{
    let mut kept = Vec::new(alloc);
    let mut ranges = Vec::new(alloc);
    for one in visited {
        let (pass, claimed) = one?;
        kept.push(Some(pass))?;
        ranges.extend_from_slice(claimed.as_slice())?;
    }
    Ok((kept, ranges))
}

/// Each worker, whose pass is here and who is free, visits the slot in a thread of its own. The
/// answer is the table, and all ranges that were claimed.
fn visit_in_threads<R: Threads + Abort + Sync>(
    rt: &R,
    alloc: Global,
    table: BoardTable,
    sets: &Sets,
) -> Result<(BoardTable, Vec<(u32, u32)>), AllocError>
    requires { sets.now ≡ board_subject table.board }
    ensures { IfOk result (λ r. board_subject r.0.board ≡ board_subject table.board) }
{
    let BoardTable {
        board,
        passes: kept,
    } = table;
    let passes = free_passes(rt, alloc, &board, kept)?;
    let site = Site {
        board: &board,
        sets,
    };
    let visited = thread::map_vec(
        rt,
        passes,
        &|pass: Pass<Piece>| -> Visited
            requires { IsPassOf site.board.now pass }
            ensures { IfOk result (λ r. IsPassOf site.entry.board.now r.0) }
        { visits_alone(rt, alloc, &site, pass) },
    )?;
    let (kept, ranges) = gather(alloc, &board, visited)?;
    let table = BoardTable {
        board,
        passes: kept,
    };
    Ok((table, ranges))
}

/// Asserts that the ranges, in order, are the morsels of the task set, so that each tuple is in
/// exactly one.
fn expect_morsels(rt: &impl Abort, mut ranges: Vec<(u32, u32)>) {
    ranges.sort_unstable();
    assert_eq!(rt; ranges.len(), (WORKERS * VISITS) as usize);
    for (i, range) in ranges.iter().enumerate() {
        let from = i as u32 * MORSEL;
        assert_eq!(rt; *range, (from, from + MORSEL));
    }
}

/// The first worker opens a task set, four threads share its tuples, and the first worker ends it.
fn share<R: Threads + Abort + Sync, L: Ledger>(
    rt: &R,
    alloc: Global,
    blank: Blank,
) -> Result<(), Fail>
    requires name { blank.name ≡ L.name }
    requires parts { blank.parts ≡ L.parts }
    requires some { 0 < blank.parts }
{
    let mut steps = Steps::<L>::start(blank);
    let totals = vec![in alloc; (0, 800)]?;
    let mut player = Player::<BoardTable>::new(alloc, 1, WORKERS, Sets { queries: 1, totals })?;
    player.play(rt, 0, &opens(0, 0, 800), &mut steps);
    player.play(rt, 0, &[Act::Announce; 4], &mut steps);
    let Player { table, sets, hands } = player;
    let (table, ranges) = visit_in_threads(rt, alloc, table, &sets)?;
    expect_morsels(rt, ranges);
    let mut player = Player { table, sets, hands };
    player.play(rt, 0, &shuts(0, 0), &mut steps);
    player.play(rt, 0, &[Act::MarkMissed; 3], &mut steps);
    let ends = [Act::SweepLast, Act::NoteDone(1), Act::Release];
    player.play(rt, 0, &ends, &mut steps);
    let slot = [0, 1, 1, 0, 3_435_973_837_616, 4_294_967_296];
    player.expect_words(rt, alloc, &slot, &[[0, 0, 0, 1, 0]; 4])
}

#[test]
fn four_threads_share_a_task_set(rt: HostRuntime) -> Result<(), Fail> {
    share::<_, Brand>(&rt, rt.alloc(), Blank::new(1))
}
