//! A board that nobody steps on.
use crate::anything::Anything;
use board_rule::board::Board;
use board_rule::joined::Joined;
use slot_station::reply::MakeRefusal;
use std::alloc::Global;
use std::snapshot::Snapshot;
use std::test::Fail;

/// A board of one slot and one worker that was made and ended.
fn unused(alloc: Global) -> Result<Joined, MakeRefusal> {
    let (board, passes) = Board::<Anything>::make(alloc, 1, 1, 0, Snapshot::of(&()))?;
    Ok(board.finish(passes))
}

/// Of one slot and one worker there are 11 words; word 5 is the counter.
#[test]
fn a_board_ends_as_it_began(rt: HostRuntime) -> Result<(), Fail> {
    let joined = unused(rt.alloc())?;
    assert_eq!(rt;
        joined.words(),
        [0, 0, 0, 0, 0, 4_294_967_296, 0, 0, 0, 0, 0].as_slice()
    );
    drop(joined.end());
    Ok(())
}
