//! A board with the passes of its workers.
ghost use Rattle.std.specs.Prelude.{◌≡◌};
ghost use Rattle.std.proofs.Props.{props};
ghost use Rattle.board_rule.specs.Passes.{board_shape, board_subject};
ghost use Rattle.station_rows.specs.Boards.{AreOf};

use crate::subject::Piece;
use board_rule::board::{Board, Pass};

/// A board, and each worker's pass while it is not in a call.
#[derive(Drop)]
pub(crate) struct BoardTable {
    pub(crate) board: Board<Piece>,
    pub(crate) passes: Vec<Option<Pass<Piece>>>,
    ghost ours: { AreOf board passes.items } by { Prim.hlevel props },
    ghost queries: { (board_shape board).queries ≡ (board_subject board).queries },
}
