// The law of what accumulators hold.
ghost use Rattle.pipe_ops.specs.StageLaws.{HoldsFold};

/// What an accumulator holds of some tuples is the fold of its stage over them, but for the order
/// of rows: by key for a side and for groups.
pub fn holds_fold()
    ensures { HoldsFold }
{}
