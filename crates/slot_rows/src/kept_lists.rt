//! Lists that only contracts see, each made and kept once.
ghost use Rattle.std.specs.Prelude.{◌≡◌, [], ◌∷◌, IfOk};
ghost use Rattle.slot_history.specs.declared.act.Act.TheVariants.{Release};
ghost use Rattle.slot_history.specs.Histories.{entry};

use slot_station::{History, HistoryKeeper, Memo, ShowsHistory};
use std::alloc::{AllocError, Global};
use std::test::Fail;

/// A memo of two numbers, in their order.
fn two_noted(alloc: Global) -> Result<Memo, AllocError>
    ensures { IfOk result (λ memo. memo ≡ 5 ∷ 16 ∷ []) }
{
    let mut memo = Memo::new(alloc)?;
    memo.note(5);
    memo.note(16);
    Ok(memo)
}

/// It shows the history of one release.
struct OneRelease {
    worker: u32,
}

impl ShowsHistory for OneRelease {
    ghost use Rattle.std.specs.Prelude.{[], ◌∷◌};
    ghost use Rattle.slot_history.specs.declared.act.Act.TheVariants.{Release};
    ghost use Rattle.slot_history.specs.Histories.{entry};

    ghost history = { λ r. entry r.worker Release ∷ [] };
}

/// The history that it shows, kept.
fn kept(alloc: Global) -> Result<History, AllocError>
    ensures { IfOk result (λ history. history ≡ entry 4 Release ∷ []) }
{
    let keeper = HistoryKeeper::new(alloc)?;
    Ok(keeper.keep(&OneRelease { worker: 4 }))
}

#[test]
fn lists_are_kept(rt: HostRuntime) -> Result<(), Fail> {
    let memo = two_noted(rt.alloc())?;
    drop(memo);
    let history = kept(rt.alloc())?;
    drop(history);
    Ok(())
}
