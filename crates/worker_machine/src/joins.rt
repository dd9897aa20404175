// What the notices of a mask word do to passes and groups.
ghost use Rattle.std.specs.Prelude.{◌≡◌, ◌<◌, length};
ghost use Rattle.slot_history.specs.declared.shape.TheConstants.{PARTS};
ghost use Rattle.slot_history.specs.Histories.{is_in_mask};
ghost use Rattle.slot_station.specs.Replies.{NamesSlots};
ghost use Rattle.stride_set.specs.Strides.{stride_after, strides_of};
ghost use Rattle.bench_cell.specs.declared.plan.Plan.{Plan};
ghost use Rattle.worker_machine.specs.Joins.{AreForgotten, join_of, joined};
ghost use Rattle.worker_machine.specs.Sized.{AreSized};

use crate::kept::Known;
use slot_station::shape::PARTS;
use stride_set::StrideSet;

// What the notices of a word say of their slots: that a query returned, or that it changed.
#[derive(Clone, Copy)]
pub(crate) enum Notice {
    Returned,
    Changed,
}

// Each slot of a word of notices joins, from the lowest upwards.
pub(crate) fn join_all(strides: &mut StrideSet, notice: Notice, part: u32, bits: u64)
    requires names { NamesSlots (strides_of strides.old).slots part bits }
    requires part { part < PARTS }
    ensures { strides_of strides.new ≡ joined (join_of notice) 64 part bits
        (strides_of strides.old) }
{
    if bits == 0 {
        return;
    }
    for k in 0..64 {
        if (bits >> k) % 2 == 1 {
            join(strides, notice, part * 64 + k);
        }
    }
}

// The slot joins.
fn join(strides: &mut StrideSet, notice: Notice, s: u32)
    requires { s < (strides_of strides.old).slots }
    ensures { strides_of strides.new ≡ stride_after (strides_of strides.old) (join_of notice s) }
{
    match notice {
        Notice::Returned => strides.join_return(s),
        Notice::Changed => strides.join_change(s),
    }
}

// The groups of the slots of a word of change notices are not known.
pub(crate) fn forget_groups(known: &mut Vec<Known>, part: u32, bits: u64)
    requires names { NamesSlots (length known.old.items) part bits }
    requires part { part < PARTS }
    ensures length { length known.new.items ≡ length known.old.items }
    ensures sized { (plan : Plan) → AreSized plan known.old.items → AreSized plan known.new.items }
    ensures groups { AreForgotten (is_in_mask part bits) known.old.items known.new.items }
{
    if bits == 0 {
        return;
    }
    for k in 0..64 {
        if (bits >> k) % 2 == 1 {
            forget(&mut known[(part * 64 + k) as usize]);
        }
    }
}

// The group of the slot is not known.
fn forget(known: &mut Known)
    ensures { known.new ≡ record known.old { group = None } }
{
    known.group = None;
}
