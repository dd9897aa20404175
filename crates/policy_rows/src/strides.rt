//! Passes and choices.
ghost use Rattle.std.specs.Prelude.{◌≤◌, ◌<◌, ◌^◌, IfSome};
ghost use Rattle.stride_set.specs.Strides.{IsChoice, strides_of};

use std::test::Fail;
use stride_set::StrideSet;

fn turn(set: &mut StrideSet, ns: u64, priority: u32) -> Option<u32>
    requires time { ns ≤ 2 ^ 36 }
    requires priority { 0 < priority }
    ensures { IfSome result (λ s. IsChoice (strides_of set.old) s) }
{
    let s = set.choose()?;
    set.advance(s, ns, priority);
    Some(s)
}

#[test]
fn the_example_of_the_head(rt: HostRuntime) -> Result<(), Fail> {
    let mut set = StrideSet::new(rt.alloc(), 2)?;
    set.join_change(0);
    set.join_change(1);
    assert_eq!(rt; turn(&mut set, 300, 10_000), Some(0));
    assert_eq!(rt; turn(&mut set, 300, 5_000), Some(1));
    assert_eq!(rt; turn(&mut set, 300, 10_000), Some(0));
    Ok(())
}

#[test]
fn an_advance_is_inverse_to_the_priority(rt: HostRuntime) -> Result<(), Fail> {
    let mut set = StrideSet::new(rt.alloc(), 1)?;
    set.join_change(0);
    assert_eq!(rt; set.slots(), 1);
    assert_eq!(rt; set.choose(), Some(0));
    assert!(rt; set.may_advance(0) && !set.may_advance(1));
    set.advance(0, 2_000_000, 10_000);
    assert!(rt; !set.may_advance(0));
    assert_eq!(rt; set.pass(0), 209_715_200);
    assert_eq!(rt; set.largest(), 209_715_200);
    assert_eq!(rt; set.choose(), Some(0));
    set.advance(0, 2_000_000, 100);
    assert_eq!(rt; set.pass(0), 209_715_200 + 20_971_520_000);
    assert_eq!(rt; set.largest(), 20_971_520_000);
    Ok(())
}

#[test]
fn two_slots_take_turns_and_join_again(rt: HostRuntime) -> Result<(), Fail> {
    let mut set = StrideSet::new(rt.alloc(), 2)?;
    assert_eq!(rt; set.choose(), None);
    set.join_change(0);
    set.join_change(1);
    assert_eq!(rt; set.choose(), Some(0));
    set.advance(0, 300, 10_000);
    assert_eq!(rt; set.choose(), Some(1));
    set.advance(1, 300, 5_000);
    assert_eq!(rt; set.pass(0), 31_457);
    assert_eq!(rt; set.pass(1), 62_914);
    assert_eq!(rt; set.floor(), 0);
    assert_eq!(rt; set.widest(), 31_457);
    assert_eq!(rt; set.largest(), 62_914);
    assert_eq!(rt; set.choose(), Some(0));
    assert_eq!(rt; set.floor(), 31_457);
    set.drop_slot(1);
    assert!(rt; !set.is_active(1));
    set.join_return(1);
    assert!(rt; set.is_active(1));
    assert_eq!(rt; set.pass(1), 62_914);
    set.join_change(1);
    assert_eq!(rt; set.pass(1), 31_457);
    Ok(())
}
