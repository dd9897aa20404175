//! Worked words, packed and at the start.

use slot_history::shape::Shape;
use slot_words::encoding::{at_word, counter_word, cursor_word, marked, open_word, tagged};
use slot_words::opening::first_words;
use std::test::Fail;

#[test]
fn words_are_packed_so(rt: HostRuntime) -> Result<(), Fail> {
    assert_eq!(rt; open_word(0), 6);
    assert_eq!(rt; tagged(open_word(0)), 7);
    assert_eq!(rt; at_word(3), 4);
    assert_eq!(rt; marked(at_word(3), 0), 516);
    assert_eq!(rt; marked(at_word(3), 9), 9732);
    assert_eq!(rt; cursor_word(1, 2), 4_294_967_298);
    assert_eq!(rt; counter_word(-2), 4_294_967_294);
    Ok(())
}

/// Of one slot and one worker there are 11 words; word 5 is the counter.
#[test]
fn the_first_words(rt: HostRuntime) -> Result<(), Fail> {
    let shape = Shape {
        workers: 1,
        slots: 1,
        queries: 1,
    };
    let words = first_words(rt.alloc(), &shape)?;
    assert_eq!(rt;
        words.as_slice(),
        [0, 0, 0, 0, 0, 4_294_967_296, 0, 0, 0, 0, 0].as_slice()
    );
    Ok(())
}
