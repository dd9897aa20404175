//! Tests of `read_words`: worked words of runs, the limits of an order, and very long words.
use super::refusal::Refusal;
use super::request::{Course, Request};
use super::tests::{repeated, texts};
use super::words::{Command, read_words};
use std::alloc::{AllocError, Global};
use std::test::Fail;

// Numbers with a comma between.
fn numbers_text(alloc: Global, numbers: &[u32]) -> Result<String, AllocError> {
    let mut text = String::new(alloc);
    for (place, number) in numbers.iter().enumerate() {
        let digits = format!(in alloc; "{number}")?;
        if place > 0 {
            text.push_str(",")?;
        }
        text.push_str(digits.as_str())?;
    }
    Ok(text)
}

// A request as text: its command, its script and numbers, and its order.
fn request_text(alloc: Global, request: &Request<'_>) -> Result<String, AllocError> {
    let (name, order): (&str, &[u32]) = match &request.course {
        Course::Turns(order) => ("turns", order.as_slice()),
        Course::Steps(order) => ("steps", order.as_slice()),
        Course::Threads => ("run", &[]),
    };
    let order = numbers_text(alloc, order)?;
    format!(in alloc;
        "{name} {} {} {} [{order}]",
        request.script, request.workers, request.slots
    )
}

// The run that words ask for, as text.
fn run_text(alloc: Global, words: &[String]) -> Result<String, AllocError> {
    match read_words(alloc, words) {
        Ok(Command::Run(request)) => request_text(alloc, &request),
        _ => String::from_str(alloc, "no run"),
    }
}

// Words with a space between, and the run that they ask for.
#[test]
fn reads_words_of_runs(rt: HostRuntime) -> Result<(), Fail> {
    let cases = [
        ("turns --workers=1 -- s.json", "turns s.json 1 128 []"),
        ("turns - --workers 1", "turns - 1 128 []"),
        ("turns s --workers 000000001", "turns s 1 128 []"),
        ("turns s --workers 1 --slots=128", "turns s 1 128 []"),
        ("turns s --order 1 --workers 2", "turns s 2 128 [1]"),
        ("turns s --workers=2 --order=1,0", "turns s 2 128 [1,0]"),
        (
            "turns --slots 5 --order=0 --workers=64 s",
            "turns s 64 5 [0]",
        ),
        (
            "turns s --workers 2 --order=0,000000001",
            "turns s 2 128 [0,1]",
        ),
        (
            "turns --slots=1 --workers 64 -- --order",
            "turns --order 64 1 []",
        ),
        ("steps s --workers=2", "steps s 2 128 []"),
        ("steps --order 1 --slots 3 --workers=2 s", "steps s 2 3 [1]"),
        ("run s --workers 2", "run s 2 128 []"),
        ("run --slots=4 --workers 2 -- s", "run s 2 4 []"),
        ("check s", "no run"),
    ];
    for (line, text) in cases {
        let mut words = Vec::new(rt.alloc());
        for word in line.split(' ') {
            words.push(String::from_str(rt.alloc(), word)?)?;
        }
        let read = run_text(rt.alloc(), words.as_slice())?;
        assert_eq!(rt; read.as_str(), text);
    }
    Ok(())
}

#[test]
fn refuses_words_of_runs(rt: HostRuntime) -> Result<(), Fail> {
    let cases: [&[&str]; 46] = [
        &["turns"],
        &["turns", "s"],
        &["turns", "", "--workers", "1"],
        &["turns", "s", "t", "--workers", "1"],
        &["turns", "s", "--workers"],
        &["turns", "s", "--workers", "--"],
        &["turns", "--workers", "--", "s"],
        &["turns", "--workers", "s", "1"],
        &["turns", "s", "--workers", "-1"],
        &["turns", "s", "--workers", ""],
        &["turns", "s", "--workers=-1"],
        &["turns", "s", "--workers="],
        &["turns", "s", "--workers==1"],
        &["turns", "s", "--workers=1=1"],
        &["turns", "s", "--workers1"],
        &["turns", "s", "--worker", "1"],
        &["turns", "s", "--workers", "0"],
        &["turns", "s", "--workers", "65"],
        &["turns", "s", "--workers", "0000000001"],
        &["turns", "s", "--workers", "+1"],
        &["turns", "s", "--workers", " 1"],
        &["turns", "s", "--workers", "1 "],
        &["turns", "s", "--workers", "1.0"],
        &["turns", "s", "--workers", "0x1"],
        &["turns", "s", "--workers", "\u{661}"],
        &["turns", "s", "--workers", "2", "--workers", "2"],
        &["turns", "s", "--workers=2", "--workers", "2"],
        &["turns", "s", "--workers", "2", "--", "--workers", "2"],
        &["turns", "s", "--workers", "1", "--slots", "0"],
        &["turns", "s", "--workers", "1", "--slots", "129"],
        &[
            "turns",
            "s",
            "--workers",
            "1",
            "--slots",
            "1",
            "--slots",
            "1",
        ],
        &["turns", "s", "--slots=1", "--workers", "1", "--slots=1"],
        &["turns", "s", "--slots", "1"],
        &["turns", "s", "--workers", "2", "--order", "2"],
        &["turns", "s", "--workers", "2", "--order=0", "--order", "0"],
        &["turns", "s", "--workers", "2", "--order", "-"],
        &["turns", "s", "--workers", "2", "--order="],
        &["turns", "s", "--workers", "2", "--order=,"],
        &["turns", "s", "--workers", "2", "--order=0,"],
        &["turns", "s", "--workers", "2", "--order=,0"],
        &["turns", "s", "--workers", "2", "--order=0,,1"],
        &["turns", "s", "--workers", "2", "--order=0, 1"],
        &["turns", "s", "--workers", "2", "--order=0;1"],
        &["turns", "s", "--workers", "2", "--order=0,1,2"],
        &["run", "s", "--workers", "1", "--order", "0"],
        &["run", "s", "--workers", "1", "--order="],
    ];
    for words in cases {
        let words = texts(rt.alloc(), words)?;
        let read = read_words(rt.alloc(), words.as_slice());
        assert!(rt; matches!(read, Err(Refusal::Usage)), "{words:?}");
    }
    Ok(())
}

// An order has at most 4,096 numbers.
#[test]
fn limits_orders(rt: HostRuntime) -> Result<(), Fail> {
    let alloc = rt.alloc();
    for (others, fits) in [(0, true), (4095, true), (4096, false)] {
        let order = repeated(alloc, "0", ",0", others)?;
        let mut words = texts(alloc, &["turns", "s", "--workers", "1", "--order"])?;
        words.push(order.clone()?)?;
        let read = run_text(alloc, words.as_slice())?;
        let text = format!(in alloc; "turns s 1 128 [{order}]")?;
        assert_eq!(rt; read == text, fits, "{others}");
    }
    Ok(())
}

// A word of a million bytes is read as any other: it names a file, and is no number.
#[test]
fn reads_long_words(rt: HostRuntime) -> Result<(), Fail> {
    let alloc = rt.alloc();
    let long = repeated(alloc, "", "1", 1_000_000)?;
    let cases: [(&[&str], bool); 6] = [
        (&["check"], true),
        (&["turns", "--workers", "1"], true),
        (&["make"], false),
        (&["make", "7"], false),
        (&["turns", "s", "--workers"], false),
        (&["turns", "s", "--workers", "1", "--order"], false),
    ];
    for (words, fits) in cases {
        let mut given = texts(alloc, words)?;
        given.push(long.clone()?)?;
        let reads = read_words(alloc, given.as_slice()).is_ok();
        assert_eq!(rt; reads, fits, "{words:?}");
    }
    Ok(())
}
