//! Sinks in memory, and standard output over a runtime of the test's own.
ghost use Rattle.std.specs.Prelude.{◌≤◌};

use outside_io::{CountSink, MemSink, Sink, StdSink, write_all};
use std::alloc::{AllocError, Global};
use std::cell::{Cell, RefCell};
use std::fmt::Display;
use std::io;
use std::process::Abort;
use std::test::Fail;

/// The room, the most bytes of a call, the calls that fail, whether all is written, and what is
/// written of `query 0`.
type Case<'a> = (u32, u32, &'a [u64], bool, &'a [u8]);

/// Writes `query 0` to a sink in memory.
fn write_to_memory(rt: &impl Abort, alloc: Global, case: Case) -> Result<(), AllocError>
    requires { 1 ≤ case.1 }
{
    let (room, most, fails, whole, want) = case;
    let mut sink = MemSink::new(alloc, room, most, Vec::from_slice(alloc, fails)?)?;
    assert_eq!(rt;
        write_all(&mut sink, b"query 0").is_ok(),
        whole,
        "room {room}"
    );
    assert_eq!(rt; sink.written(), want, "room {room}");
    Ok(())
}

#[test]
fn writes_in_pieces(rt: HostRuntime) -> Result<(), Fail> {
    let cases: [Case; 5] = [
        (7, 4, &[3], true, b"query 0"),
        (7, 4, &[2], false, b"quer"),
        (7, 9, &[1], false, b""),
        (5, 4, &[], false, b"query"),
        (0, 1, &[], false, b""),
    ];
    for case in cases {
        write_to_memory(&rt, rt.alloc(), case)?;
    }
    Ok(())
}

#[test]
fn a_sink_that_keeps_nothing_takes_every_byte(rt: HostRuntime) {
    let mut sink = CountSink::new();
    assert_eq!(rt; sink.write_piece(b"query 0"), Ok(7));
    assert_eq!(rt; sink.write_piece(b""), Ok(0));
    assert_eq!(rt; write_all(&mut sink, b"query 1"), Ok(()));
}

// A runtime whose standard output is a list of bytes. A call takes four bytes, and one call fails.
#[derive(Drop)]
struct Recorder {
    written: RefCell<Vec<u8>>,
    calls: Cell<u64>,
    fails: u64,
}

impl Recorder {
    fn take(&self, bytes: &[u8]) -> io::Result<()> {
        match self.written.try_borrow_mut() {
            Ok(mut written) => Ok(written.extend_from_slice(bytes)?),
            Err(_) => Err(io::Error::from(io::ErrorKind::Other)),
        }
    }
}

impl Print for Recorder {
    fn print<D: Display + Drop>(&self, _value: D) -> io::Result<()> {
        Err(io::Error::from(io::ErrorKind::Unsupported))
    }

    fn println<D: Display + Drop>(&self, _value: D) -> io::Result<()> {
        Err(io::Error::from(io::ErrorKind::Unsupported))
    }

    fn write_all(&self, bytes: &[u8]) -> io::Result<()> {
        self.take(bytes)
    }

    fn write_some(&self, bytes: &[u8]) -> io::Result<usize> {
        self.calls.set(self.calls.get().saturating_add(1));
        if self.calls.get() == self.fails {
            return Err(io::Error::from(io::ErrorKind::BrokenPipe));
        }
        let count = bytes.len().min(4);
        self.take(&bytes[..count])?;
        Ok(count)
    }
}

/// Writes `query 0` to a standard output of which one call fails.
fn write_to_output(rt: &impl Abort, alloc: Global, fails: u64, whole: bool, want: &[u8]) {
    let recorder = Recorder {
        written: RefCell::new(Vec::new(alloc)),
        calls: Cell::new(0),
        fails,
    };
    let wrote = write_all(&mut StdSink::new(&recorder), b"query 0");
    assert_eq!(rt; wrote.is_ok(), whole, "call {fails} fails");
    let written = recorder.written.into_inner();
    assert_eq!(rt; written.as_slice(), want, "call {fails} fails");
}

#[test]
fn standard_output_gets_every_byte(rt: HostRuntime) {
    // the call that fails, and what is written of `query 0`
    let cases: [(u64, bool, &[u8]); 3] = [
        (0, true, b"query 0"),
        (2, false, b"quer"),
        (1, false, b""),
    ];
    for (fails, whole, want) in cases {
        write_to_output(&rt, rt.alloc(), fails, whole, want);
    }
}

#[test]
fn writes_to_standard_output(rt: HostRuntime) {
    assert!(rt; write_all(&mut StdSink::new(rt), b"written\n").is_ok());
}
