//! A place that a program writes to.
ghost use Rattle.std.specs.Prelude.{◌≡◌, ℕ, ◌<◌, ◌≤◌, List, Option, None, IfOk, OnErr, OnOk};
ghost use Rattle.std.specs.Prelude.{length};
ghost use Rattle.std.specs.Io.KnownBytes.{Appends, WriteAppends};
ghost use Rattle.outside_io.specs.Faults.{CountedOne, CountRose};
ghost use Rattle.outside_io.specs.Pieces.{AppendsPrefix};

use thiserror::Error;

/// A write that failed.
#[derive(Clone, Copy, Debug, PartialEq, Eq, Error)]
#[error("the write failed")]
pub struct Failed;

/// A place that takes bytes, in pieces whose length it chooses.
pub trait Sink {
    // The bytes written so far, if they are known.
    ghost written: { Self → Option (List ℕ) } = { λ _. None };

    // How many writes failed. It stops at 2^64 - 1.
    ghost faults: { Self → ℕ };

    /// Takes the first bytes of a piece, and answers how many. It takes at least one if the piece
    /// is not empty. A call that fails takes none.
    fn write_piece(&mut self, bytes: &[u8]) -> Result<usize, Failed>
        ensures within { IfOk result (λ count. count ≤ length bytes.now) }
        ensures goes_on { IfOk result (λ count. 0 < length bytes.now → 0 < count) }
        ensures appended { WriteAppends (written self.old) (written self.new) result bytes.now }
        ensures never_falls { faults self.old ≤ faults self.new }
        ensures ok { OnOk result (faults self.new ≡ faults self.old) }
        ensures failed { OnErr result (CountRose (faults self.old) (faults self.new)) }
        ensures once { OnErr result (CountedOne (faults self.old) (faults self.new)) };
}

/// Writes all the bytes, in as many pieces as the sink takes. Each call of the sink gets all bytes
/// that are not written yet. After a refusal a prefix of the bytes was written. It never allocates.
pub fn write_all<S: Sink>(sink: &mut S, bytes: &[u8]) -> Result<(), Failed>
    ensures ok { OnOk result (Appends (S.written sink.old) (S.written sink.new) bytes.now) }
    ensures err { OnErr result (AppendsPrefix (S.written sink.old) (S.written sink.new) bytes.now) }
    ensures never_falls { S.faults sink.old ≤ S.faults sink.new }
    ensures no_fault { OnOk result (S.faults sink.new ≡ S.faults sink.old) }
    ensures failed { OnErr result (CountRose (S.faults sink.old) (S.faults sink.new)) }
    ensures once { OnErr result (CountedOne (S.faults sink.old) (S.faults sink.new)) }
{
    let mut rest = bytes;
    while !rest.is_empty() {
        let count = sink.write_piece(rest)?;
        rest = &rest[count..];
    }
    Ok(())
}
