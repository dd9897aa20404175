//! Files that are read in pieces.
ghost use Rattle.std.specs.Prelude.{◌≡◌, ◌≢◌, ℕ, ◌+◌, ◌<◌, ◌≤◌, List, Option, None, IfOk, IfSome};
ghost use Rattle.std.specs.Prelude.{IsOkUnless, OnOk, length, vec_len};
ghost use Rattle.outside_io.specs.Faults.{Grew, NameFailed, OnlyFailed};
ghost use Rattle.outside_io.specs.Pieces.{AppendsPiece, IsPiece};

use std::alloc::Global;
use thiserror::Error;

/// The most bytes that a table's file or a script may hold.
pub const MOST_BYTES: u64 = 67_108_864;

// How many bytes `read_whole` asks for at each call.
const PIECE: usize = 65_536;

/// The limits of this layer: a file has at most 67,108,864 bytes, and a piece 65,536.
pub fn limits()
    ensures most_bytes { MOST_BYTES ≡ 67_108_864 }
    ensures piece { PIECE ≡ 65_536 }
{}

/// Why a piece was not read.
///
/// `OutOfMemory` means that a fault could not be noted, or that the file could not be opened within
/// the memory that is left. No fault is counted then.
#[derive(Clone, Copy, Debug, PartialEq, Eq, Error)]
pub enum PieceRefusal {
    #[error("the read failed")]
    Failed,
    #[error("out of memory")]
    OutOfMemory,
}

/// Why a file was not read whole. The numbers are fixed.
#[derive(Clone, Copy, Debug, PartialEq, Eq, Error)]
pub enum ReadRefusal {
    #[error("the read failed")]
    Failed = 1,
    #[error("the file is too long")]
    TooLong = 2,
    #[error("out of memory")]
    OutOfMemory = 3,
}

impl From<PieceRefusal> for ReadRefusal {
    ghost use Rattle.outside_io.specs.Refusals.{read_refusal_of};

    ghost from_gives = { λ piece whole. whole ≡ read_refusal_of piece };

    fn from(refusal: PieceRefusal) -> ReadRefusal {
        match refusal {
            PieceRefusal::Failed => ReadRefusal::Failed,
            PieceRefusal::OutOfMemory => ReadRefusal::OutOfMemory,
        }
    }
}

/// Files that are read by name, in pieces.
pub trait Files {
    // What the file of a name holds, if that is known. It is none if this type exposes no contents.
    ghost content: { Self → List ℕ → Option (List ℕ) } = { λ _ _. None };

    // The names whose reading failed, one for each fault, in order.
    ghost failed: { Self → List (List ℕ) };

    /// Reads the bytes from offset `at` on into the buffer, and answers how many it read. It reads
    /// none exactly if the buffer is empty or the file ends at or before `at`.
    ///
    /// A name that does not exist is a fault, so the answer is `Failed`. A refusal does not change
    /// what the files hold.
    fn read_piece(&mut self, name: &str, at: u64, buf: &mut [u8]) -> Result<usize, PieceRefusal>
        ensures kept { (any : List ℕ) → content self.new any ≡ content self.old any }
        ensures within { IfOk result (λ count. count ≤ length buf.new) }
        ensures piece { IfOk result (λ count. IfSome (content self.old name.now)
            (λ file. IsPiece file at buf.new count)) }
        ensures grew { Grew (failed self.old) (failed self.new) }
        ensures ok { OnOk result (failed self.new ≡ failed self.old) }
        ensures fault { result ≡ Err PieceRefusal.Failed →
            NameFailed (failed self.old) (failed self.new) name.now }
        ensures only { result ≡ Err PieceRefusal.Failed →
            OnlyFailed (failed self.old) (failed self.new) name.now }
        ensures memory { result ≡ Err PieceRefusal.OutOfMemory →
            failed self.new ≡ failed self.old };
}

/// Reads a file whole, in pieces of at most 65,536 bytes. Each piece begins at the offset at which
/// the bytes taken so far end. The last piece is empty, or takes the total past `limit` bytes.
///
/// `TooLong` means that the file holds more than `limit` bytes. `Failed` means that a piece failed.
/// After any refusal the bytes read so far are dropped.
pub fn read_whole<F: Files>(
    alloc: Global,
    files: &mut F,
    name: &str,
    limit: u64,
) -> Result<Vec<u8>, ReadRefusal>
    requires { limit ≤ MOST_BYTES }
    ensures kept { (any : List ℕ) → F.content files.new any ≡ F.content files.old any }
    ensures grew { Grew (F.failed files.old) (F.failed files.new) }
    ensures whole { IfOk result (λ bytes. IfSome (F.content files.old name.now)
        (λ file. bytes.items ≡ file)) }
    ensures within { IfOk result (λ bytes. vec_len bytes ≤ limit) }
    ensures too_long { result ≡ Err ReadRefusal.TooLong →
        IfSome (F.content files.old name.now) (λ file. limit < length file) }
    ensures fault { result ≡ Err ReadRefusal.Failed →
        NameFailed (F.failed files.old) (F.failed files.new) name.now }
    ensures only { result ≡ Err ReadRefusal.Failed →
        OnlyFailed (F.failed files.old) (F.failed files.new) name.now }
    ensures no_fault { result ≢ Err ReadRefusal.Failed → F.failed files.new ≡ F.failed files.old }
{
    let mut piece = empty_piece(alloc)?;
    let mut taken = Vec::new(alloc);
    while taken.len() as u64 <= limit {
        if take_piece(files, name, piece.as_mut_slice(), &mut taken)? == 0 {
            return Ok(taken);
        }
    }
    Err(ReadRefusal::TooLong)
}

// A buffer for one piece.
fn empty_piece(alloc: Global) -> Result<Vec<u8>, ReadRefusal>
    ensures room { IfOk result (λ piece. 0 < vec_len piece) }
    ensures memory { IsOkUnless result ReadRefusal.OutOfMemory }
{
    vec![in alloc; 0u8; PIECE].map_err(|_| ReadRefusal::OutOfMemory)
}

// Reads the piece that follows the bytes taken so far, appends it, and answers its length.
fn take_piece<F: Files>(
    files: &mut F,
    name: &str,
    piece: &mut [u8],
    taken: &mut Vec<u8>,
) -> Result<usize, ReadRefusal>
    requires { 0 < length piece.old }
    ensures kept { (any : List ℕ) → F.content files.new any ≡ F.content files.old any }
    ensures grew { Grew (F.failed files.old) (F.failed files.new) }
    ensures len { IfOk result (λ count. vec_len taken.new ≡ vec_len taken.old + count) }
    ensures appended { IfOk result (λ count. IfSome (F.content files.old name.now)
        (λ file. AppendsPiece file taken.old.items taken.new.items)) }
    ensures ended { result ≡ Ok 0 →
        IfSome (F.content files.old name.now) (λ file. length file ≤ vec_len taken.old) }
    ensures not_too_long { result ≢ Err ReadRefusal.TooLong }
    ensures fault { result ≡ Err ReadRefusal.Failed →
        NameFailed (F.failed files.old) (F.failed files.new) name.now }
    ensures only { result ≡ Err ReadRefusal.Failed →
        OnlyFailed (F.failed files.old) (F.failed files.new) name.now }
    ensures no_fault { result ≢ Err ReadRefusal.Failed → F.failed files.new ≡ F.failed files.old }
{
    let count = files.read_piece(name, taken.len() as u64, piece)?;
    taken
        .extend_from_slice(&piece[..count])
        .map_err(|_| ReadRefusal::OutOfMemory)?;
    Ok(count)
}
