//! The list of the names whose reading failed.
ghost use Rattle.std.specs.Prelude.{◌≡◌, [], ◌∷◌, ◌++◌, OnErr, OnOk, map};
ghost use Rattle.std.specs.String.{string_bytes};
ghost use Rattle.outside_io.specs.Faults.{Grew, NameFailed, OnlyFailed};

use super::reading::PieceRefusal;
use std::alloc::{AllocError, Global};

// Appends a name to those that failed, and answers the refusal of the call that met the fault.
pub(super) fn note_fault(alloc: Global, failed: &mut Vec<String>, name: &str) -> PieceRefusal
    ensures grew { Grew (map string_bytes failed.old.items) (map string_bytes failed.new.items) }
    ensures fault { result ≡ PieceRefusal.Failed → NameFailed
        (map string_bytes failed.old.items) (map string_bytes failed.new.items) name.now }
    ensures only { result ≡ PieceRefusal.Failed → OnlyFailed
        (map string_bytes failed.old.items) (map string_bytes failed.new.items) name.now }
    ensures memory { result ≡ PieceRefusal.OutOfMemory → failed.new.items ≡ failed.old.items }
{
    match push_name(alloc, failed, name) {
        Ok(()) => PieceRefusal::Failed,
        Err(AllocError) => PieceRefusal::OutOfMemory,
    }
}

// Appends a name. A refusal leaves the names as they were.
fn push_name(alloc: Global, names: &mut Vec<String>, name: &str) -> Result<(), AllocError>
    ensures ok { OnOk result (map string_bytes names.new.items
        ≡ map string_bytes names.old.items ++ name.now ∷ []) }
    ensures err { OnErr result (names.new.items ≡ names.old.items) }
{
    names.push(String::from_str(alloc, name)?)?;
    Ok(())
}
