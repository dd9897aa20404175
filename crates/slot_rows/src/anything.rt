//! Cells whose values say nothing.

use slot_station::station::Fits;

/// A cell's value that fits whatever was claimed, of a subject with no query.
#[derive(Drop)]
pub struct Anything;

impl Fits for Anything {
    ghost use Rattle.std.specs.Prelude.{None};

    type Subject = ();

    ghost queries = { λ _. 0 };

    ghost total = { λ _ _. None };

    ghost fits = { λ _ _ _ _ _. Unit {0} };
}
