//! What the tests' tables serve: task sets that are given by their totals, and cells of pieces.
ghost use Rattle.std.specs.Prelude.{◌≡◌};
ghost use Rattle.station_rows.specs.Totals.{listed_total};

use slot_station::station::Fits;

/// A cell's value: whose it is, and of which task set.
#[derive(Debug, PartialEq, Eq, Drop)]
pub struct Piece {
    pub worker: u32,
    pub id: u32,
}

/// A subject: how many queries there are, and the ids of the task sets with their totals.
#[derive(Drop)]
pub struct Sets {
    pub queries: u32,
    pub totals: Vec<(u32, u32)>,
}

impl Fits for Piece {
    type Subject = Sets;

    ghost queries = { λ s. s.queries };

    ghost total = { λ s. listed_total s.totals.items };

    ghost fits = { λ s w id ranges p. (p.worker ≡ w) × (p.id ≡ id) };
}

impl Sets {
    /// The total of a task set.
    pub fn total(&self, id: u32) -> Option<u32>
        ensures { result ≡ listed_total self.now.totals.items id }
    {
        let set = self.totals.iter().find(|set| set.0 == id)?;
        Some(set.1)
    }
}
