// The texts of the parts of a large input.
ghost use Rattle.std.specs.Prelude.{◌≡◌, IfOk};
ghost use Rattle.load_gen.specs.Generated.{ReadsBack, part_text};

use crate::draws::Draws;
use crate::generated::draw_script;
use crate::tables::{T_ROWS, U_ROWS};
use crate::texts::{write_t, write_u};
use script_json::write_script;
use std::alloc::{AllocError, Global};

/// A part of a large input.
#[derive(Clone, Copy, Debug, PartialEq, Eq)]
pub enum Part {
    /// The script, which names the files `t.csv` and `u.csv`.
    Script,
    /// The table `t`.
    TableT,
    /// The table `u`.
    TableU,
}

/// The text of a part of the large input of a number: a script in its canonical form, or a table as
/// CSV.
///
/// Only that part is made: the draws of what comes before it are passed over. A table is written
/// line by line into a text that is reserved once.
pub fn make_part(alloc: Global, number: u32, part: Part) -> Result<Vec<u8>, AllocError>
    ensures text { IfOk result (λ bytes. bytes.items ≡ part_text number part) }
    ensures reads_back { IfOk result (λ bytes. ReadsBack number part bytes.items) }
{
    let mut draws = Draws::new(number);
    match part {
        Part::TableT => write_t(alloc, &mut draws, T_ROWS),
        Part::TableU => {
            draws.skip(3 * T_ROWS);
            write_u(alloc, &mut draws, U_ROWS)
        }
        Part::Script => {
            draws.skip(3 * T_ROWS + U_ROWS);
            let script = draw_script(alloc, &mut draws)?;
            write_script(alloc, &script)
        }
    }
}
