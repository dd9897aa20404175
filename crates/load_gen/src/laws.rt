//! The sizes of every large input.
ghost use Rattle.std.specs.Prelude.{◌≡◌};

use crate::queries::QUERY_COUNT;
use crate::tables::{T_ROWS, U_ROWS};

/// The table `t` has 200,000 rows, the table `u` has 1,000, and there are 40 queries.
pub fn limits()
    ensures t_rows { T_ROWS ≡ 200_000 }
    ensures u_rows { U_ROWS ≡ 1_000 }
    ensures queries { QUERY_COUNT ≡ 40 }
{}
