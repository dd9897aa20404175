//! A law of the definitions alone. Its function does nothing: its contract is the law.
ghost use Rattle.std.specs.Prelude.{ℕ, List};
ghost use Rattle.col_table.specs.Verdicts.{HasOneVerdict};
ghost use Rattle.csv_tables.specs.Verdicts.{IsVerdict};

/// Each text stands for exactly one table or has exactly one first refusal, and never both.
pub fn one_verdict()
    ensures { (bytes : List ℕ) → HasOneVerdict (IsVerdict bytes) }
{}
