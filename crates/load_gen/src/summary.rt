// The text about the run of a large input.
use std::fmt;

/// The numbers of the run of a large input. As text it is one line for each of them, and then
/// `end`.
#[derive(Clone, Copy, Debug, PartialEq, Eq)]
pub struct Summary {
    /// The number that the input was made of.
    pub number: u32,
    /// The rows of its tables.
    pub rows: u64,
    /// Its queries.
    pub queries: u32,
    /// The task sets of these queries.
    pub sets: u64,
    /// The queries that were answered.
    pub answered: u64,
    /// The lines of all answers.
    pub lines: u128,
    /// The claims of all task sets.
    pub ranges: u128,
}

impl fmt::Display for Summary {
    ghost use Rattle.std.specs.Prelude.{Some};
    ghost use Rattle.load_gen.specs.Summaries.{summary_text};

    ghost output = { λ summary. Some (summary_text summary) };

    fn fmt<W: fmt::Write>(&self, f: &mut fmt::Formatter<W>) -> fmt::Result {
        write!(
            f,
            "number {}\nrows {}\nqueries {}\nsets {}\nanswered {}\nlines {}\nranges {}\nend\n",
            self.number, self.rows, self.queries, self.sets, self.answered, self.lines, self.ranges
        )
    }
}
