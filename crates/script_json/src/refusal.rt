// Why bytes are not a script, and where.
ghost use Rattle.std.specs.Prelude.{◌≡◌, IfOk};
ghost use Rattle.script_json.specs.Paths.{here, lengthened, within};

use col_table::{ListOf, Text};
use std::alloc::{AllocError, AllocFailed, Global};
use std::fmt;

/// A step of a path: to the value under a key of an object, or to an item of an array. Items are
/// counted from 0.
#[derive(Debug, Drop)]
pub enum PathStep {
    Key(Text),
    At(u32),
}

/// The place of a value in a script: the steps from the root. As text it is `$`, and then `.key` or
/// `[n]` for each step.
#[derive(Debug, Drop)]
pub struct Path {
    pub steps: ListOf<PathStep>,
}

/// Why bytes are not a script. As text it is the words of its error line.
///
/// Each path is that of the refused value. A missing value has the path that it would have.
#[derive(Debug, Drop)]
pub enum ScriptRefusal {
    /// The bytes are not JSON, or nest deeper than 127.
    NotJson,
    /// `version` is a number other than 1.
    VersionUnknown,
    /// An object has a key that it may not have.
    UnknownKey(Path),
    /// A value is missing, has the wrong JSON kind, or has too few items.
    WrongShape(Path),
    /// A number is not whole, or is out of its range.
    WrongNumber(Path),
    /// An array has too many items.
    TooMany(Path),
    /// A text is not valid at its place: a name, a file's name, or one of a few words.
    BadText(Path),
    /// A table has the name of an earlier table.
    TwiceNamed(Path),
    /// This query, counted from 0, waits for more task sets than the queries before it have.
    AfterTooLarge(u32),
    /// Out of memory.
    OutOfMemory,
}

impl From<AllocError> for ScriptRefusal {
    ghost use Rattle.script_json.specs.declared.refusal.ScriptRefusal.TheVariants.{OutOfMemory};

    ghost from_gives = { λ _ refusal. refusal ≡ OutOfMemory };

    fn from(_: AllocError) -> ScriptRefusal {
        ScriptRefusal::OutOfMemory
    }
}

impl<T: Drop> From<AllocFailed<T>> for ScriptRefusal {
    ghost use Rattle.script_json.specs.declared.refusal.ScriptRefusal.TheVariants.{OutOfMemory};

    ghost from_gives = { λ _ refusal. refusal ≡ OutOfMemory };

    fn from(_: AllocFailed<T>) -> ScriptRefusal {
        ScriptRefusal::OutOfMemory
    }
}

impl Path {
    // The path of the value that is being read.
    fn here(alloc: Global) -> Path
        ensures { result ≡ here }
    {
        Path {
            steps: ListOf::of(Vec::new(alloc)),
        }
    }

    // The path of a place, seen from one step above it.
    fn below(self, step: PathStep) -> Result<Path, AllocError>
        ensures { IfOk result (λ path. path ≡ lengthened step self) }
    {
        let mut steps = self.steps.into_vec();
        steps.insert(0, step)?;
        Ok(Path {
            steps: ListOf::of(steps),
        })
    }
}

impl ScriptRefusal {
    ghost use Rattle.script_json.specs.Forms.{bad_text, too_many, unknown_key, twice_named};
    ghost use Rattle.script_json.specs.Forms.{wrong_number, wrong_shape};

    // The refusals of the value that is being read.
    pub(crate) fn unknown_key(alloc: Global) -> ScriptRefusal
        ensures { result ≡ unknown_key }
    {
        ScriptRefusal::UnknownKey(Path::here(alloc))
    }

    pub(crate) fn wrong_shape(alloc: Global) -> ScriptRefusal
        ensures { result ≡ wrong_shape }
    {
        ScriptRefusal::WrongShape(Path::here(alloc))
    }

    pub(crate) fn wrong_number(alloc: Global) -> ScriptRefusal
        ensures { result ≡ wrong_number }
    {
        ScriptRefusal::WrongNumber(Path::here(alloc))
    }

    pub(crate) fn too_many(alloc: Global) -> ScriptRefusal
        ensures { result ≡ too_many }
    {
        ScriptRefusal::TooMany(Path::here(alloc))
    }

    pub(crate) fn bad_text(alloc: Global) -> ScriptRefusal
        ensures { result ≡ bad_text }
    {
        ScriptRefusal::BadText(Path::here(alloc))
    }

    pub(crate) fn twice_named(alloc: Global) -> ScriptRefusal
        ensures { result ≡ twice_named }
    {
        ScriptRefusal::TwiceNamed(Path::here(alloc))
    }

    // The refusal of a place, seen from one step above it.
    pub(crate) fn below(self, step: PathStep) -> Result<ScriptRefusal, AllocError>
        ensures { IfOk result (λ refusal. refusal ≡ within step self) }
    {
        Ok(match self {
            ScriptRefusal::UnknownKey(path) => ScriptRefusal::UnknownKey(path.below(step)?),
            ScriptRefusal::WrongShape(path) => ScriptRefusal::WrongShape(path.below(step)?),
            ScriptRefusal::WrongNumber(path) => ScriptRefusal::WrongNumber(path.below(step)?),
            ScriptRefusal::TooMany(path) => ScriptRefusal::TooMany(path.below(step)?),
            ScriptRefusal::BadText(path) => ScriptRefusal::BadText(path.below(step)?),
            ScriptRefusal::TwiceNamed(path) => ScriptRefusal::TwiceNamed(path.below(step)?),
            other => other,
        })
    }
}

impl fmt::Display for PathStep {
    ghost use Rattle.std.specs.Prelude.{Some};
    ghost use Rattle.script_json.specs.Paths.{step_text};

    ghost output = { λ step. Some (step_text step) };

    fn fmt<W: fmt::Write>(&self, f: &mut fmt::Formatter<W>) -> fmt::Result {
        match self {
            PathStep::Key(key) => write!(f, ".{}", key.as_str()),
            PathStep::At(index) => write!(f, "[{index}]"),
        }
    }
}

impl fmt::Display for Path {
    ghost use Rattle.std.specs.Prelude.{Some};
    ghost use Rattle.script_json.specs.Paths.{path_text};

    ghost output = { λ path. Some (path_text path) };

    fn fmt<W: fmt::Write>(&self, f: &mut fmt::Formatter<W>) -> fmt::Result {
        write!(f, "$")?;
        for step in self.steps.as_slice() {
            write!(f, "{step}")?;
        }
        Ok(())
    }
}

impl fmt::Display for ScriptRefusal {
    ghost use Rattle.std.specs.Prelude.{Some};
    ghost use Rattle.script_json.specs.Paths.{refusal_text};

    ghost output = { λ refusal. Some (refusal_text refusal) };

    fn fmt<W: fmt::Write>(&self, f: &mut fmt::Formatter<W>) -> fmt::Result {
        match self {
            ScriptRefusal::NotJson => write!(f, "not json"),
            ScriptRefusal::VersionUnknown => write!(f, "version unknown"),
            ScriptRefusal::UnknownKey(path) => write!(f, "unknown key in {path}"),
            ScriptRefusal::WrongShape(path) => write!(f, "wrong shape {path}"),
            ScriptRefusal::WrongNumber(path) => write!(f, "wrong number {path}"),
            ScriptRefusal::TooMany(path) => write!(f, "too many {path}"),
            ScriptRefusal::BadText(path) => write!(f, "bad text {path}"),
            ScriptRefusal::TwiceNamed(path) => write!(f, "named twice {path}"),
            ScriptRefusal::AfterTooLarge(query) => write!(f, "query {query}: after too large"),
            ScriptRefusal::OutOfMemory => write!(f, "out of memory"),
        }
    }
}
