//! The words that the process was given, or why there are none.
ghost use Rattle.std.specs.Prelude.{◌≡◌, ◌≢◌, IfErr, IfOk};
ghost use Rattle.sched_tool.specs.Programs.{asks_for_run, words_in};
ghost use Rattle.std.specs.IoError.{error_kind};
ghost use Rattle.std.specs.declared.io.ErrorKind.{ErrorKind};
ghost use Rattle.sched_tool.specs.declared.program.given.GivenWords.{GivenWords};

use std::io;

/// What the process was given after the program's name.
#[derive(Debug, Drop)]
pub enum GivenWords {
    Words(Vec<String>),
    /// A word is not UTF-8.
    NotText,
    /// Memory ran out for the words.
    OutOfMemory,
}

impl GivenWords {
    /// What reading the words of the process gave. Beside words that are not UTF-8 (`InvalidData`),
    /// only memory fails there, so any other error counts as out of memory.
    pub fn of(words: io::Result<Vec<String>>) -> GivenWords
        ensures words { IfOk words (λ all. result ≡ GivenWords.Words all) }
        ensures not_text { IfErr words
            (λ error. error_kind error ≡ ErrorKind.InvalidData → result ≡ GivenWords.NotText) }
        ensures memory { IfErr words
            (λ error. error_kind error ≢ ErrorKind.InvalidData → result ≡ GivenWords.OutOfMemory) }
    {
        match words {
            Ok(words) => GivenWords::Words(words),
            Err(error) if error.kind() == io::ErrorKind::InvalidData => GivenWords::NotText,
            Err(_) => GivenWords::OutOfMemory,
        }
    }

    /// Whether the first word is `run`.
    pub fn ask_for_run(&self) -> bool
        ensures { result ≡ asks_for_run (words_in self.now) }
    {
        match self {
            GivenWords::Words(words) => asks_for_run(words.as_slice()),
            _ => false,
        }
    }
}

/// Whether the first of the words is `run`.
pub fn asks_for_run(words: &[String]) -> bool
    ensures { result ≡ asks_for_run words.now }
{
    match words {
        [] => false,
        [first, ..] => first.as_str() == "run",
    }
}
