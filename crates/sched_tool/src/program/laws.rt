//! Laws over definitions alone: what commands accept, answer and refuse, and how words are read.
ghost use Rattle.sched_tool.specs.Items.{PlacesAreFree, ReadsLines};
ghost use Rattle.sched_tool.specs.Verdicts.{OneText, OneVerdict, OneVerdictByThreads};

use outside_io::Meter;

/// Two texts that answer the same words whole are the same bytes, if the contents of the files are
/// known, and the meter has one time for so many tuples of a query's cost. It holds of every
/// command that goes on one thread, whatever the order of a run. `run` is not among them.
pub fn one_text()
    ensures { OneText }
{}

/// If the contents of the files are known, no words are both accepted and refused, and words that
/// are refused are so for one reason. It holds of every command, of `run` too, and of words outside
/// the grammar.
pub fn one_verdict<M: Meter>()
    ensures on_one_thread { OneVerdict M.may_take }
    ensures by_threads { OneVerdictByThreads M.may_take }
{}

/// Words are read as they are written: options, each with its value behind `=` or as the next word,
/// and positional words. All other words, and an option given twice, are refused.
pub fn reads_lines()
    ensures { ReadsLines }
{}

/// Options may stand at any place before `--`, and in either form: what the words mean is the same.
pub fn places_are_free()
    ensures { PlacesAreFree }
{}
