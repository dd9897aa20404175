//! The words after the command: options with their values, and positional words.
ghost use Rattle.std.specs.Prelude.{◌≡◌, ℕ, List, map};
ghost use Rattle.std.specs.Option.{option_map};
ghost use Rattle.std.specs.String.{string_bytes};
ghost use Rattle.sched_tool.specs.Grammar.{begins_with_dash, given_by, is_option_word, nothing};
ghost use Rattle.sched_tool.specs.Grammar.{option_of, with_joined, with_option, with_word};
ghost use Rattle.sched_tool.specs.Grammar.{with_words};
ghost use Rattle.sched_tool.specs.Lines.{seen};

/// An option.
#[derive(Clone, Copy, Debug, PartialEq, Eq)]
pub enum OptionName {
    Workers,
    Slots,
    Order,
}

/// What the words after the command give: the value of each option, and up to two other words.
#[derive(Clone, Copy, Debug)]
pub struct Line<'a> {
    pub workers: Option<&'a str>,
    pub slots: Option<&'a str>,
    pub order: Option<&'a str>,
    pub first: Option<&'a str>,
    pub second: Option<&'a str>,
}

/// Reads the words after the command. It gives nothing if an option is unknown, has no value or is
/// given twice, or if there are more than two other words. It never allocates.
pub fn read_line(words: &[String]) -> Option<Line<'_>>
    ensures { option_map seen result ≡ given_by nothing (map string_bytes words.now) }
{
    let mut line = Line {
        workers: None,
        slots: None,
        order: None,
        first: None,
        second: None,
    };
    let mut rest = words;
    while let Some((word, more)) = rest.split_first() {
        let word = word.as_str();
        if word == "--" {
            return with_words(line, more);
        }
        if !is_option_word(word) {
            line = with_word(line, word)?;
            rest = more;
        } else if let Some(name) = option_of(word) {
            let (value, after) = more.split_first()?;
            if begins_with_dash(value.as_str()) {
                return None;
            }
            line = with_option(line, name, value.as_str())?;
            rest = after;
        } else {
            line = with_joined(line, word)?;
            rest = more;
        }
    }
    Some(line)
}

// Adds words that are all positional.
fn with_words<'a>(line: Line<'a>, words: &'a [String]) -> Option<Line<'a>>
    ensures { option_map seen result ≡ with_words (seen line.entry) (map string_bytes words.now) }
{
    let mut line = line;
    for word in words {
        line = with_word(line, word.as_str())?;
    }
    Some(line)
}

// Adds a positional word.
fn with_word<'a>(line: Line<'a>, word: &'a str) -> Option<Line<'a>>
    ensures { option_map seen result ≡ with_word word.now (seen line.entry) }
{
    if line.first.is_none() {
        Some(Line {
            first: Some(word),
            ..line
        })
    } else if line.second.is_none() {
        Some(Line {
            second: Some(word),
            ..line
        })
    } else {
        None
    }
}

// Adds an option with its value.
fn with_option<'a>(line: Line<'a>, name: OptionName, value: &'a str) -> Option<Line<'a>>
    ensures { option_map seen result ≡ with_option name value.now (seen line.entry) }
{
    match name {
        OptionName::Workers if line.workers.is_none() => Some(Line {
            workers: Some(value),
            ..line
        }),
        OptionName::Slots if line.slots.is_none() => Some(Line {
            slots: Some(value),
            ..line
        }),
        OptionName::Order if line.order.is_none() => Some(Line {
            order: Some(value),
            ..line
        }),
        _ => None,
    }
}

// Adds an option that has its value behind `=` in one word.
fn with_joined<'a>(line: Line<'a>, word: &'a str) -> Option<Line<'a>>
    ensures { option_map seen result ≡ with_joined word.now (seen line.entry) }
{
    let (name, value) = word.split_once('=')?;
    with_option(line, option_of(name)?, value)
}

// The option that a text spells.
fn option_of(text: &str) -> Option<OptionName>
    ensures { result ≡ option_of text.now }
{
    match text {
        "--workers" => Some(OptionName::Workers),
        "--slots" => Some(OptionName::Slots),
        "--order" => Some(OptionName::Order),
        _ => None,
    }
}

// Whether a word is an option, known or not: it begins with `-`, and is not `-` alone.
fn is_option_word(word: &str) -> bool
    ensures { result ≡ is_option_word word.now }
{
    begins_with_dash(word) && word.len() > 1
}

// Whether a word begins with `-`.
fn begins_with_dash(word: &str) -> bool
    ensures { result ≡ begins_with_dash word.now }
{
    match word.as_bytes() {
        [] => false,
        [first, ..] => *first == b'-',
    }
}
