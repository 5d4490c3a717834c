//! What standard error gets where words are refused: which word wasn't understood, and the shapes of those that are.

use std::alloc::{AllocError, Global};

/// The shapes of words. The ranges are those of sc_top_words; `tools/tests/usage` holds both against the program.
const SHAPES: &str = "\
usage: scott COMMAND [OPTION ..] < FILE
  check                    the proof behind a problem: is each line a step, and the last one $F?
  prove                    a problem: a run of the prover, with a proof where it finds one
    --finders 0 to 8       how many model finders run beside it; 0: one, between its turns (2)
    --size 1 to 8          how many elements the first finder's models have (2)
    --nodes 1 to 10000000  how many nodes each search for a model may take (100000)
    --candidates 0 to 128  how many input clauses each finder tries to satisfy (128)
  model                    a problem: its first model of a size, or of the least size that has one
    --size 1 to 8          how many elements it has (2)
    --upto 1 to 8          how many it may have: sizes are tried from --size on (none)
    --nodes 1 to 10000000  how many nodes each piece of the search may take (100000)
    --workers 1 to 8       how many look for it (1)
  bench N                  the prover on a ladder of 1 to 1000 rungs; nothing is read
An option is `--name value` or `--name=value`, once, in any order behind the command; a value is
1 to 10 digits. In parentheses stands what holds without it. More is in docs/scott.1 and README.md.
";

/// An option: its command, its name, and the least and the greatest value.
type Row = (&'static str, &'static str, u64, u64);

/// The first size where none is given.
const USUAL_SIZE: u64 = 2;

const OPTIONS: [Row; 8] = [
    ("prove", "--finders", 0, 8),
    ("prove", "--size", 1, 8),
    ("prove", "--nodes", 1, 10_000_000),
    ("prove", "--candidates", 0, 128),
    ("model", "--size", 1, 8),
    ("model", "--upto", 1, 8),
    ("model", "--nodes", 1, 10_000_000),
    ("model", "--workers", 1, 8),
];

fn row_of(command: &str, name: &str) -> Option<Row> {
    for row in OPTIONS {
        if row.0 == command && row.1 == name {
            return Some(row);
        }
    }
    None
}

/// Whether it is 1 to 10 digits, of a number in the range.
fn is_in_range(value: &str, from: u64, to: u64) -> bool {
    let is_value = value.len() <= 10 && value.bytes().all(|byte| byte.is_ascii_digit());
    is_value && matches!(value.parse::<u64>(), Ok(number) if from <= number && number <= to)
}

/// The number behind the name, of words that are understood one by one.
fn number_of(words: &[String], name: &str) -> Option<u64> {
    let mut is_next = false;
    for word in words {
        let value = match word.split_once('=') {
            Some((front, value)) if front == name => Some(value),
            _ => if is_next { Some(word.as_str()) } else { None },
        };
        if let Some(value) = value {
            return value.parse::<u64>().ok();
        }
        is_next = word.as_str() == name;
    }
    None
}

/// Why words are refused that are understood one by one: the sizes end before they begin, or an option stands twice.
fn about_all(alloc: Global, command: &str, words: &[String]) -> Result<String, AllocError> {
    let first = number_of(words, "--size").unwrap_or(USUAL_SIZE);
    match number_of(words, "--upto") {
        Some(last) if last < first => format!(in alloc; "--upto {last} is below --size {first}"),
        _ => format!(in alloc; "an option of {command} stands twice"),
    }
}

/// The first word behind a command with options that isn't understood; where each is, why they don't go together.
fn about_options(alloc: Global, command: &str, words: &[String]) -> Result<String, AllocError> {
    let mut open = None;
    for word in words {
        let (name, inside) = match word.split_once('=') {
            Some((name, value)) => (name, Some(value)),
            None => (word.as_str(), None),
        };
        let (row, value) = match open {
            Some(row) => (Some(row), Some(word.as_str())),
            None => (row_of(command, name), inside),
        };
        let Some((_, option, from, to)) = row else {
            return format!(in alloc; "{command} has no option {name:?}");
        };
        open = match value {
            None => row,
            Some(value) if is_in_range(value, from, to) => None,
            Some(value) => return format!(in alloc;
                "{option} takes a number from {from} to {to}, and not {value:?}"
            ),
        };
    }
    match open {
        Some((_, option, from, to)) => format!(in alloc;
            "{option} takes a number from {from} to {to}"
        ),
        None => about_all(alloc, command, words),
    }
}

/// What is wrong with words that are refused.
fn about(alloc: Global, words: &[String]) -> Result<String, AllocError> {
    match words {
        [] => format!(in alloc; "a command is wanted"),
        [command, rest @ ..] => match command.as_str() {
            "prove" | "model" => about_options(alloc, command, rest),
            "check" => format!(in alloc; "check takes no word more"),
            "bench" => format!(in alloc; "bench takes one number more, from 1 to 1000"),
            other => format!(in alloc; "there is no command {other:?}"),
        },
    }
}

/// What is wrong with words that are refused, and the shapes of those that aren't.
pub fn usage_text(alloc: Global, words: &[String]) -> Result<String, AllocError> {
    let about = about(alloc, words)?;
    format!(in alloc; "scott: {about}\n{SHAPES}")
}
