//! The words of the command line.

ghost use Rattle.std.specs.Prelude.{◌≡◌, ◌↔◌, IfSome, IsTrue, MatchOption, codes, string_bytes};
ghost use Rattle.sc_top_words.specs.declared.commands.Command.{Command as ACommand};
ghost use Rattle.sc_top_words.specs.Words.{texts, Asks, IsInRange};
ghost use Rattle.sc_top_words.specs.Taking.{AreInRange, AreInOrder};
ghost use Rattle.sc_top_words.specs.Reading.{IsReadOf, plan_of, model_of};
ghost use Rattle.sc_worker.specs.Plans.{IsPlan};

use crate::options::{OptionName, RUNGS, value_in};
use crate::taking::{Taken, are_in_order, chosen, read_options};
use sc_worker::Plan;

/// What the words ask for.
#[derive(Clone, Copy, Debug, PartialEq, Eq)]
pub enum Command {
    /// A proof is checked.
    Check,
    /// A proof is sought, and models beside it by this plan.
    Prove(Plan),
    /// A model of this size is sought, or of the least size from it up to another, with this budget of nodes for each piece,
    /// by so many workers.
    Model {
        size: u8,
        upto: Option<u8>,
        nodes: u64,
        workers: u32,
    },
    /// A proof of the ladder with so many rungs is sought.
    Bench {
        rungs: u32,
    },
}

fn is_word(word: &String, text: &str) -> bool
    ensures { IsTrue result ↔ (string_bytes word.now ≡ text.now) }
{
    word.as_str() == text
}

fn read_check(words: &[String]) -> Option<Command>
    ensures asked { IsReadOf (codes "check") (texts words.now) result }
    ensures in_range { IfSome result IsInRange }
{
    match words {
        [] => Some(Command::Check),
        [_, ..] => None,
    }
}

/// The plan that the numbers ask for.
fn plan_of(taken: Taken) -> Plan
    requires { AreInRange taken }
    ensures is { result ≡ plan_of taken }
    ensures in_range { IsPlan result }
{
    Plan {
        finders: chosen(OptionName::Finders, taken) as u32,
        first_size: chosen(OptionName::Size, taken) as u8,
        nodes: chosen(OptionName::Nodes, taken),
        candidates: chosen(OptionName::Candidates, taken) as u32,
    }
}

fn read_prove(words: &[String]) -> Option<Command>
    ensures asked { IsReadOf (codes "prove") (texts words.now) result }
    ensures in_range { IfSome result IsInRange }
{
    let taken = read_options(words)?;
    match taken.workers {
        Some(_) => None,
        None => match taken.upto {
            Some(_) => None,
            None => Some(Command::Prove(plan_of(taken))),
        },
    }
}

/// The last size, where one was given.
fn last_size(taken: Taken) -> Option<u8>
    requires { AreInRange taken }
    ensures { result ≡ taken.upto }
{
    match taken.upto {
        Some(last) => Some(last as u8),
        None => None,
    }
}

/// The search for a model that the numbers ask for.
fn model_of(taken: Taken) -> Command
    requires in_range { AreInRange taken }
    requires in_order { AreInOrder taken }
    ensures is { result ≡ model_of taken }
    ensures in_range { IsInRange result }
{
    Command::Model {
        size: chosen(OptionName::Size, taken) as u8,
        upto: last_size(taken),
        nodes: chosen(OptionName::Nodes, taken),
        workers: chosen(OptionName::Workers, taken) as u32,
    }
}

fn read_model(words: &[String]) -> Option<Command>
    ensures asked { IsReadOf (codes "model") (texts words.now) result }
    ensures in_range { IfSome result IsInRange }
{
    let taken = read_options(words)?;
    if !are_in_order(taken) {
        return None;
    }
    match taken.finders {
        Some(_) => None,
        None => match taken.candidates {
            Some(_) => None,
            None => Some(model_of(taken)),
        },
    }
}

fn read_bench(words: &[String]) -> Option<Command>
    ensures asked { IsReadOf (codes "bench") (texts words.now) result }
    ensures in_range { IfSome result IsInRange }
{
    match words {
        [word] => match value_in(RUNGS, word.as_bytes()) {
            Some(rungs) => Some(Command::Bench {
                rungs: rungs as u32,
            }),
            None => None,
        },
        _ => None,
    }
}

/// The command that the first word names, where those behind it ask for it.
fn read_command(word: &String, words: &[String]) -> Option<Command>
    ensures asked { IsReadOf (string_bytes word.now) (texts words.now) result }
    ensures in_range { IfSome result IsInRange }
{
    if is_word(word, "check") {
        return read_check(words);
    }
    if is_word(word, "prove") {
        return read_prove(words);
    }
    if is_word(word, "model") {
        return read_model(words);
    }
    if is_word(word, "bench") {
        return read_bench(words);
    }
    None
}

/// The command that the words ask for, None exactly where they ask for none.
pub fn read_words(words: &[String]) -> Option<Command>
    ensures asked { MatchOption result ((command : ACommand) → ¬ Asks words.now command) (Asks words.now) }
    ensures in_range { IfSome result IsInRange }
{
    match words {
        [word, behind @ ..] => read_command(word, behind),
        [] => None,
    }
}
