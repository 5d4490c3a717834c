//! The readers.

ghost use Rattle.std.specs.Prelude.{◌≡◌, ◌≤◌, ◌-◌, length, drop, Ok, IfOk, IfErr};
ghost use Rattle.sc_input_rules.specs.Token.{at_of};
ghost use Rattle.sc_input_rules.specs.Faults.{judged};
ghost use Rattle.sc_input_rules.specs.ProblemLimits.{problem_bounds, problem_fault_at};
ghost use Rattle.sc_input_rules.specs.Reading.{problem_of, items_of};
ghost use Rattle.sc_input_scan.specs.Told.{Fails, Gives};
ghost use Rattle.sc_input_grammar.specs.Items as grammar;
ghost use Rattle.sc_input.specs.declared.refusal.InputError.TheVariants.{Refused};
ghost use Rattle.sc_input.specs.Refusal.{Refuses};
ghost use Rattle.sc_input.specs.Answer as spec;
ghost use Rattle.sc_input.specs.Answer.{Tells};

use crate::refusal::InputError;
use sc_input_grammar::{Ending, Item};
use sc_input_limits::first_limit;
use sc_input_rules::{InputKind, Place, Problem, Token};
use sc_input_scan::{Stop, scan_problem};
use sc_input_values::problem_from;
use sc_term::List;
use std::alloc::Global;

/// What may stand before a section of a proof or a run.
#[derive(Drop)]
pub struct Items {
    pub problem: Problem,
    /// The byte of the word `proof` or `run` behind the problem, or the number of bytes where none follows.
    pub rest: u64,
}

fn at_of(token: &Token) -> u64
    ensures { result ≡ at_of token.now }
{
    match token {
        Token::Word(at, _) => *at,
        Token::Punctuation(at, _) => *at,
        Token::Refused(at, _) => *at,
    }
}

/// Where the first of the tokens left begins; where none is left, what stands behind them: the byte at which the text
/// ends, or the limit that the last of them passes.
pub fn first_byte(behind: Result<u64, Place>, tokens: &[Token]) -> Result<u64, Place>
    ensures { result ≡ spec.first_byte behind tokens.now }
{
    match tokens {
        [first, ..] => Ok(at_of(first)),
        [] => behind,
    }
}

fn items_at<'a>(
    items: List<Item<'a>>,
    at: Result<u64, Place>,
) -> Result<(List<Item<'a>>, u64), InputError>
    ensures { Tells (λ x. (grammar.items_of x.0, x.1)) result (spec.read_at (grammar.items_of items.entry) at) }
{
    match at {
        Ok(at) => Ok((items, at)),
        Err(place) => Err(InputError::Refused(place)),
    }
}

/// A fault of that kind at the byte; the limit, where the byte stands behind one that is passed.
pub fn fault_at(kind: InputKind, at: Result<u64, Place>) -> InputError
    ensures { result ≡ Refused (spec.fault_at kind at) }
{
    match at {
        Ok(at) => InputError::Refused(Place { at, kind }),
        Err(place) => InputError::Refused(place),
    }
}

/// The last tokens, so many of them.
pub fn last_tokens<'t, 'a>(tokens: &'t [Token<'a>], count: usize) -> &'t [Token<'a>]
    requires { count ≤ length tokens.now }
    ensures { result.now ≡ drop (length tokens.now - count) tokens.now }
{
    let (_, last) = tokens.split_at(tokens.len() - count);
    last
}

/// The items of a problem, which a section of a proof or a run may follow or not.
fn production<'t, 'a>(
    alloc: Global,
    ending: Ending,
    tokens: &'t [Token<'a>],
) -> Result<(List<Item<'a>>, &'t [Token<'a>]), Stop>
    ensures { Gives (λ x. (grammar.items_of x.0, x.1.now)) result (grammar.clipped_items (spec.production ending tokens.now)) }
{
    match ending {
        Ending::AtEnd => sc_input_grammar::read_problem(alloc, tokens),
        Ending::AtSection => sc_input_grammar::read_items(alloc, tokens),
    }
}

/// The items that the tokens begin with, and where the first token left begins, or what stands behind all.
fn items_up_to<'a>(
    alloc: Global,
    ending: Ending,
    behind: Result<u64, Place>,
    tokens: &[Token<'a>],
) -> Result<(List<Item<'a>>, Result<u64, Place>), Stop>
    ensures ok { IfOk result (λ x. spec.answer behind (grammar.clipped_items (spec.production ending tokens.now)) ≡ spec.read_at (grammar.items_of x.0) x.1) }
    ensures err { IfErr result (λ e. Fails e (grammar.clipped_items (spec.production ending tokens.now))) }
{
    let (items, left) = production(alloc, ending, tokens)?;
    Ok((items, first_byte(behind, left)))
}

/// What is read of tokens that pass no limit, or only with the last of them. Behind them stands the byte at which the
/// text ends, or that limit: it is the answer where they are read to their end.
#[tactic(auto, using(crate::proofs::Laws::up_to))]
fn read_up_to<'a>(
    alloc: Global,
    ending: Ending,
    behind: Result<u64, Place>,
    tokens: &[Token<'a>],
) -> Result<(List<Item<'a>>, u64), InputError>
    ensures { Tells (λ x. (grammar.items_of x.0, x.1)) result (spec.answer behind (grammar.clipped_items (spec.production ending tokens.now))) }
{
    match items_up_to(alloc, ending, behind, tokens) {
        Ok((items, at)) => items_at(items, at),
        Err(Stop::At(left, kind)) => {
            let at = first_byte(behind, last_tokens(tokens, left));
            Err(fault_at(kind, at))
        }
        Err(Stop::Memory) => Err(InputError::OutOfMemory),
    }
}

/// What is read of all tokens: those behind the first that passes a limit are never looked at.
#[tactic(auto, using(crate::proofs::Laws::within))]
fn read_tokens<'a>(
    alloc: Global,
    ending: Ending,
    end: u64,
    tokens: &[Token<'a>],
) -> Result<(List<Item<'a>>, u64), InputError>
    ensures { Tells (λ x. (grammar.items_of x.0, x.1)) result (spec.told end (judged (problem_fault_at problem_bounds) end tokens.now (spec.production ending tokens.now))) }
{
    match first_limit(alloc, tokens)? {
        None => read_up_to(alloc, ending, Ok(end), tokens),
        Some(passed) => {
            let (front, _) = tokens.split_at(passed.token + 1);
            read_up_to(alloc, ending, Err(passed.place), front)
        }
    }
}

/// What is read of bytes: the items, and the byte behind them.
fn read_bytes<'a>(
    alloc: Global,
    ending: Ending,
    bytes: &'a [u8],
) -> Result<(List<Item<'a>>, u64), InputError>
    ensures { Tells (λ x. (grammar.items_of x.0, x.1)) result (spec.judged_at ending bytes.now) }
{
    let tokens = scan_problem(alloc, bytes)?;
    read_tokens(alloc, ending, bytes.len() as u64, tokens.as_slice())
}

/// The problem that the bytes spell, as `problem_of` defines it. Time and memory are in proportion to the bytes.
///
/// # Errors
/// The first fault: the byte at which the bytes are refused, and why; or want of memory.
#[tactic(auto, using(crate::proofs::Laws::problems))]
pub fn read_problem(alloc: Global, bytes: &[u8]) -> Result<Problem, InputError>
    ensures ok { IfOk result (λ p. problem_of bytes.now ≡ Ok p) }
    ensures refused { IfErr result (λ e. Refuses e (problem_of bytes.now)) }
{
    let (items, _) = read_bytes(alloc, Ending::AtEnd, bytes)?;
    Ok(problem_from(alloc, items.as_slice())?)
}

/// The problem up to a word `proof` or `run` in an item's place, and the byte of that word, or the number of bytes
/// where none follows, as `items_of` defines it. Time and memory are in proportion to the bytes.
///
/// # Errors
/// The first fault before that word: the byte at which the bytes are refused, and why; or want of memory.
#[tactic(auto, using(crate::proofs::Laws::sections))]
pub fn read_items(alloc: Global, bytes: &[u8]) -> Result<Items, InputError>
    ensures ok { IfOk result (λ r. items_of bytes.now ≡ Ok (record { problem = r.problem; rest = r.rest })) }
    ensures refused { IfErr result (λ e. Refuses e (items_of bytes.now)) }
{
    let (items, rest) = read_bytes(alloc, Ending::AtSection, bytes)?;
    let problem = problem_from(alloc, items.as_slice())?;
    Ok(Items { problem, rest })
}
