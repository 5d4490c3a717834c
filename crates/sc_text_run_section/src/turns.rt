//! Reading the rows of the turns, and the end.

ghost use Rattle.std.specs.Prelude.{◌≡◌, ◌≤◌, ◌<◌, ◌-◌, ◌^◌, length, map, codes, IfOk};
ghost use Rattle.sc_input_rules.specs.ProblemGrammar.{next_is_word};
ghost use Rattle.sc_core_rules.specs.declared.row.Outcome.TheVariants.{GivenLimit, KeptLimit, WorkLimit};
ghost use Rattle.sc_input_scan.specs.Told.{Gives};
ghost use Rattle.sc_text_section.specs.Clipped.{seen_by};
ghost use Rattle.sc_text_run_rules.specs.RowWords.{counted};
ghost use Rattle.sc_text_run_rules.specs.RowGrammar as of;
ghost use Rattle.sc_text_run_rules.specs.RunSection as whole;
ghost use Rattle.sc_text_run_section.specs.Seen.{clipped_kept, clipped_kept_row, clipped_turns, turns_of};

use crate::number::{Expected, number_in, row_number, the_row_number};
use crate::words::{a_cause, a_truth, a_version_name, an_end, numbers};
use sc_core_rules::{GivenRow, KeptRow, Outcome};
use sc_input_rules::{Sign, Token};
use sc_input_scan::{Rest, Stop, a_word, next_is_word, stop_at, the_sign, the_word};
use sc_term::{List, Signature};
use sc_text_run_rules::{FinderEnd, MarkRow};
use sc_text_section::read_text_clause;
use std::alloc::Global;

/// What the rows behind the versions tell.
#[derive(Debug, Drop)]
pub struct Turns {
    pub given: List<GivenRow>,
    pub kept: List<KeptRow>,
    pub ends: List<FinderEnd>,
    pub outcome: Outcome,
}

/// The given row of the turn.
fn given_row<'t, 'a>(
    alloc: Global,
    turn: u64,
    tokens: &'t [Token<'a>],
) -> Result<(GivenRow, &'t [Token<'a>]), Stop>
    requires { turn < 2 ^ 64 - 1 }
    ensures { Gives (λ x. (x.0, x.1.now)) result (of.a_given_row turn tokens.now) }
{
    let rest = the_word(b"given".as_slice(), tokens)?;
    let (turn, rest) = the_row_number(turn, rest)?;
    let (number, rest) = row_number(rest)?;
    let (cause, rest) = a_cause(rest)?;
    let (name, rest) = a_version_name(rest)?;
    let (truth, rest) = a_truth(rest)?;
    let (lengths, rest) = numbers(alloc, rest)?;
    let row = GivenRow {
        turn,
        number,
        cause,
        name,
        truth,
        lengths,
    };
    Ok((row, rest))
}

/// The given rows of the turns from 1 on.
fn given_rows<'t, 'a>(
    alloc: Global,
    tokens: &'t [Token<'a>],
) -> Result<(List<GivenRow>, &'t [Token<'a>]), Stop>
    ensures { Gives (λ x. (x.0, x.1.now)) result (of.given_rows 1 tokens.now) }
{
    let mut front = List::new(alloc);
    let mut rest = Rest::new(tokens);
    for earlier in 0..tokens.len() {
        let left = rest.tokens();
        if !next_is_word(b"given".as_slice(), left) {
            return Ok((front, left));
        }
        let (row, after) = given_row(alloc, earlier as u64 + 1, left)?;
        front.push(row)?;
        rest = Rest::new(after);
    }
    Ok((front, rest.tokens()))
}

/// A kept row of that number or a greater one.
fn kept_row<'t, 'a>(
    alloc: Global,
    sig: &Signature,
    least: u64,
    tokens: &'t [Token<'a>],
) -> Result<(KeptRow, &'t [Token<'a>]), Stop>
    requires { least < 2 ^ 64 - 1 }
    ensures value { Gives (λ x. (x.0, x.1.now)) result (clipped_kept_row sig.now least tokens.now) }
    ensures small { IfOk result (λ x. x.0.number < 2 ^ 32) }
{
    let rest = the_word(b"kept".as_slice(), tokens)?;
    let (number, rest) = number_in(Expected::AtLeast(least), 0, u32::MAX, rest)?;
    let (turn, rest) = row_number(rest)?;
    let (weight, rest) = row_number(rest)?;
    let rest = the_sign(Sign::Colon, rest)?;
    let (clause, rest) = read_text_clause(alloc, sig, rest)?;
    let row = KeptRow {
        number,
        turn,
        weight,
        clause,
    };
    Ok((row, rest))
}

/// The kept rows, whose numbers rise.
fn kept_rows<'t, 'a>(
    alloc: Global,
    sig: &Signature,
    tokens: &'t [Token<'a>],
) -> Result<(List<KeptRow>, &'t [Token<'a>]), Stop>
    ensures { Gives (λ x. (x.0, x.1.now)) result (seen_by (map clipped_kept) (of.kept_rows sig.now 0 tokens.now)) }
{
    let mut front = List::new(alloc);
    let mut rest = Rest::new(tokens);
    let mut least: u64 = 0;
    for _ in 0..tokens.len() {
        let left = rest.tokens();
        if !next_is_word(b"kept".as_slice(), left) {
            return Ok((front, left));
        }
        let (row, after) = kept_row(alloc, sig, least, left)?;
        least = u64::from(row.number) + 1;
        front.push(row)?;
        rest = Rest::new(after);
    }
    Ok((front, rest.tokens()))
}

/// How the finder of that number ended.
fn finder_row<'t, 'a>(
    finder: u64,
    tokens: &'t [Token<'a>],
) -> Result<(FinderEnd, &'t [Token<'a>]), Stop>
    requires { finder < 2 ^ 64 - 1 }
    ensures { Gives (λ x. (x.0, x.1.now)) result (of.a_finder_row finder tokens.now) }
{
    let rest = the_word(b"finder".as_slice(), tokens)?;
    let (_, rest) = the_row_number(finder, rest)?;
    let (end, rest) = an_end(rest)?;
    let rest = the_sign(Sign::Stop, rest)?;
    Ok((end, rest))
}

/// How each of so many finders ended.
fn finder_rows<'t, 'a>(
    alloc: Global,
    count: usize,
    tokens: &'t [Token<'a>],
) -> Result<(List<FinderEnd>, &'t [Token<'a>]), Stop>
    ensures { Gives (λ x. (x.0, x.1.now)) result (counted of.a_finder_row (length tokens.now) 1 count tokens.now) }
{
    let mut front = List::new(alloc);
    let mut rest = Rest::new(tokens);
    for earlier in 0..tokens.len() {
        let left = rest.tokens();
        if earlier == count {
            return Ok((front, left));
        }
        let (end, after) = finder_row(earlier as u64 + 1, left)?;
        front.push(end)?;
        rest = Rest::new(after);
    }
    let left = rest.tokens();
    if tokens.len() == count {
        Ok((front, left))
    } else {
        Err(stop_at(left))
    }
}

fn given_limit<'t, 'a>(tokens: &'t [Token<'a>]) -> Result<(Outcome, &'t [Token<'a>]), Stop>
    ensures { Gives (λ x. (x.0, x.1.now)) result (of.with_number (λ n. GivenLimit n) tokens.now) }
{
    let (number, rest) = row_number(tokens)?;
    Ok((Outcome::GivenLimit(number), rest))
}

fn kept_limit<'t, 'a>(tokens: &'t [Token<'a>]) -> Result<(Outcome, &'t [Token<'a>]), Stop>
    ensures { Gives (λ x. (x.0, x.1.now)) result (of.with_number (λ n. KeptLimit n) tokens.now) }
{
    let (number, rest) = row_number(tokens)?;
    Ok((Outcome::KeptLimit(number), rest))
}

fn work_limit<'t, 'a>(tokens: &'t [Token<'a>]) -> Result<(Outcome, &'t [Token<'a>]), Stop>
    ensures { Gives (λ x. (x.0, x.1.now)) result (of.with_number (λ n. WorkLimit n) tokens.now) }
{
    let (number, rest) = row_number(tokens)?;
    Ok((Outcome::WorkLimit(number), rest))
}

/// How the run ended, by the word that names it.
fn an_outcome<'t, 'a>(tokens: &'t [Token<'a>]) -> Result<(Outcome, &'t [Token<'a>]), Stop>
    ensures { Gives (λ x. (x.0, x.1.now)) result (of.an_outcome tokens.now) }
{
    let (_, name, rest) = a_word(tokens)?;
    if name == b"proof".as_slice() {
        Ok((Outcome::Proof, rest))
    } else if name == b"sos_empty".as_slice() {
        Ok((Outcome::SosEmpty, rest))
    } else if name == b"given_limit".as_slice() {
        given_limit(rest)
    } else if name == b"kept_limit".as_slice() {
        kept_limit(rest)
    } else if name == b"work_limit".as_slice() {
        work_limit(rest)
    } else {
        Err(stop_at(tokens))
    }
}

/// How the run ended.
fn end_row<'t, 'a>(tokens: &'t [Token<'a>]) -> Result<(Outcome, &'t [Token<'a>]), Stop>
    ensures { Gives (λ x. (x.0, x.1.now)) result (of.an_end_row tokens.now) }
{
    let rest = the_word(b"end".as_slice(), tokens)?;
    let (outcome, rest) = an_outcome(rest)?;
    let rest = the_sign(Sign::Stop, rest)?;
    Ok((outcome, rest))
}

/// Given rows, kept rows, a finder row for each list, and the outcome.
pub fn read_turns<'t, 'a>(
    alloc: Global,
    sig: &Signature,
    lists: usize,
    tokens: &'t [Token<'a>],
) -> Result<(Turns, &'t [Token<'a>]), Stop>
    ensures { Gives (λ x. (turns_of x.0, x.1.now)) result (seen_by clipped_turns (whole.turns sig.now lists tokens.now)) }
{
    let (given, rest) = given_rows(alloc, tokens)?;
    let (kept, rest) = kept_rows(alloc, sig, rest)?;
    let (ends, rest) = finder_rows(alloc, lists, rest)?;
    let (outcome, rest) = end_row(rest)?;
    let turns = Turns {
        given,
        kept,
        ends,
        outcome,
    };
    Ok((turns, rest))
}

/// The mark of the line of that number.
fn mark_row<'t, 'a>(line: u64, tokens: &'t [Token<'a>]) -> Result<(MarkRow, &'t [Token<'a>]), Stop>
    requires { line < 2 ^ 64 - 1 }
    ensures { Gives (λ x. (x.0, x.1.now)) result (of.a_mark_row line tokens.now) }
{
    let rest = the_word(b"mark".as_slice(), tokens)?;
    let (line, rest) = the_row_number(line, rest)?;
    let (name, rest) = a_version_name(rest)?;
    let (truth, rest) = a_truth(rest)?;
    let rest = the_sign(Sign::Stop, rest)?;
    Ok((MarkRow { line, name, truth }, rest))
}

/// The marks of so many lines.
pub fn mark_rows<'t, 'a>(
    alloc: Global,
    count: usize,
    tokens: &'t [Token<'a>],
) -> Result<(List<MarkRow>, &'t [Token<'a>]), Stop>
    ensures { Gives (λ x. (x.0, x.1.now)) result (counted of.a_mark_row (length tokens.now) 1 count tokens.now) }
{
    let mut front = List::new(alloc);
    let mut rest = Rest::new(tokens);
    for earlier in 0..tokens.len() {
        let left = rest.tokens();
        if earlier == count {
            return Ok((front, left));
        }
        let (mark, after) = mark_row(earlier as u64 + 1, left)?;
        front.push(mark)?;
        rest = Rest::new(after);
    }
    let left = rest.tokens();
    if tokens.len() == count {
        Ok((front, left))
    } else {
        Err(stop_at(left))
    }
}
