//! Reading words of rows, and numbers up to a full stop.

ghost use Rattle.std.specs.Prelude.{◌≡◌, not, length};
ghost use Rattle.std.specs.List.{list_all};
ghost use Rattle.sc_input_rules.specs.Reader as spec;
ghost use Rattle.sc_input_rules.specs.Tokens.{is_digit};
ghost use Rattle.sc_input_scan.specs.Told.{Gives};
ghost use Rattle.sc_text_run_rules.specs.RowWords as of;

use crate::number::row_number;
use sc_core_rules::Cause;
use sc_input_rules::{Sign, Token};
use sc_input_scan::{Rest, Stop, next_is_word, stop_at, the_sign, the_word};
use sc_interp::{Truth, VersionName};
use sc_term::List;
use sc_text_run_rules::FinderEnd;
use std::alloc::Global;

/// Why a clause was given.
pub fn a_cause<'t, 'a>(tokens: &'t [Token<'a>]) -> Result<(Cause, &'t [Token<'a>]), Stop>
    ensures { Gives (λ x. (x.0, x.1.now)) result (of.a_cause tokens.now) }
{
    if next_is_word(b"age".as_slice(), tokens) {
        let rest = the_word(b"age".as_slice(), tokens)?;
        Ok((Cause::Age, rest))
    } else if next_is_word(b"false".as_slice(), tokens) {
        let rest = the_word(b"false".as_slice(), tokens)?;
        Ok((Cause::False, rest))
    } else if next_is_word(b"weight".as_slice(), tokens) {
        let rest = the_word(b"weight".as_slice(), tokens)?;
        Ok((Cause::Weight, rest))
    } else {
        Err(stop_at(tokens))
    }
}

/// The mark of a clause.
pub fn a_truth<'t, 'a>(tokens: &'t [Token<'a>]) -> Result<(Truth, &'t [Token<'a>]), Stop>
    ensures { Gives (λ x. (x.0, x.1.now)) result (of.a_truth tokens.now) }
{
    if next_is_word(b"true".as_slice(), tokens) {
        let rest = the_word(b"true".as_slice(), tokens)?;
        Ok((Truth::True, rest))
    } else if next_is_word(b"false".as_slice(), tokens) {
        let rest = the_word(b"false".as_slice(), tokens)?;
        Ok((Truth::False, rest))
    } else if next_is_word(b"wide".as_slice(), tokens) {
        let rest = the_word(b"wide".as_slice(), tokens)?;
        Ok((Truth::Wide, rest))
    } else {
        Err(stop_at(tokens))
    }
}

/// How a finder ended.
pub fn an_end<'t, 'a>(tokens: &'t [Token<'a>]) -> Result<(FinderEnd, &'t [Token<'a>]), Stop>
    ensures { Gives (λ x. (x.0, x.1.now)) result (of.an_end tokens.now) }
{
    if next_is_word(b"done".as_slice(), tokens) {
        let rest = the_word(b"done".as_slice(), tokens)?;
        Ok((FinderEnd::Done, rest))
    } else if next_is_word(b"stopped".as_slice(), tokens) {
        let rest = the_word(b"stopped".as_slice(), tokens)?;
        Ok((FinderEnd::Stopped, rest))
    } else if next_is_word(b"wide".as_slice(), tokens) {
        let rest = the_word(b"wide".as_slice(), tokens)?;
        Ok((FinderEnd::Wide, rest))
    } else if next_is_word(b"memory".as_slice(), tokens) {
        let rest = the_word(b"memory".as_slice(), tokens)?;
        Ok((FinderEnd::Memory, rest))
    } else {
        Err(stop_at(tokens))
    }
}

/// Finder and place of a version.
pub fn a_version_name<'t, 'a>(
    tokens: &'t [Token<'a>],
) -> Result<(VersionName, &'t [Token<'a>]), Stop>
    ensures { Gives (λ x. (x.0, x.1.now)) result (of.a_version_name tokens.now) }
{
    let (finder, rest) = row_number(tokens)?;
    let (place, rest) = row_number(rest)?;
    Ok((VersionName { finder, place }, rest))
}

fn is_digit(byte: u8) -> bool
    ensures { result ≡ is_digit byte }
{
    byte.is_ascii_digit()
}

fn are_digits(text: &[u8]) -> bool
    ensures { result ≡ list_all is_digit text.now }
{
    text.iter().all(|byte| is_digit(*byte))
}

/// Whether the next token is no number.
fn no_digits(tokens: &[Token]) -> bool
    ensures { result ≡ of.no_digits tokens.now }
{
    match tokens {
        [] => true,
        [token, ..] => match token {
            Token::Word(_, text) => !are_digits(text.as_slice()),
            _ => true,
        },
    }
}

/// Numbers, as many as there are.
fn some_numbers<'t, 'a>(
    alloc: Global,
    tokens: &'t [Token<'a>],
) -> Result<(List<u32>, &'t [Token<'a>]), Stop>
    ensures { Gives (λ x. (x.0, x.1.now)) result (spec.repeated of.no_digits of.a_row_number (length tokens.now) tokens.now) }
{
    let mut front = List::new(alloc);
    let mut rest = Rest::new(tokens);
    for _ in 0..tokens.len() {
        let left = rest.tokens();
        if no_digits(left) {
            return Ok((front, left));
        }
        let (number, after) = row_number(left)?;
        front.push(number)?;
        rest = Rest::new(after);
    }
    let left = rest.tokens();
    if no_digits(left) {
        Ok((front, left))
    } else {
        Err(stop_at(left))
    }
}

/// Numbers up to a full stop, and that.
pub fn numbers<'t, 'a>(
    alloc: Global,
    tokens: &'t [Token<'a>],
) -> Result<(List<u32>, &'t [Token<'a>]), Stop>
    ensures { Gives (λ x. (x.0, x.1.now)) result (of.numbers tokens.now) }
{
    let (numbers, rest) = some_numbers(alloc, tokens)?;
    let rest = the_sign(Sign::Stop, rest)?;
    Ok((numbers, rest))
}
