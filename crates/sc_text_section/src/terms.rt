//! Reading the terms of an `instance` step.

ghost use Rattle.std.specs.Prelude.{◌≡◌, [], ◌∷◌, ◌++◌, map, length, Ok, IfOk};
ghost use Rattle.std.specs.List.{flat_map};
ghost use Rattle.sc_input_rules.specs.Reader as spec;
ghost use Rattle.sc_input_rules.specs.ClauseGrammar as grammar;
ghost use Rattle.sc_input_rules.specs.declared.token.Sign.TheVariants.{Comma};
ghost use Rattle.sc_input_scan.specs.Told.{Gives};
ghost use Rattle.sc_input_scan.specs.declared.stop.Stop.TheVariants.{Memory};
ghost use Rattle.sc_input_rules.specs.Numbering.{terms_of};
ghost use Rattle.sc_text_rules.specs.ProofGrammar as of;
ghost use Rattle.sc_text_section.specs.Clipped.{clipped_term, seen_by};
ghost use Rattle.sc_text_section.specs.Numerals.{clipped_variable, variable_named, clipped_value};

use crate::number::clipped;
use sc_input_grammar::read_side;
use sc_input_rules::{Occurrence, Sign, Token};
use sc_input_scan::{Rest, Stop, next_is_sign, numeral_value, stop_at, the_sign};
use sc_input_values::{Numbering, terms_from};
use sc_term::{List, OutOfMemory, Signature, Term};
use std::alloc::Global;

/// Variables by the number that stands behind their `x`. One greater than the greatest u32 is answered as that.
pub struct TextVariables;

impl Numbering for TextVariables {
    ghost number = { λ v. clipped_variable };

    fn number(&self, occurrence: &Occurrence) -> Option<u32> {
        if occurrence.arity == 0 {
            variable_named(occurrence.name.as_slice())
        } else {
            None
        }
    }
}

/// The number of the variable that a word is: one or more digits behind `x`.
fn variable_named(name: &[u8]) -> Option<u32>
    ensures { result ≡ variable_named name.now }
{
    match name {
        [] | [_] => None,
        [first, digits @ ..] => {
            if *first == b'x' {
                clipped_value(digits)
            } else {
                None
            }
        }
    }
}

fn clipped_value(digits: &[u8]) -> Option<u32>
    ensures { result ≡ clipped_value digits.now }
{
    match numeral_value(digits) {
        Some(value) => Some(clipped(value)),
        None => None,
    }
}

/// Want of memory, as a reader says it.
pub fn memory(_: OutOfMemory) -> Stop
    ensures { result ≡ Memory }
{
    Stop::Memory
}

/// The terms of a side: one.
fn terms_of_side<'t, 'a>(
    alloc: Global,
    sig: &Signature,
    tokens: &'t [Token<'a>],
) -> Result<(List<Term>, &'t [Token<'a>]), Stop>
    ensures { Gives (λ x. (x.0, x.1.now)) result (seen_by (terms_of clipped_variable sig.now) (grammar.side tokens.now)) }
{
    let mut names = List::new(alloc);
    let rest = read_side(alloc, tokens, &mut names)?;
    let terms = terms_from(alloc, &TextVariables, sig, names.as_slice()).map_err(memory)?;
    Ok((terms, rest))
}

/// One or more, with `,` between them.
fn some_terms<'t, 'a>(
    alloc: Global,
    sig: &Signature,
    tokens: &'t [Token<'a>],
) -> Result<(List<Term>, &'t [Token<'a>]), Stop>
    ensures { Gives (λ x. (x.0, x.1.now)) result (seen_by (flat_map (terms_of clipped_variable sig.now)) (spec.separated Comma grammar.side (length tokens.now) tokens.now)) }
{
    let mut front = List::new(alloc);
    let mut rest = Rest::new(tokens);
    for _ in 0..tokens.len() {
        let left = rest.tokens();
        let (terms, after) = terms_of_side(alloc, sig, left)?;
        front.append(terms)?;
        if !next_is_sign(Sign::Comma, after) {
            return Ok((front, after));
        }
        let next = the_sign(Sign::Comma, after)?;
        rest = Rest::new(next);
    }
    Err(stop_at(rest.tokens()))
}

/// The terms of an `instance` step: none before `)`, or sides with `,` between them.
pub fn read_terms<'t, 'a>(
    alloc: Global,
    sig: &Signature,
    tokens: &'t [Token<'a>],
) -> Result<(List<Term>, &'t [Token<'a>]), Stop>
    ensures { Gives (λ x. (x.0, x.1.now)) result (seen_by (map clipped_term) (of.text_terms sig.now tokens.now)) }
{
    if next_is_sign(Sign::Close, tokens) {
        Ok((List::new(alloc), tokens))
    } else {
        some_terms(alloc, sig, tokens)
    }
}
