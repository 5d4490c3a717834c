//! Reading a step.

ghost use Rattle.std.specs.Prelude.{◌≡◌, map, length, codes};
ghost use Rattle.sc_term.specs.declared.Step.TheVariants.{Merge, Flip};
ghost use Rattle.sc_input_rules.specs.Reader as spec;
ghost use Rattle.sc_input_rules.specs.ClauseGrammar as grammar;
ghost use Rattle.sc_input_rules.specs.declared.token.Sign.TheVariants.{Comma};
ghost use Rattle.sc_input_scan.specs.Told.{Gives};
ghost use Rattle.sc_text_rules.specs.TextWords.{a_number};
ghost use Rattle.sc_text_rules.specs.ProofGrammar as of;
ghost use Rattle.sc_text_section.specs.Clipped.{clipped, clipped_term, clipped_step, seen_by};

use crate::number::read_number;
use crate::terms::read_terms;
use sc_input_rules::{Sign, Token};
use sc_input_scan::{Rest, Stop, a_word, next_is_sign, next_is_word, stop_at, the_sign, the_word};
use sc_term::{List, Side, Signature, Step, Term};
use std::alloc::Global;

fn a_side<'t, 'a>(tokens: &'t [Token<'a>]) -> Result<(Side, &'t [Token<'a>]), Stop>
    ensures { Gives (λ x. (x.0, x.1.now)) result (of.a_side tokens.now) }
{
    if next_is_word(b"left".as_slice(), tokens) {
        let rest = the_word(b"left".as_slice(), tokens)?;
        Ok((Side::Left, rest))
    } else {
        let rest = the_word(b"right".as_slice(), tokens)?;
        Ok((Side::Right, rest))
    }
}

/// One or more numbers, at most `most`, with `,` between them.
fn path<'t, 'a>(
    alloc: Global,
    most: usize,
    tokens: &'t [Token<'a>],
) -> Result<(List<u32>, &'t [Token<'a>]), Stop>
    ensures { Gives (λ x. (x.0, x.1.now)) result (seen_by (map clipped) (spec.separated Comma a_number most tokens.now)) }
{
    let mut front = List::new(alloc);
    let mut rest = Rest::new(tokens);
    for _ in 0..most {
        let left = rest.tokens();
        let (number, after) = read_number(left)?;
        front.push(number)?;
        if !next_is_sign(Sign::Comma, after) {
            return Ok((front, after));
        }
        let next = the_sign(Sign::Comma, after)?;
        rest = Rest::new(next);
    }
    Err(stop_at(rest.tokens()))
}

fn bracketed_path<'t, 'a>(
    alloc: Global,
    tokens: &'t [Token<'a>],
) -> Result<(List<u32>, &'t [Token<'a>]), Stop>
    ensures { Gives (λ x. (x.0, x.1.now)) result (seen_by (map clipped) (grammar.bracketed (spec.separated Comma a_number (length tokens.now)) tokens.now)) }
{
    let rest = the_sign(Sign::Open, tokens)?;
    let (path, rest) = path(alloc, tokens.len(), rest)?;
    let rest = the_sign(Sign::Close, rest)?;
    Ok((path, rest))
}

fn bracketed_terms<'t, 'a>(
    alloc: Global,
    sig: &Signature,
    tokens: &'t [Token<'a>],
) -> Result<(List<Term>, &'t [Token<'a>]), Stop>
    ensures { Gives (λ x. (x.0, x.1.now)) result (seen_by (map clipped_term) (grammar.bracketed (of.text_terms sig.now) tokens.now)) }
{
    let rest = the_sign(Sign::Open, tokens)?;
    let (terms, rest) = read_terms(alloc, sig, rest)?;
    let rest = the_sign(Sign::Close, rest)?;
    Ok((terms, rest))
}

fn input_step<'t, 'a>(tokens: &'t [Token<'a>]) -> Result<(Step, &'t [Token<'a>]), Stop>
    ensures { Gives (λ x. (x.0, x.1.now)) result (seen_by clipped_step (of.input_step tokens.now)) }
{
    let (number, rest) = read_number(tokens)?;
    Ok((Step::Input(number), rest))
}

fn instance_step<'t, 'a>(
    alloc: Global,
    sig: &Signature,
    tokens: &'t [Token<'a>],
) -> Result<(Step, &'t [Token<'a>]), Stop>
    ensures { Gives (λ x. (x.0, x.1.now)) result (seen_by clipped_step (of.instance_step sig.now tokens.now)) }
{
    let (of, rest) = read_number(tokens)?;
    let (terms, rest) = bracketed_terms(alloc, sig, rest)?;
    Ok((Step::Instance { of, terms }, rest))
}

fn resolve_step<'t, 'a>(tokens: &'t [Token<'a>]) -> Result<(Step, &'t [Token<'a>]), Stop>
    ensures { Gives (λ x. (x.0, x.1.now)) result (seen_by clipped_step (of.resolve_step tokens.now)) }
{
    let (left, rest) = read_number(tokens)?;
    let (left_lit, rest) = read_number(rest)?;
    let (right, rest) = read_number(rest)?;
    let (right_lit, rest) = read_number(rest)?;
    let step = Step::Resolve {
        left,
        left_lit,
        right,
        right_lit,
    };
    Ok((step, rest))
}

fn merge_step<'t, 'a>(tokens: &'t [Token<'a>]) -> Result<(Step, &'t [Token<'a>]), Stop>
    ensures { Gives (λ x. (x.0, x.1.now)) result (seen_by clipped_step (of.of_line_and_literal (λ j a. Merge j a) tokens.now)) }
{
    let (of, rest) = read_number(tokens)?;
    let (lit, rest) = read_number(rest)?;
    Ok((Step::Merge { of, lit }, rest))
}

fn flip_step<'t, 'a>(tokens: &'t [Token<'a>]) -> Result<(Step, &'t [Token<'a>]), Stop>
    ensures { Gives (λ x. (x.0, x.1.now)) result (seen_by clipped_step (of.of_line_and_literal (λ j a. Flip j a) tokens.now)) }
{
    let (of, rest) = read_number(tokens)?;
    let (lit, rest) = read_number(rest)?;
    Ok((Step::Flip { of, lit }, rest))
}

fn para_step<'t, 'a>(
    alloc: Global,
    tokens: &'t [Token<'a>],
) -> Result<(Step, &'t [Token<'a>]), Stop>
    ensures { Gives (λ x. (x.0, x.1.now)) result (seen_by clipped_step (of.para_step tokens.now)) }
{
    let (from, rest) = read_number(tokens)?;
    let (from_lit, rest) = read_number(rest)?;
    let (side, rest) = a_side(rest)?;
    let (into, rest) = read_number(rest)?;
    let (into_lit, rest) = read_number(rest)?;
    let (path, rest) = bracketed_path(alloc, rest)?;
    let step = Step::Para {
        from,
        from_lit,
        side,
        into,
        into_lit,
        path,
    };
    Ok((step, rest))
}

/// A step, by the word that names it.
pub fn read_step<'t, 'a>(
    alloc: Global,
    sig: &Signature,
    tokens: &'t [Token<'a>],
) -> Result<(Step, &'t [Token<'a>]), Stop>
    ensures { Gives (λ x. (x.0, x.1.now)) result (seen_by clipped_step (of.a_step sig.now tokens.now)) }
{
    let (_, name, rest) = a_word(tokens)?;
    if name == b"input".as_slice() {
        input_step(rest)
    } else if name == b"instance".as_slice() {
        instance_step(alloc, sig, rest)
    } else if name == b"resolve".as_slice() {
        resolve_step(rest)
    } else if name == b"merge".as_slice() {
        merge_step(rest)
    } else if name == b"para".as_slice() {
        para_step(alloc, rest)
    } else if name == b"flip".as_slice() {
        flip_step(rest)
    } else {
        Err(stop_at(tokens))
    }
}
