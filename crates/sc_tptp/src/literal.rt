//! Reading a literal in each of its forms.

ghost use Rattle.std.specs.Prelude.{◌≡◌, [], ◌∷◌, length, true};
ghost use Rattle.sc_input_rules.specs.ClauseGrammar.{negated};
ghost use Rattle.sc_input_scan.specs.Told.{Gives};
ghost use Rattle.sc_tptp_rules.specs.CnfGrammar as of;
ghost use Rattle.sc_tptp.specs.Statements.{negative_literal};

use crate::equation::{next_is_equality, one_side, right_of};
use sc_input_rules::{Occurrence, Sign, Token, WrittenLiteral};
use sc_input_scan::{Stop, next_is_sign, stop_at, the_sign};
use sc_term::List;
use sc_tptp_scan::begins_upper;
use std::alloc::Global;

/// A literal: an atom, an equation or its negation, or `~` and an atom or an equation.
pub fn read_literal<'t, 'a>(
    alloc: Global,
    tokens: &'t [Token<'a>],
) -> Result<(WrittenLiteral<'a>, &'t [Token<'a>]), Stop>
    ensures { Gives (λ x. (x.0, x.1.now)) result (of.cnf_literal tokens.now) }
{
    if next_is_sign(Sign::Minus, tokens) {
        negative_literal(alloc, tokens)
    } else {
        positive_literal(alloc, tokens)
    }
}

fn negative_literal<'t, 'a>(
    alloc: Global,
    tokens: &'t [Token<'a>],
) -> Result<(WrittenLiteral<'a>, &'t [Token<'a>]), Stop>
    ensures { Gives (λ x. (x.0, x.1.now)) result (negative_literal tokens.now) }
{
    let rest = the_sign(Sign::Minus, tokens)?;
    let (literal, rest) = below_tilde(alloc, rest)?;
    Ok((negated(literal), rest))
}

fn negated<'a>(literal: WrittenLiteral<'a>) -> WrittenLiteral<'a>
    ensures { result ≡ negated literal.entry }
{
    let WrittenLiteral {
        positive,
        predicate,
        arguments,
    } = literal;
    WrittenLiteral {
        positive: !positive,
        predicate,
        arguments,
    }
}

/// What stands behind `~`: an atom, or an equation by `=`.
fn below_tilde<'t, 'a>(
    alloc: Global,
    tokens: &'t [Token<'a>],
) -> Result<(WrittenLiteral<'a>, &'t [Token<'a>]), Stop>
    ensures { Gives (λ x. (x.0, x.1.now)) result (of.below_tilde tokens.now) }
{
    let (left, rest) = one_side(alloc, tokens)?;
    if next_is_sign(Sign::Equal, rest) {
        right_of(alloc, left, rest)
    } else {
        atom_of(left, rest)
    }
}

/// An atom, or an equation by `=` or `!=`.
fn positive_literal<'t, 'a>(
    alloc: Global,
    tokens: &'t [Token<'a>],
) -> Result<(WrittenLiteral<'a>, &'t [Token<'a>]), Stop>
    ensures { Gives (λ x. (x.0, x.1.now)) result (of.cnf_positive tokens.now) }
{
    let (left, rest) = one_side(alloc, tokens)?;
    if next_is_equality(rest) {
        right_of(alloc, left, rest)
    } else {
        atom_of(left, rest)
    }
}

/// A side that is a whole literal: its first name is the predicate. A variable is none.
fn atom_of<'t, 'a>(
    side: List<Occurrence<'a>>,
    tokens: &'t [Token<'a>],
) -> Result<(WrittenLiteral<'a>, &'t [Token<'a>]), Stop>
    ensures { Gives (λ x. (x.0, x.1.now)) result (of.cnf_atom true side.entry tokens.now) }
{
    if side.is_empty() {
        return Err(stop_at(tokens));
    }
    let mut arguments = side;
    let predicate = arguments.remove(0);
    if begins_upper(predicate.name.as_slice()) {
        return Err(stop_at(tokens));
    }
    Ok((
        WrittenLiteral {
            positive: true,
            predicate,
            arguments,
        },
        tokens,
    ))
}
