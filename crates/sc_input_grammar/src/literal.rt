//! Reading a literal in each of its forms.

ghost use Rattle.std.specs.Prelude.{◌≡◌, ◌<◌, ◌++◌, [], ◌∷◌, length, codes, true};
ghost use Rattle.sc_input_rules.specs.Reader as spec;
ghost use Rattle.sc_input_rules.specs.ClauseGrammar as of;
ghost use Rattle.sc_input_scan.specs.Told.{Gives};
ghost use Rattle.sc_input_grammar.specs.Behind.{negative_literal};

use crate::side::read_side;
use sc_input_rules::{Lexeme, Occurrence, Sign, Token, WrittenLiteral};
use sc_input_scan::{Stop, next_is_sign, stop_at, the_sign};
use sc_term::List;
use std::alloc::Global;

// Room for the names of a usual literal, so that few grow.
const USUAL_NAMES: usize = 8;

/// A literal: a side, an equation, an equation in parentheses, `-` and a side, or `-` and an equation in parentheses.
pub fn read_literal<'t, 'a>(
    alloc: Global,
    tokens: &'t [Token<'a>],
) -> Result<(WrittenLiteral<'a>, &'t [Token<'a>]), Stop>
    ensures { Gives (λ x. (x.0, x.1.now)) result (of.literal tokens.now) }
{
    if next_is_sign(Sign::Minus, tokens) {
        negative_literal(alloc, tokens)
    } else {
        unsigned_literal(alloc, tokens)
    }
}

fn negative_literal<'t, 'a>(
    alloc: Global,
    tokens: &'t [Token<'a>],
) -> Result<(WrittenLiteral<'a>, &'t [Token<'a>]), Stop>
    ensures { Gives (λ x. (x.0, x.1.now)) result (negative_literal tokens.now) }
{
    let rest = the_sign(Sign::Minus, tokens)?;
    let (literal, rest) = below_minus(alloc, rest)?;
    Ok((negated(literal), rest))
}

fn negated<'a>(literal: WrittenLiteral<'a>) -> WrittenLiteral<'a>
    ensures { result ≡ of.negated literal.entry }
{
    let WrittenLiteral {
        positive,
        predicate,
        arguments,
    } = literal;
    WrittenLiteral {
        positive: !positive,
        predicate,
        arguments,
    }
}

/// A side, an equation, or an equation in parentheses.
fn unsigned_literal<'t, 'a>(
    alloc: Global,
    tokens: &'t [Token<'a>],
) -> Result<(WrittenLiteral<'a>, &'t [Token<'a>]), Stop>
    ensures { Gives (λ x. (x.0, x.1.now)) result (of.bracketed_or of.plain_literal tokens.now) }
{
    if next_is_sign(Sign::Open, tokens) {
        bracketed_equation(alloc, tokens)
    } else {
        plain_literal(alloc, tokens)
    }
}

/// What stands behind `-`: a side, or an equation in parentheses.
fn below_minus<'t, 'a>(
    alloc: Global,
    tokens: &'t [Token<'a>],
) -> Result<(WrittenLiteral<'a>, &'t [Token<'a>]), Stop>
    ensures { Gives (λ x. (x.0, x.1.now)) result (of.bracketed_or of.negative_atom tokens.now) }
{
    if next_is_sign(Sign::Open, tokens) {
        bracketed_equation(alloc, tokens)
    } else {
        negative_atom(alloc, tokens)
    }
}

fn negative_atom<'t, 'a>(
    alloc: Global,
    tokens: &'t [Token<'a>],
) -> Result<(WrittenLiteral<'a>, &'t [Token<'a>]), Stop>
    ensures { Gives (λ x. (x.0, x.1.now)) result (of.negative_atom tokens.now) }
{
    let (side, rest) = one_side(alloc, tokens)?;
    atom_of(side, rest)
}

fn plain_literal<'t, 'a>(
    alloc: Global,
    tokens: &'t [Token<'a>],
) -> Result<(WrittenLiteral<'a>, &'t [Token<'a>]), Stop>
    ensures { Gives (λ x. (x.0, x.1.now)) result (of.plain_literal tokens.now) }
{
    let (side, rest) = one_side(alloc, tokens)?;
    if next_is_equality(rest) {
        right_of(alloc, side, rest)
    } else {
        atom_of(side, rest)
    }
}

fn bracketed_equation<'t, 'a>(
    alloc: Global,
    tokens: &'t [Token<'a>],
) -> Result<(WrittenLiteral<'a>, &'t [Token<'a>]), Stop>
    ensures { Gives (λ x. (x.0, x.1.now)) result (of.bracketed of.equation tokens.now) }
{
    let rest = the_sign(Sign::Open, tokens)?;
    let (equation, rest) = read_equation(alloc, rest)?;
    let rest = the_sign(Sign::Close, rest)?;
    Ok((equation, rest))
}

fn read_equation<'t, 'a>(
    alloc: Global,
    tokens: &'t [Token<'a>],
) -> Result<(WrittenLiteral<'a>, &'t [Token<'a>]), Stop>
    ensures { Gives (λ x. (x.0, x.1.now)) result (of.equation tokens.now) }
{
    let (left, rest) = one_side(alloc, tokens)?;
    right_of(alloc, left, rest)
}

fn one_side<'t, 'a>(
    alloc: Global,
    tokens: &'t [Token<'a>],
) -> Result<(List<Occurrence<'a>>, &'t [Token<'a>]), Stop>
    ensures { Gives (λ x. (x.0, x.1.now)) result (of.side tokens.now) }
{
    let mut names = List::from_vec(Vec::with_capacity(alloc, USUAL_NAMES)?);
    let rest = read_side(alloc, tokens, &mut names)?;
    Ok((names, rest))
}

fn next_is_equality(tokens: &[Token]) -> bool
    ensures { result ≡ spec.next_is of.is_equality tokens.now }
{
    match tokens {
        [] => false,
        [token, ..] => matches!(token, Token::Punctuation(_, Sign::Equal | Sign::Unequal)),
    }
}

/// What stands behind the left side of an equation.
fn right_of<'t, 'a>(
    alloc: Global,
    left: List<Occurrence<'a>>,
    tokens: &'t [Token<'a>],
) -> Result<(WrittenLiteral<'a>, &'t [Token<'a>]), Stop>
    ensures { Gives (λ x. (x.0, x.1.now)) result (of.right_of left.entry tokens.now) }
{
    match tokens {
        [] => Err(stop_at(tokens)),
        [token, rest @ ..] => match token {
            Token::Punctuation(at, Sign::Equal) => equate(alloc, true, *at, left, rest),
            Token::Punctuation(at, Sign::Unequal) => equate(alloc, false, *at, left, rest),
            _ => Err(stop_at(tokens)),
        },
    }
}

/// An equation of this left side, whose sign stood at this place, and the right side that is read.
fn equate<'t, 'a>(
    alloc: Global,
    positive: bool,
    at: u64,
    left: List<Occurrence<'a>>,
    tokens: &'t [Token<'a>],
) -> Result<(WrittenLiteral<'a>, &'t [Token<'a>]), Stop>
    ensures { Gives (λ x. (x.0, x.1.now)) result (spec.◌>>=◌ (of.side tokens.now) (λ right. Ok (of.equation_of positive at left.entry right.0, right.1))) }
{
    let mut arguments = left;
    let rest = read_side(alloc, tokens, &mut arguments)?;
    let name = Lexeme::new(b"=".as_slice());
    let predicate = Occurrence { at, name, arity: 2 };
    Ok((
        WrittenLiteral {
            positive,
            predicate,
            arguments,
        },
        rest,
    ))
}

/// A side that is a whole literal: its first name is the predicate.
fn atom_of<'t, 'a>(
    side: List<Occurrence<'a>>,
    tokens: &'t [Token<'a>],
) -> Result<(WrittenLiteral<'a>, &'t [Token<'a>]), Stop>
    ensures { Gives (λ x. (x.0, x.1.now)) result (of.atom_of true side.entry tokens.now) }
{
    if side.is_empty() {
        return Err(stop_at(tokens));
    }
    let mut arguments = side;
    let predicate = arguments.remove(0);
    Ok((
        WrittenLiteral {
            positive: true,
            predicate,
            arguments,
        },
        tokens,
    ))
}
