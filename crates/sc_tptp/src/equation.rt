//! Reading sides, and what makes an equation of two.

ghost use Rattle.std.specs.Prelude.{◌≡◌, [], ◌∷◌, ◌++◌, length, true};
ghost use Rattle.sc_input_rules.specs.Reader as spec;
ghost use Rattle.sc_input_rules.specs.ClauseGrammar as of;
ghost use Rattle.sc_input_scan.specs.Told.{Gives};

use sc_input_grammar::read_side;
use sc_input_rules::{Lexeme, Occurrence, Sign, Token, WrittenLiteral};
use sc_input_scan::{Stop, stop_at};
use sc_term::List;
use std::alloc::Global;

// Room for the names of a usual literal, so that few grow.
const USUAL_NAMES: usize = 8;

/// A side, as a list of its names.
pub fn one_side<'t, 'a>(
    alloc: Global,
    tokens: &'t [Token<'a>],
) -> Result<(List<Occurrence<'a>>, &'t [Token<'a>]), Stop>
    ensures { Gives (λ x. (x.0, x.1.now)) result (of.side tokens.now) }
{
    let mut names = List::from_vec(Vec::with_capacity(alloc, USUAL_NAMES)?);
    let rest = read_side(alloc, tokens, &mut names)?;
    Ok((names, rest))
}

/// Whether the next token is `=` or `!=`.
pub fn next_is_equality(tokens: &[Token]) -> bool
    ensures { result ≡ spec.next_is of.is_equality tokens.now }
{
    match tokens {
        [] => false,
        [token, ..] => matches!(token, Token::Punctuation(_, Sign::Equal | Sign::Unequal)),
    }
}

/// What stands behind the left side of an equation.
pub fn right_of<'t, 'a>(
    alloc: Global,
    left: List<Occurrence<'a>>,
    tokens: &'t [Token<'a>],
) -> Result<(WrittenLiteral<'a>, &'t [Token<'a>]), Stop>
    ensures { Gives (λ x. (x.0, x.1.now)) result (of.right_of left.entry tokens.now) }
{
    match tokens {
        [] => Err(stop_at(tokens)),
        [token, rest @ ..] => match token {
            Token::Punctuation(at, Sign::Equal) => equate(alloc, true, *at, left, rest),
            Token::Punctuation(at, Sign::Unequal) => equate(alloc, false, *at, left, rest),
            _ => Err(stop_at(tokens)),
        },
    }
}

/// An equation of this left side, whose sign stood at this place, and the right side that is read.
fn equate<'t, 'a>(
    alloc: Global,
    positive: bool,
    at: u64,
    left: List<Occurrence<'a>>,
    tokens: &'t [Token<'a>],
) -> Result<(WrittenLiteral<'a>, &'t [Token<'a>]), Stop>
    ensures { Gives (λ x. (x.0, x.1.now)) result (spec.◌>>=◌ (of.side tokens.now) (λ right. Ok (of.equation_of positive at left.entry right.0, right.1))) }
{
    let mut arguments = left;
    let rest = read_side(alloc, tokens, &mut arguments)?;
    let name = Lexeme::new(b"=".as_slice());
    let predicate = Occurrence { at, name, arity: 2 };
    Ok((
        WrittenLiteral {
            positive,
            predicate,
            arguments,
        },
        rest,
    ))
}
