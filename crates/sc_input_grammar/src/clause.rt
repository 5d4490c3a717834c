//! Reading a clause.

ghost use Rattle.std.specs.Prelude.{◌≡◌, ◌<◌, [], ◌∷◌, ◌++◌, length, codes};
ghost use Rattle.sc_input_rules.specs.Reader as spec;
ghost use Rattle.sc_input_rules.specs.ClauseGrammar as of;
ghost use Rattle.sc_input_rules.specs.declared.token.Sign.TheVariants.{Bar};
ghost use Rattle.sc_input_scan.specs.Told.{Gives};

use crate::literal::read_literal;
use sc_input_rules::{Sign, Token, WrittenLiteral};
use sc_input_scan::{Rest, Stop, next_is_sign, next_is_word, stop_at, the_sign};
use sc_term::List;
use std::alloc::Global;

/// A clause as it is written, and the tokens behind it: no literal for `$F`, else one or more with `|` between them. It
/// stops for want of memory, or at the first token that `clause` doesn't allow.
pub fn read_clause<'t, 'a>(
    alloc: Global,
    tokens: &'t [Token<'a>],
) -> Result<(List<WrittenLiteral<'a>>, &'t [Token<'a>]), Stop>
    ensures { Gives (λ x. (x.0, x.1.now)) result (of.clause tokens.now) }
{
    if next_is_word(b"$F".as_slice(), tokens) {
        without_first(alloc, tokens)
    } else {
        literals(alloc, tokens)
    }
}

fn without_first<'t, 'a>(
    alloc: Global,
    tokens: &'t [Token<'a>],
) -> Result<(List<WrittenLiteral<'a>>, &'t [Token<'a>]), Stop>
    ensures { Gives (λ x. (x.0, x.1.now)) result (of.without_first tokens.now) }
{
    match tokens {
        [] => Err(stop_at(tokens)),
        [_, rest @ ..] => Ok((List::new(alloc), rest)),
    }
}

fn literals<'t, 'a>(
    alloc: Global,
    tokens: &'t [Token<'a>],
) -> Result<(List<WrittenLiteral<'a>>, &'t [Token<'a>]), Stop>
    ensures { Gives (λ x. (x.0, x.1.now)) result (spec.separated Bar of.literal (length tokens.now) tokens.now) }
{
    let mut front = List::new(alloc);
    let mut rest = Rest::new(tokens);
    for _ in 0..tokens.len() {
        let left = rest.tokens();
        let (literal, after) = read_literal(alloc, left)?;
        front.push(literal)?;
        if !next_is_sign(Sign::Bar, after) {
            return Ok((front, after));
        }
        let next = the_sign(Sign::Bar, after)?;
        rest = Rest::new(next);
    }
    Err(stop_at(rest.tokens()))
}
