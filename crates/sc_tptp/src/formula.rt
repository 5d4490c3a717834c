//! Reading a formula.

ghost use Rattle.std.specs.Prelude.{◌≡◌, [], ◌∷◌, length, codes};
ghost use Rattle.sc_input_rules.specs.Reader as spec;
ghost use Rattle.sc_input_rules.specs.ClauseGrammar.{bracketed, without_first};
ghost use Rattle.sc_input_rules.specs.declared.token.Sign.TheVariants.{Bar};
ghost use Rattle.sc_input_scan.specs.Told.{Gives};
ghost use Rattle.sc_tptp_rules.specs.CnfGrammar as of;

use crate::literal::read_literal;
use sc_input_rules::{Sign, Token, WrittenLiteral};
use sc_input_scan::{Rest, Stop, next_is_sign, next_is_word, stop_at, the_sign};
use sc_term::List;
use std::alloc::Global;

/// A formula as the clause that is written, and the tokens behind it: a disjunction, or one in parentheses.
pub fn read_formula<'t, 'a>(
    alloc: Global,
    tokens: &'t [Token<'a>],
) -> Result<(List<WrittenLiteral<'a>>, &'t [Token<'a>]), Stop>
    ensures { Gives (λ x. (x.0, x.1.now)) result (of.formula tokens.now) }
{
    if next_is_sign(Sign::Open, tokens) {
        bracketed_disjunction(alloc, tokens)
    } else {
        disjunction(alloc, tokens)
    }
}

fn bracketed_disjunction<'t, 'a>(
    alloc: Global,
    tokens: &'t [Token<'a>],
) -> Result<(List<WrittenLiteral<'a>>, &'t [Token<'a>]), Stop>
    ensures { Gives (λ x. (x.0, x.1.now)) result (bracketed of.disjunction tokens.now) }
{
    let rest = the_sign(Sign::Open, tokens)?;
    let (clause, rest) = disjunction(alloc, rest)?;
    let rest = the_sign(Sign::Close, rest)?;
    Ok((clause, rest))
}

/// No literal for `$false`, which stands as `$F`, else one or more with `|` between them.
fn disjunction<'t, 'a>(
    alloc: Global,
    tokens: &'t [Token<'a>],
) -> Result<(List<WrittenLiteral<'a>>, &'t [Token<'a>]), Stop>
    ensures { Gives (λ x. (x.0, x.1.now)) result (of.disjunction tokens.now) }
{
    if next_is_word(b"$F".as_slice(), tokens) {
        without_first(alloc, tokens)
    } else {
        literals(alloc, tokens)
    }
}

fn without_first<'t, 'a>(
    alloc: Global,
    tokens: &'t [Token<'a>],
) -> Result<(List<WrittenLiteral<'a>>, &'t [Token<'a>]), Stop>
    ensures { Gives (λ x. (x.0, x.1.now)) result (without_first tokens.now) }
{
    match tokens {
        [] => Err(stop_at(tokens)),
        [_, rest @ ..] => Ok((List::new(alloc), rest)),
    }
}

fn literals<'t, 'a>(
    alloc: Global,
    tokens: &'t [Token<'a>],
) -> Result<(List<WrittenLiteral<'a>>, &'t [Token<'a>]), Stop>
    ensures { Gives (λ x. (x.0, x.1.now)) result (spec.separated Bar of.cnf_literal (length tokens.now) tokens.now) }
{
    let mut front = List::new(alloc);
    let mut rest = Rest::new(tokens);
    for _ in 0..tokens.len() {
        let left = rest.tokens();
        let (literal, after) = read_literal(alloc, left)?;
        front.push(literal)?;
        if !next_is_sign(Sign::Bar, after) {
            return Ok((front, after));
        }
        let next = the_sign(Sign::Bar, after)?;
        rest = Rest::new(next);
    }
    Err(stop_at(rest.tokens()))
}
