//! Reading a side: its names in the order of the text, each with how many arguments it has.

ghost use Rattle.std.specs.Prelude.{◌≡◌, ◌<◌, ◌++◌, [], ◌∷◌, length};
ghost use Rattle.sc_input_rules.specs.Reader as spec;
ghost use Rattle.sc_input_rules.specs.declared.token.Sign.TheVariants.{Comma};
ghost use Rattle.sc_input_rules.specs.ClauseGrammar.{side, side_within, arguments};
ghost use Rattle.sc_input_scan.specs.Told.{Gives};
ghost use Rattle.sc_input_grammar.specs.Behind.{behind, sides_behind};

use sc_input_rules::{Lexeme, Occurrence, Sign, Token};
use sc_input_scan::{Rest, Stop, a_name, next_is_sign, stop_at, the_sign};
use sc_term::List;
use std::alloc::Global;

/// Puts the names of a side behind those in `names`, and answers the tokens behind the side.
pub fn read_side<'t, 'a>(
    alloc: Global,
    tokens: &'t [Token<'a>],
    names: &mut List<Occurrence<'a>>,
) -> Result<&'t [Token<'a>], Stop>
    ensures { Gives (λ x. (names.new, x.now)) result (behind names.old (side tokens.now)) }
{
    side_within(alloc, tokens.len(), tokens, names)
}

/// A side that nests in at most `n` levels.
#[cycle(side)]
fn side_within<'t, 'a>(
    alloc: Global,
    n: usize,
    tokens: &'t [Token<'a>],
    names: &mut List<Occurrence<'a>>,
) -> Result<&'t [Token<'a>], Stop>
    ensures { Gives (λ x. (names.new, x.now)) result (behind names.old (side_within n tokens.now)) }
{
    if n == 0 {
        return Err(stop_at(tokens));
    }
    let (at, name, rest) = a_name(tokens)?;
    let place = names.len();
    names.push(Occurrence {
        at,
        name: Lexeme::new(b"".as_slice()),
        arity: 0,
    })?;
    let (arity, rest) = arguments(alloc, n - 1, rest, names)?;
    names.set(place, Occurrence { at, name, arity });
    Ok(rest)
}

/// None without an opening parenthesis; answers how many there are.
#[cycle(side)]
fn arguments<'t, 'a>(
    alloc: Global,
    n: usize,
    tokens: &'t [Token<'a>],
    names: &mut List<Occurrence<'a>>,
) -> Result<(u64, &'t [Token<'a>]), Stop>
    ensures { Gives (λ x. ((x.0, names.new), x.1.now)) result (sides_behind 0 names.old (arguments (spec.separated Comma (side_within n) n) tokens.now)) }
{
    if next_is_sign(Sign::Open, tokens) {
        let rest = the_sign(Sign::Open, tokens)?;
        let (arity, rest) = sides(alloc, n, n, rest, names)?;
        let rest = the_sign(Sign::Close, rest)?;
        Ok((arity, rest))
    } else {
        Ok((0, tokens))
    }
}

/// One or more sides, at most `most`, with `,` between them; answers how many.
#[cycle(side)]
fn sides<'t, 'a>(
    alloc: Global,
    n: usize,
    most: usize,
    tokens: &'t [Token<'a>],
    names: &mut List<Occurrence<'a>>,
) -> Result<(u64, &'t [Token<'a>]), Stop>
    ensures { Gives (λ x. ((x.0, names.new), x.1.now)) result (sides_behind 0 names.old (spec.separated Comma (side_within n) most tokens.now)) }
{
    let mut count = 0;
    let mut rest = Rest::new(tokens);
    for _ in 0..most {
        let left = rest.tokens();
        let after = side_within(alloc, n, left, names)?;
        count += 1;
        if !next_is_sign(Sign::Comma, after) {
            return Ok((count, after));
        }
        let next = the_sign(Sign::Comma, after)?;
        rest = Rest::new(next);
    }
    Err(stop_at(rest.tokens()))
}
