//! Reading statements.

ghost use Rattle.std.specs.Prelude.{◌≡◌, [], ◌∷◌, length};
ghost use Rattle.sc_input_rules.specs.Reader as spec;
ghost use Rattle.sc_input_rules.specs.ProblemGrammar.{at_end};
ghost use Rattle.sc_input_scan.specs.Told.{Gives};
ghost use Rattle.sc_tptp_rules.specs.CnfGrammar as of;
ghost use Rattle.sc_tptp.specs.Statements.{statement_of, statements_of};

use crate::formula::read_formula;
use crate::words::{GOAL, Vocabulary, a_listed_name};
use sc_input_rules::{InputKind, Sign, Token, WrittenLiteral};
use sc_input_scan::{Rest, Stop, a_word, next_is_sign, stop_at, the_sign};
use sc_term::List;
use std::alloc::Global;

/// A clause as it is written, and whether its role is the one that a proof starts from.
#[derive(Debug, Drop)]
pub struct Statement<'a> {
    pub goal: bool,
    pub clause: List<WrittenLiteral<'a>>,
}

/// `)`; a `,` in its place, which begins annotations, isn't supported.
fn the_end_of_formula<'t, 'a>(tokens: &'t [Token<'a>]) -> Result<&'t [Token<'a>], Stop>
    ensures { Gives (λ x. (tt, x.now)) result (of.the_end_of_formula tokens.now) }
{
    if next_is_sign(Sign::Comma, tokens) {
        Err(Stop::At(tokens.len(), InputKind::Unsupported))
    } else {
        the_sign(Sign::Close, tokens)
    }
}

/// `cnf`, a name, a role and a formula, and the full stop.
fn read_statement<'t, 'a>(
    alloc: Global,
    tokens: &'t [Token<'a>],
) -> Result<(Statement<'a>, &'t [Token<'a>]), Stop>
    ensures { Gives (λ x. (statement_of x.0, x.1.now)) result (of.statement tokens.now) }
{
    let (_, _, opening) = a_listed_name(Vocabulary::Forms, tokens)?;
    let name = the_sign(Sign::Open, opening)?;
    let (_, _, behind_name) = a_word(name)?;
    let role = the_sign(Sign::Comma, behind_name)?;
    let (_, word, behind_role) = a_listed_name(Vocabulary::Roles, role)?;
    let formula = the_sign(Sign::Comma, behind_role)?;
    let (clause, behind_formula) = read_formula(alloc, formula)?;
    let end = the_end_of_formula(behind_formula)?;
    let rest = the_sign(Sign::Stop, end)?;
    let goal = word == GOAL.as_bytes();
    Ok((Statement { goal, clause }, rest))
}

fn is_at_end(tokens: &[Token]) -> bool
    ensures { result ≡ at_end tokens.now }
{
    match tokens {
        [] => true,
        [_, ..] => false,
    }
}

/// The statements of a text that ends with the tokens, and no tokens. It stops for want of memory, or at the first token
/// that `statements` doesn't allow.
pub fn read_statements<'t, 'a>(
    alloc: Global,
    tokens: &'t [Token<'a>],
) -> Result<(List<Statement<'a>>, &'t [Token<'a>]), Stop>
    ensures { Gives (λ x. (statements_of x.0, x.1.now)) result (of.statements tokens.now) }
{
    let mut front = List::new(alloc);
    let mut rest = Rest::new(tokens);
    for _ in 0..tokens.len() {
        let left = rest.tokens();
        if is_at_end(left) {
            return Ok((front, left));
        }
        let (statement, after) = read_statement(alloc, left)?;
        front.push(statement)?;
        rest = Rest::new(after);
    }
    let left = rest.tokens();
    if is_at_end(left) {
        Ok((front, left))
    } else {
        Err(stop_at(left))
    }
}
