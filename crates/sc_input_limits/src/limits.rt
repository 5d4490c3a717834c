//! The limits of a clause so far, in their order.

ghost use Rattle.std.specs.Prelude.{◌≡◌, List, None, true};
ghost use Rattle.sc_input_rules.specs.declared.token.Token.{Token};
ghost use Rattle.sc_input_limits.specs.Counted.{Counted};
ghost use Rattle.sc_input_limits.specs.Limits as spec;

use crate::count::{ClauseCount, first_at};
use crate::position::closes;
use sc_input_rules::{InputKind, Place, Token};
use sc_term::MAX_INPUT_CLAUSES;

/// The first token of a clause too many.
fn clauses_told(clauses: usize, clause: &[Token]) -> Option<u64>
    ensures { result ≡ spec.clauses_told_behind clauses clause.now }
{
    if MAX_INPUT_CLAUSES <= clauses && !closes(clause) {
        first_at(clause)
    } else {
        None
    }
}

/// Whether a clause so far passes no limit, behind fewer clauses than a problem may have.
pub fn is_within(count: &ClauseCount, clauses: usize) -> bool
    ensures { (tokens : List Token) → Counted tokens count.now → result ≡ true → spec.fault_in_clause clauses tokens ≡ None }
{
    if MAX_INPUT_CLAUSES <= clauses {
        return false;
    }
    count.is_within()
}

/// The first limit that a clause so far passes, behind so many clauses.
pub fn fault_in_clause(count: &ClauseCount, clauses: usize, clause: &[Token]) -> Option<Place>
    ensures { Counted clause.now count.now → result ≡ spec.fault_in_clause clauses clause.now }
{
    if let Some(at) = count.arity_told(clause) {
        return Some(Place {
            at,
            kind: InputKind::TooMany,
        });
    }
    if let Some(at) = clauses_told(clauses, clause) {
        return Some(Place {
            at,
            kind: InputKind::TooMany,
        });
    }
    if let Some(at) = count.weight_told(clause) {
        return Some(Place {
            at,
            kind: InputKind::TooHeavy,
        });
    }
    match count.depth_told(clause) {
        Some(at) => Some(Place {
            at,
            kind: InputKind::TooDeep,
        }),
        None => None,
    }
}
