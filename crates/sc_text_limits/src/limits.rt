//! The limits of a clause or term so far, in their order.

ghost use Rattle.std.specs.Prelude.{◌≡◌};
ghost use Rattle.sc_input_rules.specs.ClauseLimits as limit;
ghost use Rattle.sc_input_limits.specs.Counted.{Counted};
ghost use Rattle.sc_text_rules.specs.TextLimits.{text_bounds};
ghost use Rattle.sc_text_limits.specs.Limits as spec;

use sc_input_limits::{ClauseCount, last_at};
use sc_input_rules::{InputKind, Place, Token};
use sc_term::MAX_WEIGHT;

/// What a clause or a term may weigh.
const MOST_WEIGHT: usize = MAX_WEIGHT as usize;

fn weight_told(count: &ClauseCount, formula: &[Token]) -> Option<u64>
    ensures { Counted formula.now count.now → result ≡ limit.weight_told text_bounds formula.now }
{
    if MOST_WEIGHT < count.weight {
        last_at(formula)
    } else {
        None
    }
}

/// The first limit that a clause or term so far passes.
pub fn fault_in_formula(count: &ClauseCount, formula: &[Token]) -> Option<Place>
    ensures { Counted formula.now count.now → result ≡ spec.fault_in_formula formula.now }
{
    if let Some(at) = count.arity_told(formula) {
        return Some(Place {
            at,
            kind: InputKind::TooMany,
        });
    }
    if let Some(at) = weight_told(count, formula) {
        return Some(Place {
            at,
            kind: InputKind::TooHeavy,
        });
    }
    match count.depth_told(formula) {
        Some(at) => Some(Place {
            at,
            kind: InputKind::TooDeep,
        }),
        None => None,
    }
}
