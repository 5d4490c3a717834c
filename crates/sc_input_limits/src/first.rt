//! The first limit that the tokens of a problem pass.

ghost use Rattle.std.specs.Prelude.{◌≡◌, ◌<◌, ◌+◌, length, take, Some, None, IfOk, IfSome, option_map};
ghost use Rattle.sc_input_rules.specs.Faults.{first_passed};
ghost use Rattle.sc_input_rules.specs.ProblemLimits.{problem_bounds, problem_fault_at};

use crate::reached::Reached;
use sc_input_rules::{InputKind, Place, Token};
use sc_term::Mem;
use std::alloc::Global;

/// A limit that is passed.
#[derive(Clone, Copy, Debug, PartialEq, Eq)]
pub struct Passed {
    /// The number of the token that passes it, from 0.
    pub token: usize,
    /// The byte that is told, and the kind of the limit.
    pub place: Place,
}

/// The first limit that the tokens of a problem pass, as `first_passed` takes it over `problem_limits`. The time and
/// memory are in proportion to the text of the tokens.
///
/// # Errors
/// Want of memory.
pub fn first_limit(alloc: Global, tokens: &[Token]) -> Mem<Option<Passed>>
    ensures told { IfOk result (λ passed. first_passed (problem_fault_at problem_bounds) tokens.now ≡ option_map (λ p. p.place) passed) }
    ensures before { IfOk result (λ passed. IfSome passed (λ p. first_passed (problem_fault_at problem_bounds) (take p.token tokens.now) ≡ None)) }
    ensures passed { IfOk result (λ passed. IfSome passed (λ p. first_passed (problem_fault_at problem_bounds) (take (p.token + 1) tokens.now) ≡ Some p.place)) }
    ensures within { IfOk result (λ passed. IfSome passed (λ p. p.token < length tokens.now)) }
{
    let mut reached = Reached::new(alloc)?;
    let mut place = Place {
        at: 0,
        kind: InputKind::TooMany,
    };
    for token in 0..tokens.len() {
        if reached.step(alloc, tokens, token, &mut place)? {
            return Ok(Some(Passed { token, place }));
        }
    }
    Ok(None)
}
