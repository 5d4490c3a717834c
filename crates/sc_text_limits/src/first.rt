//! The first limit that the tokens of a proof section pass.

ghost use Rattle.std.specs.Prelude.{◌≡◌, ◌<◌, ◌+◌, length, take, Some, None, IfOk, IfSome, option_map};
ghost use Rattle.sc_input_rules.specs.Faults.{first_passed};
ghost use Rattle.sc_text_rules.specs.TextLimits.{text_bounds, text_fault_at};

use crate::reached::Reached;
use sc_input_limits::Passed;
use sc_input_rules::Token;
use sc_term::{Mem, Signature};
use std::alloc::Global;

/// The first limit that the tokens of a proof section pass, as `first_passed` takes it over `text_limits`, where the
/// names are those of the signature. The time and memory are in proportion to the text of the tokens.
///
/// # Errors
/// Want of memory.
pub fn first_limit(alloc: Global, sig: &Signature, tokens: &[Token]) -> Mem<Option<Passed>>
    ensures told { IfOk result (λ passed. first_passed (text_fault_at text_bounds sig.now) tokens.now ≡ option_map (λ p. p.place) passed) }
    ensures before { IfOk result (λ passed. IfSome passed (λ p. first_passed (text_fault_at text_bounds sig.now) (take p.token tokens.now) ≡ None)) }
    ensures passed { IfOk result (λ passed. IfSome passed (λ p. first_passed (text_fault_at text_bounds sig.now) (take (p.token + 1) tokens.now) ≡ Some p.place)) }
    ensures within { IfOk result (λ passed. IfSome passed (λ p. p.token < length tokens.now)) }
{
    let mut reached = Reached::new(alloc);
    for token in 0..tokens.len() {
        if let Some(place) = reached.step(alloc, sig, tokens, token)? {
            return Ok(Some(Passed { token, place }));
        }
    }
    Ok(None)
}
