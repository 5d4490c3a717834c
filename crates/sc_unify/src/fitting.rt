//! Matching over bindings that the caller lends, so that a try takes no memory of its own, and copies nothing that
//! doesn't fit.

ghost use Rattle.std.specs.Prelude.{◌≡◌, IfOk, MatchOption};
ghost use Rattle.sc_term.specs.Term.{term_width};
ghost use Rattle.sc_unify.specs.Matching.{HasNoTermMatch, IsTermMatch};

use crate::bound::Bound;
use crate::matching::{fill, match_term};
use sc_term::{List, Mem, Term, terms_width};
use std::alloc::Global;
use std::slice;

/// 1 more than the pattern's greatest variable.
fn width_of(pattern: &Term) -> u64
    ensures { result ≡ term_width pattern.now }
{
    terms_width(slice::from_ref(pattern))
}

/// Terms for the pattern's variables that make it the target (`IsTermMatch`), or None where there are none. A variable
/// below the width that doesn't occur gets variable 0. What `bound` has is forgotten first; it serves many calls.
pub fn match_term_onto<'a>(
    alloc: Global,
    pattern: &Term,
    target: &'a Term,
    bound: &mut Vec<Bound<'a>>,
) -> Mem<Option<List<Term>>>
    ensures { IfOk result (λ found. MatchOption found (HasNoTermMatch pattern.now target.now) (λ terms. IsTermMatch pattern.now target.now terms)) }
{
    bound.clear();
    if !match_term(pattern, target, bound)? {
        return Ok(None);
    }
    let width = width_of(pattern);
    Ok(Some(fill(alloc, bound.as_slice(), width)?))
}
