//! The order in which literals are taken: those with the fewest places to go first, so that a search that can't succeed
//! ends early.

ghost use Rattle.std.specs.Prelude.{◌≤◌, length, IfOk};
ghost use Rattle.std.specs.List.Sorted.{IsPermutation};
ghost use Rattle.sc_subsume.specs.Search.{literals};

use crate::bound::Bound;
use crate::matching::match_literal;
use sc_term::{Literal, Mem};
use std::alloc::Global;

/// A literal that is to be taken to another, and how many it can be taken to by itself, as far as that was counted.
#[derive(Clone, Copy)]
pub struct Asked<'a> {
    pub literal: &'a Literal,
    pub candidates: usize,
}

/// How many of the literals the literal can be taken to by itself. The bindings are overwritten.
fn count_places<'a>(l: &Literal, all: &'a [Literal], bound: &mut Vec<Bound<'a>>) -> Mem<usize>
    ensures { IfOk result (λ count. count ≤ length all.now) }
{
    let mut count = 0;
    for m in all {
        bound.truncate(0);
        if match_literal(l, m, bound)? {
            count += 1;
        }
    }
    Ok(count)
}

/// The literals of `c`, fewest candidates in `d` first.
pub fn by_candidates<'a>(alloc: Global, c: &'a [Literal], d: &[Literal]) -> Mem<Vec<Asked<'a>>>
    ensures { IfOk result (λ asked. IsPermutation c.now (literals asked.items)) }
{
    let mut bound = Vec::new(alloc);
    let mut asked = Vec::new(alloc);
    // After a literal that can go nowhere the order of the others doesn't matter.
    let mut is_counting = true;
    for literal in c {
        let candidates = if is_counting {
            count_places(literal, d, &mut bound)?
        } else {
            d.len()
        };
        asked.push(Asked {
            literal,
            candidates,
        })?;
        is_counting = is_counting && candidates > 0;
    }
    asked.sort_by_key(|one| one.candidates)?;
    Ok(asked)
}
