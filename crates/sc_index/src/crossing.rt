//! One step of a walk in which variables of either side may take terms of the other.

ghost use Rattle.std.specs.Prelude.{◌≡◌, ◌<◌, ◌^◌, ◌&&◌, ℕ, List, length, drop, IsSomeAnd};
ghost use Rattle.sc_index.specs.Meeting.{Moves, arity, is_variable};
ghost use Rattle.sc_index.specs.declared.flat.Cell.{Cell as ACell};

use crate::flat::{Cell, Key};

/// Which sides' variables take terms: those of the stored literals, those of the literal that is asked about.
#[derive(Clone, Copy, Debug)]
pub struct Sides {
    pub stored: bool,
    pub asked: bool,
}

/// A place of the row, and how many terms of the path are to be passed over before it.
#[derive(Clone, Copy, Debug)]
pub struct Spot {
    pub at: usize,
    pub pending: usize,
}

fn is_variable(key: Key) -> bool
    ensures { result ≡ is_variable key }
{
    match key {
        Key::Variable => true,
        Key::Symbol(_, _) => false,
        Key::Atom(_, _) => false,
    }
}

fn arity(key: Key) -> usize
    ensures { result ≡ arity key }
{
    match key {
        Key::Variable => 0,
        Key::Symbol(_, n) => n,
        Key::Atom(_, _) => 0,
    }
}

fn takes(side: bool, key: Key) -> bool
    ensures { result ≡ (side && is_variable key) }
{
    if side { is_variable(key) } else { false }
}

fn cross_here(sides: Sides, key: Key, query: &[Cell], at: usize) -> Option<Spot>
    requires { at < length query.now }
    ensures { (after : ℕ) (to : List ACell) → Moves sides.stored sides.asked key 0 (drop at query.now) after to
        → IsSomeAnd result (λ next. (after ≡ next.pending) × (to ≡ drop next.at query.now)) }
{
    let cell = query[at];
    if takes(sides.stored, key) {
        let next = at + 1 + cell.below.min(query.len() - at - 1);
        return Some(Spot {
            at: next,
            pending: 0,
        });
    }
    if takes(sides.asked, cell.key) {
        return Some(Spot {
            at: at + 1,
            pending: arity(key),
        });
    }
    if cell.key == key {
        return Some(Spot {
            at: at + 1,
            pending: 0,
        });
    }
    None
}

/// Where the walk goes on behind an edge with the key, or None where it ends.
pub fn cross(sides: Sides, key: Key, query: &[Cell], spot: Spot) -> Option<Spot>
    ensures { (after : ℕ) (to : List ACell) → Moves sides.stored sides.asked key spot.pending (drop spot.at query.now) after to → after < 2 ^ 64
        → IsSomeAnd result (λ next. (after ≡ next.pending) × (to ≡ drop next.at query.now)) }
{
    if spot.pending == 0 {
        if spot.at >= query.len() {
            return None;
        }
        return cross_here(sides, key, query, spot.at);
    }
    match (spot.pending - 1).checked_add(arity(key)) {
        Some(pending) => Some(Spot {
            at: spot.at,
            pending,
        }),
        None => None,
    }
}
