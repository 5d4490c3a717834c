//! Which of some clauses comes first, each looked at once.

ghost use Rattle.std.specs.Prelude.{◌++◌, ◌∷◌, [], ◌↔◌, ◌≡◌, List, IsTrue};
ghost use Rattle.sc_core_rules.specs.Order.{IsBefore};
ghost use Rattle.sc_mark.specs.Marked.{IsMarkedFalse};
ghost use Rattle.sc_sos.specs.declared.sos.Weighed.{Weighed as AWeighed};
ghost use Rattle.sc_sos.specs.Waiting.{weight_of, IsAny, IsFalseIn};
ghost use Rattle.sc_sos.specs.LookUp.{numbers_by, IsSooner, IsFirst};

use crate::sos::Weighed;
use sc_interp::Truth;
use sc_mark::Marks;

/// What clauses are ordered by: their numbers, or their weights with ties to the lesser number.
#[derive(Clone, Copy, Debug)]
pub enum Order {
    Age,
    Weight,
}

/// Whether clause a comes before clause b.
fn is_before(order: Order, a: Weighed, b: Weighed) -> bool
    ensures { IsTrue result ↔ IsBefore (numbers_by order a) (numbers_by order b) }
{
    match order {
        Order::Age => a.number < b.number,
        Order::Weight => a.weight < b.weight || (a.weight == b.weight && a.number < b.number),
    }
}

/// The best so far, if there is one, or the next: whichever comes first.
fn sooner(order: Order, best: Option<Weighed>, next: Weighed) -> Weighed
    ensures { IsSooner (numbers_by order) best next result }
{
    match best {
        Some(b) => { if is_before(order, next, b) { next } else { b } }
        None => next,
    }
}

/// The clause that comes first, if there is any.
pub fn first(order: Order, clauses: &[Weighed]) -> Option<Weighed>
    ensures { IsFirst (numbers_by order) IsAny clauses.now result }
{
    let mut best: Option<Weighed> = None;
    for w in clauses {
        best = Some(sooner(order, best, *w));
    }
    best
}

/// Whether the truth is False.
fn says_false(truth: Truth) -> bool
    ensures { IsTrue result ↔ (truth ≡ Truth.False) }
{
    match truth {
        Truth::False => true,
        Truth::True | Truth::Wide => false,
    }
}

/// Whether clause n is marked False.
fn is_marked_false(marks: &Marks, n: u32) -> bool
    ensures { IsTrue result ↔ IsMarkedFalse marks.now n }
{
    match marks.of(n) {
        Some(mark) => says_false(mark.truth),
        None => false,
    }
}

/// The lightest so far of those that are marked False, where the next is looked at too.
fn lightest_so_far(marks: &Marks, best: Option<Weighed>, next: Weighed) -> Option<Weighed>
    ensures { (front : List AWeighed) → IsFirst weight_of (IsFalseIn marks.now) front best → IsFirst weight_of (IsFalseIn marks.now) (front ++ next ∷ []) result }
{
    if is_marked_false(marks, next.number) {
        Some(sooner(Order::Weight, best, next))
    } else {
        best
    }
}

/// The lightest of the clauses that are marked False, if there is any.
pub fn first_false(marks: &Marks, clauses: &[Weighed]) -> Option<Weighed>
    ensures { IsFirst weight_of (IsFalseIn marks.now) clauses.now result }
{
    let mut best: Option<Weighed> = None;
    for w in clauses {
        best = lightest_so_far(marks, best, *w);
    }
    best
}
