//! How often variables occur.

ghost use Rattle.std.specs.Prelude.{◌≡◌, ◌<◌, ◌≤◌, ◌^◌, ◌↔◌, map, min, count_by, nat_eq, IsTrue};
ghost use Rattle.std.specs.List.{AllByRecursion};
ghost use Rattle.sc_term.specs.Term.{joined, term_weight, term_variables};
ghost use Rattle.sc_demod.specs.Counting.{OccursNoMore};

use sc_term::Term;

/// How often the variable occurs, or the greatest u32 where that is less.
#[cycle(counting)]
fn occurrences(t: &Term, n: u32) -> u32
    ensures { result ≡ min (count_by (nat_eq n) (term_variables t.now)) u32.MAX }
{
    match t {
        Term::Var(m) => { if n == *m { 1 } else { 0 } }
        Term::App(_, args) => occurrences_in(args.as_slice(), n),
    }
}

#[cycle(counting)]
fn occurrences_in(terms: &[Term], n: u32) -> u32
    ensures { result ≡ min (count_by (nat_eq n) (joined (map term_variables terms.now))) u32.MAX }
{
    let mut total: u32 = 0;
    for term in terms {
        total = total.saturating_add(occurrences(term, n));
    }
    total
}

/// Whether the variable occurs no more often in `right` than in `left`.
fn occurs_no_more(n: u32, right: &Term, left: &Term) -> bool
    requires right { term_weight right.now < 2 ^ 32 }
    requires left { term_weight left.now < 2 ^ 32 }
    ensures { IsTrue result ↔ OccursNoMore right.now left.now n }
{
    occurrences(right, n) <= occurrences(left, n)
}

/// Whether each variable of `t` occurs no more often in `right` than in `left`. Takes time quadratic in the weights.
#[cycle(comparing)]
pub fn each_no_more(t: &Term, right: &Term, left: &Term) -> bool
    requires right { term_weight right.now < 2 ^ 32 }
    requires left { term_weight left.now < 2 ^ 32 }
    ensures { IsTrue result ↔ AllByRecursion (OccursNoMore right.now left.now) (term_variables t.now) }
{
    match t {
        Term::Var(n) => occurs_no_more(*n, right, left),
        Term::App(_, args) => all_no_more(args.as_slice(), right, left),
    }
}

#[cycle(comparing)]
fn all_no_more(terms: &[Term], right: &Term, left: &Term) -> bool
    requires right { term_weight right.now < 2 ^ 32 }
    requires left { term_weight left.now < 2 ^ 32 }
    ensures { IsTrue result ↔ AllByRecursion (OccursNoMore right.now left.now) (joined (map term_variables terms.now)) }
{
    for term in terms {
        if !each_no_more(term, right, left) {
            return false;
        }
    }
    true
}
