//! Usable clauses by their numbers.

ghost use Rattle.std.specs.Prelude.{◌≡◌, ◌≢◌, ◌∷◌, Some, Contains, List as AList, IfOk, All, AllPairs, MatchOption};
ghost use Rattle.sc_term.specs.declared.Numbered.{Numbered as ANumbered};
ghost use Rattle.sc_core_rules.specs.Hyperresolution.{AreNamed};

use sc_term::{List, Mem, Numbered, copy};
use std::alloc::Global;

/// The clause of this number.
fn find(usable: &[Numbered], n: u32) -> Option<&Numbered>
    ensures { MatchOption result (All (λ p. p.number ≢ n) usable.now) (λ p. (p.now.number ≡ n) × Contains usable.now p.now) }
{
    for at in 0..usable.len() {
        if usable[at].number == n {
            return Some(&usable[at]);
        }
    }
    None
}

fn copy_numbered(alloc: Global, p: &Numbered) -> Mem<Numbered>
    ensures { IfOk result (λ r. r ≡ p.now) }
{
    Ok(Numbered {
        number: p.number,
        clause: copy(alloc, &p.clause)?,
    })
}

/// The clauses of these numbers, in order, or None where one isn't there.
fn named(alloc: Global, usable: &[Numbered], numbers: &[u32]) -> Mem<Option<List<Numbered>>>
    requires { AllPairs (λ p q. p.number ≢ q.number) usable.now }
    ensures { IfOk result (λ found. (ps : AList ANumbered) → AreNamed usable.now numbers.now ps → found ≡ Some ps) }
{
    let mut found = List::new(alloc);
    for n in numbers {
        match find(usable, *n) {
            Some(p) => found.push(copy_numbered(alloc, p)?)?,
            None => return Ok(None),
        }
    }
    Ok(Some(found))
}

/// The clause of the first number, and then those of the others, in order, or None where one isn't there.
pub fn parents_of(
    alloc: Global,
    usable: &[Numbered],
    nucleus: u32,
    others: List<u32>,
) -> Mem<Option<List<Numbered>>>
    requires { AllPairs (λ p q. p.number ≢ q.number) usable.now }
    ensures { IfOk result (λ found. (ps : AList ANumbered) → AreNamed usable.now (nucleus ∷ others) ps → found ≡ Some ps) }
{
    let mut numbers = List::new(alloc);
    numbers.push(nucleus)?;
    numbers.append(others)?;
    named(alloc, usable, numbers.as_slice())
}
