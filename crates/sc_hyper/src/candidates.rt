//! The literals of electrons, which may be set against negative literals of a nucleus.

ghost use Rattle.std.specs.Prelude.{◌≡◌, ◌<◌, ◌≤◌, ◌+◌, nat_eq, length, IfOk, OnOk, All, AllPairs};
ghost use Rattle.std.specs.List.{list_all};
ghost use Rattle.sc_core_rules.specs.Hyperresolution.{IsPositive};
ghost use Rattle.sc_resolve.specs.ByNumber.{seen};
ghost use Rattle.sc_resolve.specs.Extending.{Extends, Below};
ghost use Rattle.sc_resolve.specs.Kept.{IsKept};
ghost use Rattle.sc_hyper.specs.Candidates.{candidate_numbers, IsOfElectron, IsSingle, AreCandidates};

use sc_term::{Clause, List, Literal, Mem, Numbered, copy_literal, width};
use std::alloc::Global;

/// Literal `lit` of electron `number`, whose clause is so wide.
#[derive(Drop)]
pub struct Candidate {
    pub number: u32,
    pub lit: u32,
    pub wide: u32,
    pub literal: Literal,
}

fn is_positive(c: &Clause) -> bool
    ensures { result ≡ list_all (λ l. l.positive) c.now.literals }
{
    for l in c.literals.as_slice() {
        if !l.positive {
            return false;
        }
    }
    true
}

fn is_single(c: &Clause) -> bool
    ensures { result ≡ nat_eq (length c.now.literals) 1 }
{
    c.literals.len() == 1
}

/// Adds the literals of the electron.
fn add_of_electron(alloc: Global, electron: &Numbered, found: &mut List<Candidate>) -> Mem<()>
    requires kept { IsKept electron.now.clause }
    requires few { length electron.now.clause.literals ≤ 10000 }
    ensures { OnOk result (Extends candidate_numbers (Below (IsOfElectron electron.now) (length electron.now.clause.literals)) (length found.new + 1) found.old found.new) }
{
    let wide = width(&electron.clause);
    let literals = electron.clause.literals.as_slice();
    for at in 0..literals.len() {
        let literal = copy_literal(alloc, &literals[at])?;
        found.push(Candidate {
            number: electron.number,
            lit: at as u32 + 1,
            wide,
            literal,
        })?;
    }
    Ok(())
}

/// The literals of all positive clauses, in order.
pub fn candidates(alloc: Global, usable: &[&Numbered]) -> Mem<List<Candidate>>
    requires rising { AllPairs (λ p q. p.number < q.number) (seen usable.now) }
    requires kept { All (λ p. IsKept p.clause) (seen usable.now) }
    ensures { IfOk result (λ found. AreCandidates IsPositive (seen usable.now) found) }
{
    let mut found = List::new(alloc);
    for electron in usable {
        if is_positive(&electron.clause) {
            add_of_electron(alloc, electron, &mut found)?;
        }
    }
    Ok(found)
}

/// The literals of all unit clauses, in order.
pub fn units(alloc: Global, usable: &[&Numbered]) -> Mem<List<Candidate>>
    requires rising { AllPairs (λ p q. p.number < q.number) (seen usable.now) }
    requires kept { All (λ p. IsKept p.clause) (seen usable.now) }
    ensures { IfOk result (λ found. AreCandidates IsSingle (seen usable.now) found) }
{
    let mut found = List::new(alloc);
    for electron in usable {
        if is_single(&electron.clause) {
            add_of_electron(alloc, electron, &mut found)?;
        }
    }
    Ok(found)
}
