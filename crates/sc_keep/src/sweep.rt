//! The clauses that a new one subsumes or rewrites are found, and clauses are taken out of lists.

ghost use Rattle.std.specs.Prelude.{◌≡◌, ◌↔◌, ◌++◌, ℕ, List as AList, map, IsTrue, IfOk, OnOk, nat_eq};
ghost use Rattle.std.specs.List.{list_any};
ghost use Rattle.sc_term.specs.declared.Numbered.{Numbered as ANumbered};
ghost use Rattle.sc_core_rules.specs.Order.{IsFilter};
ghost use Rattle.sc_keep.specs.Sweep.{IsOtherReducible, IsOtherSubsumed, numbers, without_numbers};

use sc_demod::has_redex;
use sc_subsume::subsumes;
use sc_term::{List, Mem, Numbered};
use std::alloc::Global;

/// Whether the clause is another that the new one subsumes.
fn is_subsumed(alloc: Global, n: &Numbered, p: &Numbered) -> Mem<bool>
    ensures { IfOk result (λ is. IsTrue is ↔ IsOtherSubsumed n.now p.now) }
{
    if p.number == n.number {
        return Ok(false);
    }
    Ok(subsumes(alloc, &n.clause, &p.clause)?)
}

/// Adds the numbers of the other clauses that the new one subsumes.
pub fn note_subsumed(alloc: Global, n: &Numbered, ps: &[Numbered], gone: &mut Vec<u32>) -> Mem<()>
    ensures { OnOk result ((picked : AList ANumbered) × IsFilter (IsOtherSubsumed n.now) ps.now picked
        × (gone.new.items ≡ gone.old.items ++ numbers picked)) }
{
    for p in ps {
        if is_subsumed(alloc, n, p)? {
            gone.push(p.number)?;
        }
    }
    Ok(())
}

/// Whether the clause is another that has a redex by the new one.
fn is_reducible(alloc: Global, n: &Numbered, p: &Numbered) -> Mem<bool>
    ensures { IfOk result (λ is. IsTrue is ↔ IsOtherReducible n.now p.now) }
{
    if n.number == p.number {
        return Ok(false);
    }
    Ok(has_redex(alloc, &p.clause, n)?)
}

/// Adds the numbers of the other clauses that have a redex by the new one.
pub fn note_reducible(alloc: Global, n: &Numbered, ps: &[Numbered], gone: &mut Vec<u32>) -> Mem<()>
    ensures { OnOk result ((picked : AList ANumbered) × IsFilter (IsOtherReducible n.now) ps.now picked
        × (gone.new.items ≡ gone.old.items ++ numbers picked)) }
{
    for p in ps {
        if is_reducible(alloc, n, p)? {
            gone.push(p.number)?;
        }
    }
    Ok(())
}

/// Whether the number is among the numbers.
fn is_among(numbers: &[u32], n: u32) -> bool
    ensures { result ≡ list_any (nat_eq n) numbers.now }
{
    for m in numbers {
        if *m == n {
            return true;
        }
    }
    false
}

/// Takes the clauses of these numbers out.
pub fn leave_out(ps: &mut List<Numbered>, gone: &[u32])
    ensures { ps.new ≡ without_numbers gone.now ps.old }
{
    let count = ps.len();
    for back in 0..count {
        let at = count - 1 - back;
        if is_among(gone, ps.as_slice()[at].number) {
            ps.remove(at);
        }
    }
}
