//! Literals of several parents, set against each other, and what makes them equal.

ghost use Rattle.std.specs.Prelude.{◌≡◌, ◌<◌, ◌≤◌, ◌^◌, ◌+◌, Some, List as AList, length, map, All, IfOk, MatchOption};
ghost use Rattle.std.specs.Option.{option_copied};
ghost use Rattle.sc_term.specs.declared.Clause.{Clause as AClause};
ghost use Rattle.sc_term.specs.declared.Pair.{Pair as APair};
ghost use Rattle.sc_term.specs.Clause.{width};
ghost use Rattle.sc_term.specs.Term.{largest};
ghost use Rattle.sc_term.specs.Substitution.{Unify};
ghost use Rattle.sc_term.specs.JointInstance.{apart};
ghost use Rattle.sc_core_rules.specs.Pairing.{literal_at};
ghost use Rattle.sc_resolve.specs.Kept.{IsKept};
ghost use Rattle.sc_resolve.specs.Parts.{IsOutside};
ghost use Rattle.sc_hyper.specs.Making.{clauses_of, ArePaired, AreTermsOfAll};

use sc_resolve::literal;
use sc_term::{Clause, List, Literal, Mem, Numbered, Pair, Term, copy_literal, shift, width};
use sc_unify::{joint_terms, unify_all};
use std::alloc::Global;

/// The clauses with the variables of each above those of the clauses before it.
pub fn apart(alloc: Global, parents: &[Numbered]) -> Mem<List<Clause>>
    requires few { length parents.now ≤ 10001 }
    requires kept { All (λ p. IsKept p.clause) parents.now }
    ensures { IfOk result (λ r. r ≡ apart (clauses_of parents.now)) }
{
    let mut low: u32 = 0;
    let mut moved = List::new(alloc);
    for parent in parents {
        moved.push(shift(alloc, &parent.clause, low)?)?;
        low += width(&parent.clause);
    }
    Ok(moved)
}

/// Literal `lit` of the parent at `at`.
fn literal_of(parents: &[Clause], at: usize, lit: u32) -> Option<&Literal>
    ensures { option_copied result ≡ literal_at parents.now (record { parent = at + 1; lit = lit }) }
{
    if at < parents.len() {
        literal(parents[at].literals.as_slice(), lit)
    } else {
        None
    }
}

/// The pair of literal `lit` of the first parent and literal `other` of the parent at `at`, or None where one of them
/// isn't there.
fn pair(alloc: Global, parents: &[Clause], lit: u32, at: usize, other: u32) -> Mem<Option<Pair>>
    ensures { IfOk result (λ found. (p : APair) → literal_at parents.now (record { parent = 1; lit = lit }) ≡ Some p.left
        → literal_at parents.now (record { parent = at + 1; lit = other }) ≡ Some p.right → found ≡ Some p) }
{
    let l = match literal_of(parents, 0, lit) {
        Some(l) => l,
        None => return Ok(None),
    };
    let m = match literal_of(parents, at, other) {
        Some(m) => m,
        None => return Ok(None),
    };
    Ok(Some(Pair {
        left: copy_literal(alloc, l)?,
        right: copy_literal(alloc, m)?,
    }))
}

/// The pairs of these literals of the first parent with those of the others, or None where one isn't there.
fn pairs(alloc: Global, parents: &[Clause], lits: &[u32], others: &[u32]) -> Mem<Option<List<Pair>>>
    ensures { IfOk result (λ found. (ps : AList APair) → ArePaired parents.now lits.now others.now ps → found ≡ Some ps) }
{
    let mut found = List::new(alloc);
    for at in 0..lits.len() {
        if at >= others.len() {
            return Ok(None);
        }
        match pair(alloc, parents, lits[at], at + 1, others[at])? {
            Some(p) => found.push(p)?,
            None => return Ok(None),
        }
    }
    Ok(Some(found))
}

/// For each parent the terms that take its own clause, from which it was shifted, to its part of the joint instance in
/// which the pairs become equal, or None where that is outside the limits.
pub fn terms_of_all(
    alloc: Global,
    parents: &List<Clause>,
    lits: &[u32],
    others: &[u32],
) -> Mem<Option<List<List<Term>>>>
    requires narrow { largest (map width parents.now) < 2 ^ 31 }
    ensures { (own : AList AClause) (ps : AList APair) → parents.now ≡ apart own → ArePaired parents.now lits.now others.now ps → Unify ps
        → IfOk result (λ found. MatchOption found (IsOutside own ps) (λ told. AreTermsOfAll own ps told)) }
{
    let pairs = match pairs(alloc, parents.as_slice(), lits, others)? {
        Some(pairs) => pairs,
        None => return Ok(None),
    };
    let s = match unify_all(alloc, &pairs)? {
        Some(s) => s,
        None => return Ok(None),
    };
    Ok(joint_terms(alloc, &s, parents)?)
}
