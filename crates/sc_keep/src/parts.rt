//! The parts of two units in the joint instance that makes their atoms equal.

ghost use Rattle.std.specs.Prelude.{◌≡◌, ◌≢◌, ◌∷◌, [], ◌<◌, ◌≤◌, ◌+◌, ◌^◌, List as AList, map, length, IfOk, IfSome, IfNone, MatchOption};
ghost use Rattle.sc_term.specs.declared.Clause.{Clause as AClause};
ghost use Rattle.sc_term.specs.Term.{largest};
ghost use Rattle.sc_term.specs.Clause as spec;
ghost use Rattle.sc_term.specs.JointInstance.{apart};
ghost use Rattle.sc_keep.specs.Parts.{HasNoParts, HasParts, unit_pairs};

use sc_term::{Clause, List, Literal, Mem, Term, shift, width};
use sc_unify::{joint_terms, unify};
use std::alloc::Global;

/// The literal of a unit.
pub fn only_literal(c: &Clause) -> Option<&Literal>
    ensures found { IfSome result (λ l. c.now.literals ≡ l.now ∷ []) }
    ensures none { IfNone result (length c.now.literals ≢ 1) }
{
    match c.literals.as_slice() {
        [only] => Some(only),
        _ => None,
    }
}

/// The terms that take the clauses, which are given renamed apart, to their parts in the joint instance that makes the
/// two atoms equal, where there is one within the limits.
fn terms_of_pair(
    alloc: Global,
    renamed: &List<Clause>,
    l: &Literal,
    r: &Literal,
) -> Mem<Option<List<List<Term>>>>
    requires { largest (map spec.width renamed.now) < 2 ^ 31 }
    ensures { IfOk result (λ told. (own : AList AClause) → renamed.now ≡ apart own
        → let pairs = record { left = l.now; right = r.now } ∷ [] in MatchOption told (HasNoParts own pairs) (λ terms. HasParts own pairs terms)) }
{
    match unify(alloc, l, r)? {
        Some(s) => {
            let told = joint_terms(alloc, &s, renamed)?;
            Ok(told)
        }
        None => Ok(None),
    }
}

/// The two clauses renamed apart.
fn renamed_apart(alloc: Global, n: &Clause, m: &Clause) -> Mem<List<Clause>>
    requires { spec.width n.now + spec.width m.now < 2 ^ 31 }
    ensures apart { IfOk result (λ renamed. renamed ≡ apart (n.now ∷ m.now ∷ [])) }
    ensures width { IfOk result (λ renamed. largest (map spec.width renamed) < 2 ^ 31) }
{
    let mut renamed = List::new(alloc);
    renamed.push(shift(alloc, n, 0)?)?;
    renamed.push(shift(alloc, m, width(n))?)?;
    Ok(renamed)
}

/// The terms that take the two units to their parts in the joint instance that makes their atoms equal, where there is
/// one within the limits.
pub fn parts_terms(alloc: Global, n: &Clause, m: &Clause) -> Mem<Option<List<List<Term>>>>
    requires few { spec.width n.now + spec.width m.now < 2 ^ 31 }
    requires unit_n { length n.now.literals ≡ 1 }
    requires unit_m { length m.now.literals ≡ 1 }
    ensures { IfOk result (λ told. let own = n.now ∷ m.now ∷ [] in
        MatchOption told (HasNoParts own (unit_pairs n.now m.now)) (λ terms. HasParts own (unit_pairs n.now m.now) terms)) }
{
    let renamed = renamed_apart(alloc, n, m)?;
    match (
        only_literal(&renamed.as_slice()[0]),
        only_literal(&renamed.as_slice()[1]),
    ) {
        (Some(l), Some(r)) => Ok(terms_of_pair(alloc, &renamed, l, r)?),
        _ => Ok(None),
    }
}
