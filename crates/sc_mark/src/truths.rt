//! What is known of clauses by clause number: at place n of a list stands what is known of clause n, and None where it
//! isn't marked.

ghost use Rattle.std.specs.Prelude.{◌≡◌, ◌≢◌, ◌≤◌, ◌<◌, ◌++◌, ◌∷◌, [], None, Some, All, AllPairs, IfOk, OnOk, OnErr, length};
ghost use Rattle.sc_term.specs.Clause.{IsCanonical, IsWithinLimits};
ghost use Rattle.sc_interp.specs.Marks.{IsMark};
ghost use Rattle.sc_mark.specs.Known.{IsKnown};
ghost use Rattle.sc_mark.specs.Changes.{AreChanges};
ghost use Rattle.sc_mark.specs.Marked.{without_number};
ghost use Rattle.sc_mark.specs.Marking.{known_at, AreSame, IsPut, AreKnown};

use crate::carrying::known_after;
use crate::known::Known;
use crate::trying::tried;
use sc_interp::Tables;
use sc_term::{Clause, List, Mem, Numbered, copy};
use std::alloc::Global;

/// What stands at place n, None past the end.
pub fn known_of(stored: &[Option<Known>], n: u32) -> Option<Known>
    ensures { result ≡ known_at stored.now n }
{
    let place = n as usize;
    if place < stored.len() {
        stored[place]
    } else {
        None
    }
}

/// Makes place n, where it isn't there.
fn make_room(stored: &mut List<Option<Known>>, n: u32) -> Mem<()>
    ensures room { OnOk result (n < length stored.new) }
    ensures same { AreSame stored.old stored.new }
{
    let place = n as usize;
    while stored.len() <= place {
        stored.push(None)?;
    }
    Ok(())
}

/// Puts the entry at place n, which is there.
fn put(stored: &mut List<Option<Known>>, n: u32, entry: Option<Known>)
    requires { n < length stored.old }
    ensures { IsPut n entry stored.old stored.new }
{
    stored.set(n as usize, entry);
}

/// Takes away what stands at place n.
pub fn clear(stored: &mut List<Option<Known>>, n: u32)
    ensures { IsPut n None stored.old stored.new }
{
    if (n as usize) < stored.len() {
        put(stored, n, None);
    }
}

/// Puts what is known at place n, which is made where it isn't there.
fn add_known(stored: &mut List<Option<Known>>, n: u32, known: Known) -> Mem<()>
    ensures { OnOk result (IsPut n (Some known) stored.old stored.new) }
{
    make_room(stored, n)?;
    put(stored, n, Some(known));
    Ok(())
}

/// Adds a copy of the clause behind the clauses, and what is known of it at its number.
pub fn add(
    alloc: Global,
    clauses: &mut Vec<Numbered>,
    stored: &mut List<Option<Known>>,
    n: u32,
    c: &Clause,
    known: Known,
) -> Mem<()>
    ensures clauses { OnOk result (clauses.new.items ≡ clauses.old.items ++ record { number = n; clause = c.now } ∷ []) }
    ensures put { OnOk result (IsPut n (Some known) stored.old stored.new) }
    ensures refused { OnErr result (clauses.new.items ≡ clauses.old.items) }
    ensures same { OnErr result (AreSame stored.old stored.new) }
{
    let clause = copy(alloc, c)?;
    make_room(stored, n)?;
    clauses.push(Numbered { number: n, clause })?;
    put(stored, n, Some(known));
    Ok(())
}

/// Takes the clause of number n out.
pub fn leave_out(clauses: &mut Vec<Numbered>, n: u32)
    ensures { clauses.new.items ≡ without_number clauses.old.items n }
{
    clauses.retain(|p| p.number != n);
}

/// What is known of the clause in the tables.
pub fn known_in(tables: &Tables, c: &Clause, register: &mut Vec<u8>) -> Known
    requires canonical { IsCanonical c.now }
    requires within { IsWithinLimits c.now }
    requires register { length register.old.items ≡ 10000 }
    ensures known { IsKnown tables.now c.now result }
    ensures register { length register.new.items ≡ length register.old.items }
{
    tried(tables, c, register.as_mut_slice())
}

/// What is known of the clause in the new tables, by what stands at its number of the old ones.
fn carried_one(
    old: &Tables,
    new: &Tables,
    changes: &[bool],
    stored: &[Option<Known>],
    p: &Numbered,
    register: &mut Vec<u8>,
) -> Known
    requires changes { AreChanges old.now.tables new.now.tables changes.now }
    requires stored { (before : _) → known_at stored.now p.now.number ≡ Some before → IsKnown old.now p.now.clause before }
    requires canonical { IsCanonical p.now.clause }
    requires within { IsWithinLimits p.now.clause }
    requires register { length register.old.items ≡ 10000 }
    ensures known { IsKnown new.now p.now.clause result }
    ensures register { length register.new.items ≡ length register.old.items }
{
    match known_of(stored, p.number) {
        Some(before) => known_after(
            old,
            new,
            changes,
            &p.clause,
            before,
            register.as_mut_slice(),
        ),
        None => known_in(new, &p.clause, register),
    }
}

/// What is known of the clauses in the new tables, each at the number of its clause, by what is known in the old ones.
pub fn carried(
    alloc: Global,
    old: &Tables,
    new: &Tables,
    changes: &[bool],
    clauses: &[Numbered],
    stored: &[Option<Known>],
    register: &mut Vec<u8>,
) -> Mem<List<Option<Known>>>
    requires changes { AreChanges old.now.tables new.now.tables changes.now }
    requires stored { AreKnown old.now clauses.now stored.now }
    requires apart { AllPairs (λ p q. p.number ≢ q.number) clauses.now }
    requires canonical { All (λ p. IsCanonical p.clause) clauses.now }
    requires within { All (λ p. IsWithinLimits p.clause) clauses.now }
    requires register { length register.old.items ≡ 10000 }
    ensures known { IfOk result (λ carried. AreKnown new.now clauses.now carried) }
    ensures register { length register.new.items ≡ length register.old.items }
{
    let mut carried = List::new(alloc);
    for p in clauses {
        let known = carried_one(old, new, changes, stored, p, register);
        add_known(&mut carried, p.number, known)?;
    }
    Ok(carried)
}
