//! What a new clause deletes, and how it becomes a demodulator.

ghost use Rattle.std.specs.Prelude.{◌≡◌, ◌↔◌, ◌++◌, ◌<◌, List, All, IfOk, OnOk, IsTrue, true};
ghost use Rattle.sc_term.specs.declared.Numbered.{Numbered as ANumbered};
ghost use Rattle.sc_term.specs.Subsumption.{Subsumes};
ghost use Rattle.sc_core_rules.specs.Rewriting.{BecomesDemodulator, HasRedex};
ghost use Rattle.sc_core_rules.specs.Book.{with_deleted};
ghost use Rattle.sc_core_rules.specs.Processing.{AreOthers, with_demodulator};
ghost use Rattle.sc_keep.specs.Lists.{book_of};
ghost use Rattle.sc_keep.specs.Rivals.{IsFit};
ghost use Rattle.sc_keep.specs.Sweep.{Deletes, Demodulates, HaveDistinctNumbers, numbers};

use crate::lists::Lists;
use crate::sweep::{leave_out, note_reducible, note_subsumed};
use sc_demod::becomes_demod;
use sc_input_rules::Flags;
use sc_term::{Mem, Numbered, copy};
use std::alloc::Global;

/// The numbers of the other clauses of usable and sos that the new one subsumes, in rising order.
fn subsumed_by(alloc: Global, lists: &Lists, n: &Numbered) -> Mem<Vec<u32>>
    requires { HaveDistinctNumbers (lists.now.usable ++ lists.now.sos) }
    ensures { IfOk result (λ gone. (others : List ANumbered) × AreOthers (book_of lists.now) n.now (Subsumes n.now.clause) others
        × (gone.items ≡ numbers others)) }
{
    let mut gone = Vec::new(alloc);
    note_subsumed(alloc, n, lists.usable.as_slice(), &mut gone)?;
    note_subsumed(alloc, n, lists.sos.as_slice(), &mut gone)?;
    gone.sort_unstable();
    Ok(gone)
}

/// The numbers of the other clauses of usable and sos that have a redex by the new one, in rising order.
fn reducible_by(alloc: Global, lists: &Lists, n: &Numbered) -> Mem<Vec<u32>>
    requires { HaveDistinctNumbers (lists.now.usable ++ lists.now.sos) }
    ensures { IfOk result (λ gone. (others : List ANumbered) × AreOthers (book_of lists.now) n.now (λ c. HasRedex c n.now) others
        × (gone.items ≡ numbers others)) }
{
    let mut gone = Vec::new(alloc);
    note_reducible(alloc, n, lists.usable.as_slice(), &mut gone)?;
    note_reducible(alloc, n, lists.sos.as_slice(), &mut gone)?;
    gone.sort_unstable();
    Ok(gone)
}

/// Takes the clauses of these numbers out of usable and sos.
fn delete(lists: &mut Lists, gone: &[u32])
    ensures { (others : List ANumbered) → gone.now ≡ numbers others → book_of lists.new ≡ with_deleted (book_of lists.old) others }
{
    leave_out(&mut lists.usable, gone);
    leave_out(&mut lists.sos, gone);
}

/// Deletes the other clauses of usable and sos that the new one subsumes, where that is asked for. Their numbers, in
/// rising order.
pub fn delete_subsumed(
    alloc: Global,
    back_sub: bool,
    lists: &mut Lists,
    n: &Numbered,
) -> Mem<Vec<u32>>
    requires { HaveDistinctNumbers (lists.old.usable ++ lists.old.sos) }
    ensures { IfOk result (λ gone. Deletes back_sub (Subsumes n.now.clause) (book_of lists.old) n.now (book_of lists.new) gone.items) }
{
    if !back_sub {
        return Ok(Vec::new(alloc));
    }
    let gone = subsumed_by(alloc, lists, n)?;
    delete(lists, gone.as_slice());
    Ok(gone)
}

/// Deletes the other clauses of usable and sos that have a redex by the new one, where that is asked for. Their numbers,
/// in rising order.
fn delete_reducible(
    alloc: Global,
    back_demod: bool,
    lists: &mut Lists,
    n: &Numbered,
) -> Mem<Vec<u32>>
    requires { HaveDistinctNumbers (lists.old.usable ++ lists.old.sos) }
    ensures { IfOk result (λ gone. Deletes back_demod (λ c. HasRedex c n.now) (book_of lists.old) n.now (book_of lists.new) gone.items) }
{
    if !back_demod {
        return Ok(Vec::new(alloc));
    }
    let gone = reducible_by(alloc, lists, n)?;
    delete(lists, gone.as_slice());
    Ok(gone)
}

/// The clause joins the demodulators.
fn join_demodulators(alloc: Global, lists: &mut Lists, n: &Numbered) -> Mem<()>
    requires becomes { BecomesDemodulator n.now.clause }
    requires greatest { All (λ p. p.number < n.now.number) lists.old.demods }
    ensures { OnOk result (book_of lists.new ≡ with_demodulator (book_of lists.old) n.now) }
{
    lists.demods.push(Numbered {
        number: n.number,
        clause: copy(alloc, &n.clause)?,
    })?;
    Ok(())
}

/// Whether the clause becomes a demodulator, where that is asked for.
fn becomes_one(dynamic_demod: bool, n: &Numbered) -> bool
    requires { IsFit n.now }
    ensures { IsTrue result ↔ ((dynamic_demod ≡ true) × BecomesDemodulator n.now.clause) }
{
    dynamic_demod && becomes_demod(&n.clause)
}

/// The new clause joins the demodulators, where it becomes one and `dynamic_demod` asks for it; the other clauses of
/// usable and sos that have a redex by it are deleted then, where `back_demod` asks for that. Their numbers, in rising
/// order.
pub fn demodulate(alloc: Global, flags: Flags, lists: &mut Lists, n: &Numbered) -> Mem<Vec<u32>>
    requires fit { IsFit n.now }
    requires distinct { HaveDistinctNumbers (lists.old.usable ++ lists.old.sos) }
    requires greatest { All (λ p. p.number < n.now.number) lists.old.demods }
    ensures { IfOk result (λ again. Demodulates flags (book_of lists.old) n.now (book_of lists.new) again.items) }
{
    if !becomes_one(flags.dynamic_demod, n) {
        return Ok(Vec::new(alloc));
    }
    let gone = delete_reducible(alloc, flags.back_demod, lists, n)?;
    join_demodulators(alloc, lists, n)?;
    Ok(gone)
}
