//! What a kept clause does: it meets its rival, or sweeps the clauses that it subsumes or rewrites.

ghost use Rattle.std.specs.Prelude.{◌≡◌, ◌++◌, ◌<◌, ◌+◌, ◌^◌, All, IfOk};
ghost use Rattle.sc_input_rules.specs.Problem.{Stated};
ghost use Rattle.sc_core_rules.specs.Processing.{Keeps, Sweeps, only_fate};
ghost use Rattle.sc_core_rules.specs.declared.fate.Fate.TheVariants.{Kept};
ghost use Rattle.sc_keep.specs.Lists.{book_of};
ghost use Rattle.sc_keep.specs.Rivals.{IsFit};
ghost use Rattle.sc_keep.specs.Sweep.{HaveDistinctNumbers};

use crate::deleting::{delete_subsumed, demodulate};
use crate::lists::Lists;
use crate::live::{Live, live_rival};
use sc_core_rules::{Fate, Processed};
use sc_input_rules::Flags;
use sc_term::{List, Mem, Numbered};
use std::alloc::Global;

/// The fate, with nothing deleted.
pub fn fate_alone(alloc: Global, fate: Fate) -> Processed
    ensures { result ≡ only_fate fate }
{
    Processed {
        fate,
        gone: List::new(alloc),
        again: List::new(alloc),
    }
}

/// A clause of that number is kept; those of the numbers are deleted, and of them those that it rewrites come again.
fn kept_with(alloc: Global, number: u32, subsumed: Vec<u32>, rewritten: Vec<u32>) -> Mem<Processed>
    ensures { IfOk result (λ out. out ≡ record { fate = Kept number; gone = subsumed.items ++ rewritten.items; again = rewritten.items }) }
{
    let mut gone = subsumed;
    gone.extend_from_slice(rewritten.as_slice())?;
    Ok(Processed {
        fate: Fate::Kept(number),
        gone: List::from_vec(gone),
        again: List::from_vec(rewritten),
    })
}

/// Deletes the clauses that the new one subsumes, and then those that it rewrites as a demodulator, where these are asked
/// for (`Sweeps`).
fn sweep(alloc: Global, flags: Flags, lists: &mut Lists, n: &Numbered) -> Mem<Processed>
    requires fit { IsFit n.now }
    requires distinct { HaveDistinctNumbers (lists.old.usable ++ lists.old.sos) }
    requires greatest { All (λ p. p.number < n.now.number) lists.old.demods }
    ensures { IfOk result (λ out. (problem : Stated) → problem.flags ≡ flags
        → Sweeps problem (book_of lists.old) n.now (book_of lists.new) out) }
{
    let subsumed = delete_subsumed(alloc, flags.back_sub, lists, n)?;
    let rewritten = demodulate(alloc, flags, lists, n)?;
    let out = kept_with(alloc, n.number, subsumed, rewritten)?;
    Ok(out)
}

/// What follows when `n` has joined the lists (`Keeps`): the least live unit that conflicts with it gives the empty
/// clause, which takes the number after that of `n`; without one, the clauses that `n` subsumes are deleted where
/// `back_sub` asks for it, and where `n` becomes a demodulator, as `dynamic_demod` allows, those that it rewrites where
/// `back_demod` asks for it. After want of memory a list may lack clauses that another has.
pub fn keep(alloc: Global, flags: Flags, lists: &mut Lists, n: &Numbered) -> Mem<Processed>
    requires fit { IsFit n.now }
    requires usable { All IsFit lists.old.usable }
    requires sos { All IsFit lists.old.sos }
    requires passive { All IsFit lists.old.passive }
    requires distinct { HaveDistinctNumbers (lists.old.usable ++ lists.old.sos) }
    requires greatest { All (λ p. p.number < n.now.number) lists.old.demods }
    requires few { n.now.number + 1 < 2 ^ 32 }
    ensures { IfOk result (λ out. (problem : Stated) → problem.flags ≡ flags
        → Keeps problem (book_of lists.old) n.now (book_of lists.new) out) }
{
    let live = Live {
        usable: lists.usable.as_slice(),
        sos: lists.sos.as_slice(),
        passive: lists.passive.as_slice(),
    };
    match live_rival(alloc, live, n)? {
        Some(rival) => {
            lists.derived.push(rival.made)?;
            Ok(fate_alone(alloc, Fate::Empty(n.number + 1)))
        }
        None => {
            let out = sweep(alloc, flags, lists, n)?;
            Ok(out)
        }
    }
}
