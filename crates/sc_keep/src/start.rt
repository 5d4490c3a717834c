//! The start: the input clauses go to their lists, and the first that is empty or conflicts with an earlier one ends it.

ghost use Rattle.std.specs.Prelude.{◌≡◌, ◌↔◌, ◌++◌, ◌∷◌, [], ◌<◌, ◌+◌, ◌^◌, List as AList, All, AllPairs, IsTrue, IfOk, OnOk, MatchOption, Some, None, length, zip};
ghost use Rattle.std.specs.List.{AllByRecursion};
ghost use Rattle.sc_term.specs.Numbering.{numbered as numbered_element};
ghost use Rattle.sc_term.specs.declared.Numbered.{Numbered as ANumbered};
ghost use Rattle.sc_input_rules.specs.Problem.{Stated};
ghost use Rattle.sc_input_rules.specs.WellFormed.{FitsHome};
ghost use Rattle.sc_input_rules.specs.declared.settings.Home.TheVariants.{Demodulators};
ghost use Rattle.sc_core_rules.specs.Rewriting.{IsDemodulator};
ghost use Rattle.sc_core_rules.specs.Conflict.{Conflicts};
ghost use Rattle.sc_core_rules.specs.Order.{IsFilter};
ghost use Rattle.sc_core_rules.specs.Start.{numbered_from, EndsStart, IsEarlierRival, OpensBook, Starts};
ghost use Rattle.sc_keep.specs.Rivals.{IsFit, IsFitClause};
ghost use Rattle.sc_keep.specs.Start.{EndsBy, HasInput, IsBelowEnding, IsFirstEnding, IsLeastEarlier};
ghost use Rattle.sc_keep.specs.Lists.{book_of};
ghost use Rattle.sc_keep.specs.Started.{IsEndedBy};

use crate::lists::Lists;
use crate::rival::{Rival, is_below};
use crate::units::conflict;
use sc_demod::Demods;
use sc_input_rules::Home;
use sc_steps::Derived;
use sc_term::{Clause, List, Mem, Numbered, copy};
use std::alloc::Global;

/// The clauses with their numbers, from 1.
fn numbered(alloc: Global, inputs: &[Clause]) -> Mem<List<Numbered>>
    requires few { length inputs.now < 2 ^ 32 }
    ensures { IfOk result (λ all. all ≡ numbered_from 1 inputs.now) }
{
    let mut all = List::new(alloc);
    for at in 0..inputs.len() {
        all.push(Numbered {
            number: at as u32 + 1,
            clause: copy(alloc, &inputs[at])?,
        })?;
    }
    Ok(all)
}

/// Whether clause number `n` stands in the list.
fn stands_in(homes: &[Home], n: u32, home: Home) -> bool
    ensures { IsTrue result ↔ (numbered_element homes.now n ≡ Some home) }
{
    if n == 0 {
        return false;
    }
    match homes.get(n as usize - 1) {
        Some(h) => *h == home,
        None => false,
    }
}

/// The clauses that stand in the list, in order.
fn at_home(alloc: Global, all: &[Numbered], homes: &[Home], home: Home) -> Mem<List<Numbered>>
    ensures { IfOk result (λ ps. IsFilter (λ p. numbered_element homes.now p.number ≡ Some home) all.now ps) }
{
    let mut ps = List::new(alloc);
    for p in all {
        if stands_in(homes, p.number, home) {
            ps.push(Numbered {
                number: p.number,
                clause: copy(alloc, &p.clause)?,
            })?;
        }
    }
    Ok(ps)
}

/// The empty clause of `n` and `m`, where `m` is earlier, the two conflict, and neither is a demodulator.
fn earlier_conflict(
    alloc: Global,
    homes: &[Home],
    n: &Numbered,
    m: &Numbered,
) -> Mem<Option<Derived>>
    requires fit_n { IsFit n.now }
    requires fit_m { IsFit m.now }
    ensures { IfOk result (λ found. (problem : Stated) → problem.homes ≡ homes.now
        → MatchOption found (¬ IsEarlierRival problem n.now m.now) (λ made. IsEarlierRival problem n.now m.now × Conflicts n.now m.now made)) }
{
    if n.number <= m.number {
        return Ok(None);
    }
    if stands_in(homes, n.number, Home::Demodulators) {
        return Ok(None);
    }
    if stands_in(homes, m.number, Home::Demodulators) {
        return Ok(None);
    }
    let found = conflict(alloc, n, m)?;
    Ok(found)
}

/// The earlier rival of least number: the best so far, or `m`.
fn better_earlier(
    alloc: Global,
    homes: &[Home],
    n: &Numbered,
    m: &Numbered,
    best: Option<Rival>,
) -> Mem<Option<Rival>>
    requires fit_n { IsFit n.now }
    requires fit_m { IsFit m.now }
    ensures { IfOk result (λ now. (problem : Stated) → problem.homes ≡ homes.now → (front : AList ANumbered)
        → IsLeastEarlier problem n.now front best → IsLeastEarlier problem n.now (front ++ m.now ∷ []) now) }
{
    if !is_below(m.number, &best) {
        return Ok(best);
    }
    match earlier_conflict(alloc, homes, n, m)? {
        Some(made) => Ok(Some(Rival {
            number: m.number,
            made,
        })),
        None => Ok(best),
    }
}

/// The earlier rival of least number.
fn least_earlier(
    alloc: Global,
    homes: &[Home],
    n: &Numbered,
    all: &[Numbered],
) -> Mem<Option<Rival>>
    requires fit { IsFit n.now }
    requires all_fit { All IsFit all.now }
    ensures { IfOk result (λ found. (problem : Stated) → problem.homes ≡ homes.now → IsLeastEarlier problem n.now all.now found) }
{
    let mut best = None;
    for m in all {
        best = better_earlier(alloc, homes, n, m, best)?;
    }
    Ok(best)
}

/// What ends the start: an empty clause, by its number, or one that conflicts with an earlier, with what the two give.
#[derive(Drop)]
pub struct Ending {
    pub number: u32,
    pub made: Option<Derived>,
}

/// What the clause ends the start by, where it does.
fn ending_by(alloc: Global, homes: &[Home], all: &[Numbered], n: &Numbered) -> Mem<Option<Ending>>
    requires fit { IsFit n.now }
    requires all_fit { All IsFit all.now }
    ensures { IfOk result (λ found. (problem : Stated) → HasInput homes.now all.now problem
        → MatchOption found (¬ EndsStart problem n.now) (λ e. EndsStart problem n.now × (n.now.number ≡ e.number) × EndsBy problem n.now e.made)) }
{
    if n.clause.literals.is_empty() {
        return Ok(Some(Ending {
            number: n.number,
            made: None,
        }));
    }
    match least_earlier(alloc, homes, n, all)? {
        Some(rival) => Ok(Some(Ending {
            number: n.number,
            made: Some(rival.made),
        })),
        None => Ok(None),
    }
}

/// Whether the number is less than that of the ending so far.
fn is_before(n: u32, best: &Option<Ending>) -> bool
    ensures { IsTrue result ↔ IsBelowEnding n best.now }
{
    match best {
        Some(ending) => n < ending.number,
        None => true,
    }
}

/// The ending of least number: the best so far, or that by `n`.
fn better_ending(
    alloc: Global,
    homes: &[Home],
    all: &[Numbered],
    n: &Numbered,
    best: Option<Ending>,
) -> Mem<Option<Ending>>
    requires fit { IsFit n.now }
    requires all_fit { All IsFit all.now }
    ensures { IfOk result (λ now. (problem : Stated) → HasInput homes.now all.now problem → (front : AList ANumbered)
        → IsFirstEnding problem front best → IsFirstEnding problem (front ++ n.now ∷ []) now) }
{
    if !is_before(n.number, &best) {
        return Ok(best);
    }
    match ending_by(alloc, homes, all, n)? {
        Some(found) => Ok(Some(found)),
        None => Ok(best),
    }
}

/// What the first clause, by number, that ends the start ends it by.
fn first_ending(alloc: Global, homes: &[Home], all: &[Numbered]) -> Mem<Option<Ending>>
    requires all_fit { All IsFit all.now }
    ensures { IfOk result (λ found. (problem : Stated) → HasInput homes.now all.now problem → IsFirstEnding problem all.now found) }
{
    let mut best = None;
    for n in all {
        best = better_ending(alloc, homes, all, n, best)?;
    }
    Ok(best)
}

/// The lists at the start, and the number of the empty clause where the run ends at once.
#[derive(Drop)]
pub struct Started {
    pub lists: Lists,
    pub goal: Option<u32>,
}

/// The demodulators of the input, in order.
fn demodulators(alloc: Global, all: &[Numbered], homes: &[Home]) -> Mem<Demods>
    requires rising { AllPairs (λ p q. p.number < q.number) all.now }
    requires are { All (λ p. numbered_element homes.now p.number ≡ Some Demodulators → IsDemodulator p.clause) all.now }
    ensures { IfOk result (λ ds. IsFilter (λ p. numbered_element homes.now p.number ≡ Some Demodulators) all.now ds) }
{
    let mut ds = Demods::new(alloc);
    for p in all {
        if stands_in(homes, p.number, Home::Demodulators) {
            ds.push(Numbered {
                number: p.number,
                clause: copy(alloc, &p.clause)?,
            })?;
        }
    }
    Ok(ds)
}

/// The input clauses in their lists; nothing is derived.
fn opened(alloc: Global, homes: &[Home], all: &[Numbered]) -> Mem<Started>
    requires rising { AllPairs (λ p q. p.number < q.number) all.now }
    requires demods { All (λ p. numbered_element homes.now p.number ≡ Some Demodulators → IsDemodulator p.clause) all.now }
    ensures opens { IfOk result (λ started. (problem : Stated) → HasInput homes.now all.now problem → OpensBook problem (book_of started.lists)) }
    ensures no_goal { IfOk result (λ started. started.goal ≡ None) }
{
    Ok(Started {
        lists: Lists {
            derived: List::new(alloc),
            usable: at_home(alloc, all, homes, Home::Usable)?,
            sos: at_home(alloc, all, homes, Home::Sos)?,
            passive: at_home(alloc, all, homes, Home::Passive)?,
            demods: demodulators(alloc, all, homes)?,
            kept: List::new(alloc),
        },
        goal: None,
    })
}

/// Ends the start by what was found, where `next` is the number that the next derived clause takes.
fn end(started: &mut Started, found: Option<Ending>, next: u32) -> Mem<()>
    ensures { OnOk result (IsEndedBy started.old found next started.new) }
{
    match found {
        Some(ending) => {
            match ending.made {
                Some(made) => {
                    started.lists.derived.push(made)?;
                    started.goal = Some(next);
                    Ok(())
                }
                None => {
                    started.goal = Some(ending.number);
                    Ok(())
                }
            }
        }
        None => Ok(()),
    }
}

/// The start of a run (`Starts`): the input clauses, which are canonical and within the limits, go to the lists of their
/// homes under their numbers, from 1. The first, by number, that is empty, or is a unit that conflicts
/// with an earlier one, ends the run: the goal is then its number, or the next one with the empty clause of the two,
/// which is derived. Demodulators conflict with none.
pub fn start_lists(alloc: Global, inputs: &[Clause], homes: &[Home]) -> Mem<Started>
    requires few { length inputs.now + 1 < 2 ^ 32 }
    requires fit { All IsFitClause inputs.now }
    requires demodulators { AllByRecursion FitsHome (zip homes.now inputs.now) }
    ensures { IfOk result (λ started. (problem : Stated) → problem.inputs ≡ inputs.now → problem.homes ≡ homes.now
        → Starts problem (book_of started.lists) started.goal) }
{
    let all = numbered(alloc, inputs)?;
    let mut started = opened(alloc, homes, all.as_slice())?;
    let found = first_ending(alloc, homes, all.as_slice())?;
    end(&mut started, found, inputs.len() as u32 + 1)?;
    Ok(started)
}
