//! One item of the work list: the conclusion of a site, or a clause that came back, is processed.

ghost use Rattle.std.specs.Prelude.{◌≡◌, ◌≢◌, ◌<◌, ◌≤◌, ◌+◌, ◌++◌, ◌^◌, ℕ, List as AList, Some, true, All, IfOk, OnOk, MatchOption, length};
ghost use Rattle.sc_term.specs.declared.Clause.{Clause as AClause};
ghost use Rattle.sc_term.specs.declared.Numbered.{Numbered as ANumbered};
ghost use Rattle.sc_term.specs.Numbering.{numbered};
ghost use Rattle.sc_term.specs.Proof.{AreSteps};
ghost use Rattle.sc_core_rules.specs.Book.{numbered_clauses};
ghost use Rattle.sc_core_rules.specs.Inference.{derived_of};
ghost use Rattle.sc_core_rules.specs.Turn.{IsPassedOver};
ghost use Rattle.sc_core_rules.specs.WorkList.{Item as AnItem, At, Again, Gives};
ghost use Rattle.sc_core_rules.specs.declared.fate.Fate.TheVariants.{Empty};
ghost use Rattle.sc_core_sites.specs.Sites.{site_of, IsConclusion};
ghost use Rattle.sc_core.specs.Items.{HasClause, IsSiteOf, IsWorked};

use crate::parents::fetch;
use sc_core_rules::Fate;
use sc_core_sites::{Site, conclude, named};
use sc_keep::Book;
use sc_steps::Made;
use sc_term::{Line, List, Mem, Numbered, Step, copy};
use std::alloc::Global;
use std::collections::VecDeque;

/// The conclusion of the given clause at the site, which is one over the clauses that were usable when the turn began,
/// or None where there is none (`IsConclusion`).
fn conclusion(alloc: Global, book: &Book, given: &Numbered, site: &Site) -> Mem<Option<Made>>
    requires { (usable : AList ANumbered) × IsSiteOf (numbered_clauses book.now.problem book.now.book) given.now usable (site_of site.now) }
    ensures { IfOk result (λ made. (usable : AList ANumbered) → IsSiteOf (numbered_clauses book.now.problem book.now.book) given.now usable (site_of site.now)
        → IsConclusion given.now usable (site_of site.now) made) }
{
    let numbers = named(alloc, site)?;
    let parents = fetch(alloc, book, numbers.as_slice())?;
    let made = conclude(alloc, given, &parents, site)?;
    Ok(made)
}

/// The clause of that number by its `input` line: what an item of the list that came back gives (`Gives`).
fn returned(alloc: Global, book: &Book, n: u32) -> Mem<Made>
    requires whole { book.now.whole ≡ true }
    requires there { HasClause (numbered_clauses book.now.problem book.now.book) n }
    ensures { IfOk result (λ made. (given : ANumbered) (usable : AList ANumbered) → Gives book.now.problem book.now.book given usable IsPassedOver (Again n) (derived_of made)) }
{
    book.keeps();
    let clause = copy(alloc, book.clause(n))?;
    let line = Line {
        step: Step::Input(n),
        clause: copy(alloc, &clause)?,
    };
    let mut lines = List::new(alloc);
    lines.push(line)?;
    Ok(Made { clause, lines })
}

/// The number of the empty clause, if the fate is that it was found.
fn found_by(fate: Fate) -> Option<u32>
    ensures { MatchOption result ((k : ℕ) → fate ≢ Empty k) (λ k. fate ≡ Empty k) }
{
    match fate {
        Fate::Empty(k) => Some(k),
        _ => None,
    }
}

/// The numbers join the end of those that wait.
fn join(waiting: &mut VecDeque<u32>, numbers: &[u32]) -> Mem<()>
    ensures { OnOk result (waiting.new.items ≡ waiting.old.items ++ numbers.now) }
{
    for n in numbers {
        waiting.push_back(*n)?;
    }
    Ok(())
}

/// Has the book process what an item gives, so that the item is worked (`IsWorked`): the numbers that come back join the
/// end of those that wait, and the number of the empty clause is told, if that is found. Each clause keeps its number,
/// and at most two are derived.
fn process_made(
    book: &mut Book,
    waiting: &mut VecDeque<u32>,
    made: Made,
    turn: u32,
) -> Mem<Option<u32>>
    requires whole { book.old.whole ≡ true }
    requires steps { AreSteps (numbered_clauses book.old.problem book.old.book) made.lines }
    requires few { length book.old.problem.inputs + length book.old.book.derived + 2 < 2 ^ 32 }
    requires there { All (HasClause (numbered_clauses book.old.problem book.old.book)) waiting.old.items }
    ensures worked { IfOk result (λ found. (given : ANumbered) (usable : AList ANumbered) (item : AnItem) → Gives book.old.problem book.old.book given usable IsPassedOver item (derived_of made)
        → IsWorked book.old.problem turn given usable IsPassedOver book.old.book waiting.old.items item book.new.book waiting.new.items found) }
    ensures grows { OnOk result ((n : ℕ) (c : AClause) → numbered (numbered_clauses book.old.problem book.old.book) n ≡ Some c
        → numbered (numbered_clauses book.new.problem book.new.book) n ≡ Some c) }
    ensures there { OnOk result (All (HasClause (numbered_clauses book.new.problem book.new.book)) waiting.new.items) }
    ensures few { OnOk result (length book.new.book.derived ≤ length book.old.book.derived + 2) }
    ensures problem { book.new.problem ≡ book.old.problem }
    ensures whole { OnOk result (book.new.whole ≡ true) }
{
    book.keeps();
    let out = book.process(made, turn)?;
    join(waiting, out.again.as_slice())?;
    Ok(found_by(out.fate))
}

/// Works the site of the given clause (`IsWorked`): what it concludes, if anything, is processed.
pub fn work_site(
    alloc: Global,
    book: &mut Book,
    waiting: &mut VecDeque<u32>,
    given: &Numbered,
    site: &Site,
    turn: u32,
) -> Mem<Option<u32>>
    requires whole { book.old.whole ≡ true }
    requires site { (usable : AList ANumbered) × IsSiteOf (numbered_clauses book.old.problem book.old.book) given.now usable (site_of site.now) }
    requires few { length book.old.problem.inputs + length book.old.book.derived + 2 < 2 ^ 32 }
    requires there { All (HasClause (numbered_clauses book.old.problem book.old.book)) waiting.old.items }
    ensures worked { IfOk result (λ found. (usable : AList ANumbered) → IsSiteOf (numbered_clauses book.old.problem book.old.book) given.now usable (site_of site.now)
        → IsWorked book.old.problem turn given.now usable IsPassedOver book.old.book waiting.old.items (At (site_of site.now)) book.new.book waiting.new.items found) }
    ensures grows { OnOk result ((n : ℕ) (c : AClause) → numbered (numbered_clauses book.old.problem book.old.book) n ≡ Some c
        → numbered (numbered_clauses book.new.problem book.new.book) n ≡ Some c) }
    ensures there { OnOk result (All (HasClause (numbered_clauses book.new.problem book.new.book)) waiting.new.items) }
    ensures few { OnOk result (length book.new.book.derived ≤ length book.old.book.derived + 2) }
    ensures problem { book.new.problem ≡ book.old.problem }
    ensures whole { OnOk result (book.new.whole ≡ true) }
{
    match conclusion(alloc, book, given, site)? {
        Some(made) => {
            let found = process_made(book, waiting, made, turn)?;
            Ok(found)
        }
        None => Ok(None),
    }
}

/// Works the clause of that number, which came back (`IsWorked`): it is processed by its `input` line.
pub fn work_again(
    alloc: Global,
    book: &mut Book,
    waiting: &mut VecDeque<u32>,
    n: u32,
    turn: u32,
) -> Mem<Option<u32>>
    requires whole { book.old.whole ≡ true }
    requires clause { HasClause (numbered_clauses book.old.problem book.old.book) n }
    requires few { length book.old.problem.inputs + length book.old.book.derived + 2 < 2 ^ 32 }
    requires there { All (HasClause (numbered_clauses book.old.problem book.old.book)) waiting.old.items }
    ensures worked { IfOk result (λ found. (given : ANumbered) (usable : AList ANumbered)
        → IsWorked book.old.problem turn given usable IsPassedOver book.old.book waiting.old.items (Again n) book.new.book waiting.new.items found) }
    ensures there { OnOk result (All (HasClause (numbered_clauses book.new.problem book.new.book)) waiting.new.items) }
    ensures few { OnOk result (length book.new.book.derived ≤ length book.old.book.derived + 2) }
    ensures problem { book.new.problem ≡ book.old.problem }
    ensures whole { OnOk result (book.new.whole ≡ true) }
{
    let made = returned(alloc, book, n)?;
    let found = process_made(book, waiting, made, turn)?;
    Ok(found)
}
