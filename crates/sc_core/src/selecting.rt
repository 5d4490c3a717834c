//! The choice of the given clause.

ghost use Rattle.std.specs.Prelude.{◌≡◌, ◌≢◌, ◌<◌, ◌↔◌, ◌+◌, ◌^◌, [], ◌∷◌, true, All, AllPairs, IsTrue, IfOk, OnOk, MatchOption, option_map, length, map};
ghost use Rattle.sc_term.specs.Clause.{IsCanonical, IsWithinLimits};
ghost use Rattle.sc_interp.specs.Versions.{opening as opening_version};
ghost use Rattle.sc_core.specs.Choice.{weighed, HasFalse, IsLightestFalse, IsSelected};
ghost use Rattle.sc_core.specs.Marking.{AreRight, AreMarked, in_guide};

use sc_core_rules::Cause;
use sc_guide::Guide;
use sc_interp::VersionName;
use sc_keep::Book;
use sc_mark::Marks;
use sc_sos::Sos;
use sc_term::{Mem, Numbered, weight};
use std::alloc::Global;

/// The number of a clause of sos, and why it is chosen.
#[derive(Clone, Copy, Debug)]
pub struct Selected {
    pub number: u32,
    pub cause: Cause,
}

/// The clauses by number and weight.
fn waiting(alloc: Global, sos: &[Numbered]) -> Mem<Sos>
    requires within { All (λ p. IsWithinLimits p.clause) sos.now }
    requires apart { AllPairs (λ p q. p.number ≢ q.number) sos.now }
    requires few { length sos.now < 2 ^ 32 }
    ensures { IfOk result (λ waiting. waiting.clauses ≡ map weighed sos.now) }
{
    let mut waiting = Sos::new(alloc)?;
    waiting.reserve(alloc, sos.len() as u32)?;
    for p in sos {
        waiting.push(p.number, weight(&p.clause));
    }
    Ok(waiting)
}

/// The number that was looked up, if any, chosen for that cause.
fn chosen(number: Option<u32>, cause: Cause) -> Option<Selected>
    ensures { result ≡ option_map (λ n. record { number = n; cause = cause }) number }
{
    match number {
        Some(number) => Some(Selected { number, cause }),
        None => None,
    }
}

/// Whether the names are one.
fn is_name(a: VersionName, b: VersionName) -> bool
    ensures { IsTrue result ↔ (a ≡ b) }
{
    a.finder == b.finder && a.place == b.place
}

/// Takes the marks to the guide, unless they are of its name.
fn carry(alloc: Global, guide: &Guide, marks: &mut Marks) -> Mem<()>
    requires { marks.old.name ≡ guide.now.name → marks.old.version ≡ guide.now.version }
    ensures { OnOk result (marks.new ≡ in_guide marks.old guide.now) }
{
    if is_name(marks.name(), guide.name()) {
        return Ok(());
    }
    marks.carry(alloc, guide.name(), guide.version())?;
    Ok(())
}

/// Marks the clause, unless it is marked (`AreMarked`).
fn mark_one(alloc: Global, marks: &mut Marks, p: &Numbered) -> Mem<()>
    requires canonical { IsCanonical p.now.clause }
    requires within { IsWithinLimits p.now.clause }
    ensures { OnOk result (AreMarked marks.old marks.new (p.now ∷ [])) }
{
    match marks.of(p.number) {
        Some(_) => Ok(()),
        None => {
            marks.mark(alloc, p.number, &p.clause)?;
            Ok(())
        }
    }
}

/// Marks the clauses that aren't marked yet (`AreMarked`).
fn mark_all(alloc: Global, marks: &mut Marks, sos: &[Numbered]) -> Mem<()>
    requires canonical { All (λ p. IsCanonical p.clause) sos.now }
    requires within { All (λ p. IsWithinLimits p.clause) sos.now }
    ensures { OnOk result (AreMarked marks.old marks.new sos.now) }
{
    for p in sos {
        mark_one(alloc, marks, p)?;
    }
    Ok(())
}

/// The lightest clause of sos that is false in the guide, ties to the lesser number, after the clauses that aren't
/// marked in it were. None exactly where none is, or no version is seen: no clause is marked then.
fn lightest_false(
    alloc: Global,
    guide: &Guide,
    marks: &mut Marks,
    book: &Book,
    waiting: &Sos,
) -> Mem<Option<u32>>
    requires whole { book.now.whole ≡ true }
    requires waiting { waiting.now.clauses ≡ map weighed book.now.book.sos }
    requires opens { guide.now.opening_version ≡ opening_version book.now.problem.symbols }
    requires right { AreRight book.now.problem guide.now.seen book.now.book marks.old }
    ensures found { IfOk result (λ found. MatchOption found (¬ HasFalse book.now.book.sos guide.now.name guide.now.version)
        (λ n. IsLightestFalse book.now.problem book.now.book.sos guide.now.name guide.now.version n)) }
    ensures right { OnOk result (AreRight book.now.problem guide.now.seen book.now.book marks.new) }
{
    book.keeps();
    let opening = VersionName {
        finder: 0,
        place: 0,
    };
    if is_name(guide.name(), opening) {
        return Ok(None);
    }
    carry(alloc, guide, marks)?;
    mark_all(alloc, marks, book.sos().as_slice())?;
    Ok(waiting.lightest_false(marks))
}

/// The clause of sos that is given in this turn, by its number (`Selects`): the oldest where `pick_given_ratio` + 1 divides
/// the turn; otherwise the lightest of those that are false in the guide, where a version is seen; and otherwise the
/// lightest, ties to the lesser number. None exactly where sos is empty.
pub fn select(
    alloc: Global,
    guide: &Guide,
    marks: &mut Marks,
    book: &Book,
    turn: u32,
) -> Mem<Option<Selected>>
    requires whole { book.now.whole ≡ true }
    requires few { length book.now.problem.inputs + length book.now.book.derived + 200002 < 2 ^ 32 }
    requires opens { guide.now.opening_version ≡ opening_version book.now.problem.symbols }
    requires right { AreRight book.now.problem guide.now.seen book.now.book marks.old }
    ensures selected { IfOk result (λ found. MatchOption found (book.now.book.sos ≡ [])
        (λ s. IsSelected book.now.problem book.now.book.sos turn guide.now.name guide.now.version s.number s.cause)) }
    ensures right { OnOk result (AreRight book.now.problem guide.now.seen book.now.book marks.new) }
{
    book.keeps();
    let waiting = waiting(alloc, book.sos().as_slice())?;
    let ratio = book.params().pick_given_ratio;
    if turn % (ratio + 1) == 0 {
        let oldest = chosen(waiting.oldest(), Cause::Age);
        return Ok(oldest);
    }
    match lightest_false(alloc, guide, marks, book, &waiting)? {
        Some(n) => {
            let lightest_false = chosen(Some(n), Cause::False);
            return Ok(lightest_false);
        }
        None => {}
    }
    let lightest = chosen(waiting.lightest(), Cause::Weight);
    Ok(lightest)
}
