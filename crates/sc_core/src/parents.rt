//! The clauses that an inference names, fetched by their numbers.

ghost use Rattle.std.specs.Prelude.{◌≡◌, ◌∷◌, [], ◌++◌, ◌<◌, ◌≤◌, ◌+◌, ◌↔◌, ℕ, List as AList, All, Any, IsTrue, IfOk, OnOk, length};
ghost use Rattle.sc_core_rules.specs.Book.{numbered_clauses};
ghost use Rattle.sc_core.specs.Parents.{AreParents};

use sc_keep::Book;
use sc_term::{List, Mem, Numbered, copy};
use std::alloc::Global;

/// Whether one of the clauses has the number.
fn is_there(clauses: &[Numbered], n: u32) -> bool
    ensures { IsTrue result ↔ Any (λ p. p.number ≡ n) clauses.now }
{
    clauses.iter().any(|p| p.number == n)
}

/// The clause of that number joins the others, unless it is there.
fn add_parent(alloc: Global, book: &Book, parents: &mut List<Numbered>, n: u32) -> Mem<()>
    requires there { 0 < n }
    requires within { n ≤ length book.now.problem.inputs + length book.now.book.derived }
    ensures { OnOk result ((before : AList ℕ) → AreParents (numbered_clauses book.now.problem book.now.book) before parents.old
        → AreParents (numbered_clauses book.now.problem book.now.book) (before ++ n ∷ []) parents.new) }
{
    if is_there(parents.as_slice(), n) {
        return Ok(());
    }
    let clause = copy(alloc, book.clause(n))?;
    parents.push(Numbered { number: n, clause })?;
    Ok(())
}

/// Copies of the clauses that have these numbers, each once (`AreParents`). They are found after they were deleted, too.
pub fn fetch(alloc: Global, book: &Book, numbers: &[u32]) -> Mem<List<Numbered>>
    requires there { All (λ n. 0 < n) numbers.now }
    requires within { All (λ n. n ≤ length book.now.problem.inputs + length book.now.book.derived) numbers.now }
    ensures { IfOk result (λ parents. AreParents (numbered_clauses book.now.problem book.now.book) numbers.now parents) }
{
    let mut parents = List::new(alloc);
    for n in numbers {
        add_parent(alloc, book, &mut parents, *n)?;
    }
    Ok(parents)
}
