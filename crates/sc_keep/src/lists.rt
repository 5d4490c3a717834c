//! The lists of the book, as plain data, and the clause that joins them.

ghost use Rattle.std.specs.Prelude.{◌≡◌, ◌∷◌, [], ◌++◌, ◌<◌, ◌^◌, OnOk};
ghost use Rattle.sc_term.specs.Clause as spec;
ghost use Rattle.sc_input_rules.specs.Problem.{Stated};
ghost use Rattle.sc_core_rules.specs.Book.{next_number};
ghost use Rattle.sc_core_rules.specs.Processing.{with_kept};
ghost use Rattle.sc_keep.specs.Lists.{book_of};

use sc_core_rules::KeptRow;
use sc_demod::Demods;
use sc_steps::Derived;
use sc_term::{Line, List, Mem, Numbered, copy, weight};
use std::alloc::Global;

/// The derived clauses, the lists of live clauses, the demodulators, and the rows of kept clauses.
#[derive(Drop)]
pub struct Lists {
    pub derived: List<Derived>,
    pub usable: List<Numbered>,
    pub sos: List<Numbered>,
    pub passive: List<Numbered>,
    pub demods: Demods,
    pub kept: List<KeptRow>,
}

/// The clause with its derivation, which has the next number, joins the end of sos and the rows of kept clauses. After
/// want of memory the lists may have it in part.
pub fn join(alloc: Global, lists: &mut Lists, n: &Numbered, lines: List<Line>, turn: u32) -> Mem<()>
    requires { spec.weight n.now.clause < 2 ^ 32 }
    ensures usable { OnOk result (lists.new.usable ≡ lists.old.usable) }
    ensures sos { OnOk result (lists.new.sos ≡ lists.old.sos ++ n.now ∷ []) }
    ensures passive { OnOk result (lists.new.passive ≡ lists.old.passive) }
    ensures demods { OnOk result (lists.new.demods ≡ lists.old.demods) }
    ensures book { OnOk result ((problem : Stated) → n.now.number ≡ next_number problem (book_of lists.old)
        → book_of lists.new ≡ with_kept problem (book_of lists.old) n.now.clause lines turn) }
{
    lists.derived.push(Derived {
        clause: copy(alloc, &n.clause)?,
        lines,
    })?;
    lists.sos.push(Numbered {
        number: n.number,
        clause: copy(alloc, &n.clause)?,
    })?;
    lists.kept.push(KeptRow {
        number: n.number,
        turn,
        weight: weight(&n.clause),
        clause: copy(alloc, &n.clause)?,
    })?;
    Ok(())
}
