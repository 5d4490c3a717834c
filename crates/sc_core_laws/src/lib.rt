//! Laws of the search: each speaks of all problems and all runs, and is the clause of a public function with an empty
//! body.
//!
//! That every clause leaves the set of support in time is `clauses_leave_in_time`: nothing that is kept waits without end,
//! whatever the model finders publish. With r = `pick_given_ratio` + 1, clause n, put in the set of support in turn t (the
//! start is turn 0), is given or deleted by turn t + n r, if the run goes so far (`specs/LeavesInTime`). It speaks of
//! the rows of the run and of its live clauses; that its problem is well formed isn't needed. `proofs/` has the fact that
//! is kept from turn to turn (`IsFair`): while clause n stands in the set of support, the turns that r divides since it was
//! put there and the clauses of smaller number that stand there are together fewer than n. `docs/FAIRNESS.md` explains it.
//!
//! That the given rows of a run tell the truth of their clauses in the versions that they name is `rows_are_true`.
//!
//! That the definitions of `sc_core_rules` mean one thing each are `sites_are_one`, `conclusion_is_one`,
//! `processing_is_one` and `run_is_one`; that a run which has found the empty clause refutes its input clauses is
//! `run_refutes`. Their proofs stand beside the definitions. Callers may rest on each law for what a program is proved to
//! make.
#![tactic(auto)]

ghost use Rattle.sc_core_laws.specs.LeavesInTime.{LeavesInTime};
ghost use Rattle.sc_core_laws.specs.TrueRows.{RowsAreTrue};
ghost use Rattle.sc_core_rules.specs.Inference.{ConclusionIsOne};
ghost use Rattle.sc_core_rules.specs.Processing.{ProcessingIsOne};
ghost use Rattle.sc_core_rules.specs.Run.{RunIsOne, RunRefutes};
ghost use Rattle.sc_core_rules.specs.Sites.{SitesAreOne};

/// The law that clause n, put in the set of support in turn t, is given in turn t + n r or before, or isn't live right
/// after that turn, in each run that has that turn (`LeavesInTime`); r is `pick_given_ratio` plus 1.
pub fn clauses_leave_in_time()
    ensures { LeavesInTime }
{}

/// The law that each given row of a run over looks at fronts of some lists has the mark of its clause in the version that
/// it names, which is the opening one or stands in those lists.
pub fn rows_are_true()
    ensures { RowsAreTrue }
{}

/// The law that a given clause, the usable clauses and a limit have one list of sites.
pub fn sites_are_one()
    ensures { SitesAreOne }
{}

/// The law that an inference has one conclusion with one derivation at most.
pub fn conclusion_is_one()
    ensures { ConclusionIsOne }
{}

/// The law that a conclusion that is processed has one fate, and leaves one book.
pub fn processing_is_one()
    ensures { ProcessingIsOne }
{}

/// The law that a problem and a list of looks have one run.
pub fn run_is_one()
    ensures { RunIsOne }
{}

/// The law that where a run has found the empty clause, the lines put together for it are a proof, and the input clauses
/// are refuted.
pub fn run_refutes()
    ensures { RunRefutes }
{}
