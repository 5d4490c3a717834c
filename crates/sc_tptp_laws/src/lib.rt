//! What holds of problems in TPTP's clause form once they are read.
//!
//! Where `=` occurs in such a problem, `x0=x0` stands behind its clauses, so that paramodulation can close a negative
//! equation of equal sides. The law is the clause of a public function without a body's work: a proof that uses the added
//! clause refutes the clauses of the file alone, since each instance of it is an equality axiom of `IsRefuted`.
#![tactic(auto)]

ghost use Rattle.std.specs.Prelude.{List, ◌++◌, ◌∷◌, []};
ghost use Rattle.sc_term.specs.declared.Clause.{Clause};
ghost use Rattle.sc_term.specs.Refuted.{IsRefuted};
ghost use Rattle.sc_tptp_laws.specs.Added.{reflexivity};

/// The law that clauses which are refuted with `x0=x0` behind them are refuted without it, over all lists of clauses.
pub fn added_reflexivity_refutes_nothing()
    ensures { (inputs : List Clause) → IsRefuted (inputs ++ reflexivity ∷ []) → IsRefuted inputs }
{}
