//! What a found model means, and that there is none: truth of the clauses in tables.
//!
//! A search for a model (`sc_find`) speaks of values for cells, and of instances that are false by them. The laws here
//! take its answers to the tables themselves, in the sense of `Satisfies` of `sc_interp`: each clause of the task is
//! true in the tables of a found model under every assignment, no tables in which all are true come before them, and
//! there is no model exactly where the clauses are all true in no tables of that size over the signature. The task's
//! symbols have to be a signature, and its clauses over it, as those of every problem are (`IsOverSignature` in
//! `specs/Meaning`).
//!
//! Each law is the clause of a public function without a body's work.
#![tactic(auto)]

ghost use Rattle.sc_find_laws.specs.Meaning.{FoundModelsAreTrue, FoundModelsComeFirst, NoModelMeansNone, NoModelInPiece, NoTablesMeanNoModel, FoundModelsOfProblemsAreTrue, ProblemsWithoutModels};

/// A law: what is found as the first model of a task, or of a piece of it, is one. Each clause of the task is true in
/// the tables under every assignment of their elements.
pub fn found_models_are_true()
    ensures { FoundModelsAreTrue }
{}

/// A law: no tables of the task's size over its signature, and of the piece, in which all its clauses are true come
/// before those of the first model. Tables stand in the order of their entries in the cells (`ComesFirst`).
pub fn found_models_come_first()
    ensures { FoundModelsComeFirst }
{}

/// A law: where a task has no model, its clauses aren't all true in any tables of its size over its signature.
pub fn no_model_means_none()
    ensures { NoModelMeansNone }
{}

/// A law: where a piece of a task has no model, its clauses aren't all true in any tables whose entry in cell 0 is the
/// piece's value.
pub fn no_model_in_a_piece()
    ensures { NoModelInPiece }
{}

/// A law: where the clauses of a task aren't all true in any tables of its size, 1 to 8, over its signature, the task
/// has no model.
pub fn no_tables_mean_no_model()
    ensures { NoTablesMeanNoModel }
{}

/// `found_models_are_true` of the input clauses of a problem.
pub fn found_models_of_problems_are_true()
    ensures { FoundModelsOfProblemsAreTrue }
{}

/// `no_model_means_none` of the input clauses of a problem.
pub fn problems_without_models()
    ensures { ProblemsWithoutModels }
{}
