//! Laws of the definitions, each the clause of a public function without a body's work, over all clauses.

ghost use Rattle.sc_term.specs.declared.Clause.{Clause as AClause};
ghost use Rattle.sc_term.specs.Clause.{IsCanonical};
ghost use Rattle.sc_term.specs.JointInstance.{JointInstanceIsOne, canonical as form};

/// The law that the joint instance of parents is the same for every most general unifier.
pub fn joint_instance_is_one()
    ensures { JointInstanceIsOne }
{}

/// The law that the canonical form of a clause is in canonical form.
pub fn canonical_form_is_canonical()
    ensures { (c : AClause) → IsCanonical (form c) }
{}
