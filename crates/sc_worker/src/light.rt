//! Which input clauses are candidates.

ghost use Rattle.std.specs.Prelude.{◌≡◌, ◌≤◌, ◌↔◌, IsTrue, Some, length, slice_get};
ghost use Rattle.sc_term.specs.Clause as of;
ghost use Rattle.sc_term.specs.declared.Clause.{Clause as AClause};
ghost use Rattle.sc_worker.specs.Keeping.{light_from};

use sc_term::{Clause, weight};

/// A candidate weighs no more than this.
const MAX_CANDIDATE_WEIGHT: u32 = 100;

fn is_light(clause: &Clause) -> bool
    ensures { IsTrue result ↔ (of.weight clause.now ≤ 100) }
{
    weight(clause) <= MAX_CANDIDATE_WEIGHT
}

/// The first place from that one on at which a candidate stands, or the end.
pub fn next_light(clauses: &[Clause], from: usize) -> usize
    requires { from ≤ length clauses.now }
    ensures within { result ≤ length clauses.now }
    ensures same { light_from clauses.now from ≡ light_from clauses.now result }
    ensures light { (c : AClause) → slice_get clauses.now result ≡ Some c → of.weight c ≤ 100 }
{
    for place in from..clauses.len() {
        if is_light(&clauses[place]) {
            return place;
        }
    }
    clauses.len()
}
