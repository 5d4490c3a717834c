//! Copies, each equal to what it copies.

ghost use Rattle.std.specs.Prelude.{◌≡◌, IfOk};
ghost use Rattle.sc_worker.specs.FinderList.{claimed_clauses};

use sc_interp::Claim;
use sc_term::{Clause, List, Mem, copy};
use std::alloc::Global;

/// The clauses of the claims, as a job has them.
pub fn copy_clauses(alloc: Global, claims: &[Claim]) -> Mem<List<Clause>>
    ensures { IfOk result (λ made. made ≡ claimed_clauses claims.now) }
{
    let mut made = List::new(alloc);
    for claim in claims {
        made.push(copy(alloc, &claim.clause)?)?;
    }
    Ok(made)
}

/// The claims, as a version has them.
pub fn copy_claims(alloc: Global, claims: &[Claim]) -> Mem<List<Claim>>
    ensures { IfOk result (λ copies. copies ≡ claims.now) }
{
    let mut copies = List::new(alloc);
    for claim in claims {
        let clause = copy(alloc, &claim.clause)?;
        copies.push(Claim {
            number: claim.number,
            clause,
        })?;
    }
    Ok(copies)
}
