//! Versions: tables with claims that they make true.

ghost use Rattle.std.specs.Prelude.{◌≡◌, ◌<◌, ◌^◌, ◌↔◌, length, IsTrue, IfOk, OnOk, IfErr};
ghost use Rattle.sc_interp.specs.Structure.{AreTablesOf};
ghost use Rattle.sc_interp.specs.Versions as spec;
ghost use Rattle.sc_interp.specs.Versions.{AreTrue, IsVersion};
ghost use Rattle.sc_interp.specs.ClaimErrors.{IsCauseOfClaims};

use crate::claims::{first_false, widest};
use crate::compare::{same_claims, same_tables};
use crate::copies::copy_claims;
use crate::plain::Claim;
use crate::tables::Tables;
use sc_term::{List, Mem, Signature};
use std::alloc::Global;
use std::marker::Model;
use thiserror::Error;

/// Why claims weren't accepted.
#[derive(Clone, Copy, Debug, PartialEq, Eq, Error)]
pub enum ClaimError {
    /// The claim of that number, from 1 in the list, is the first that isn't true.
    #[error("claim {claim} is false")]
    False { claim: u32 },
    #[error("out of memory")]
    OutOfMemory,
}

/// Tables, and input clauses that they make true under every assignment. `IsVersion` says what it keeps.
#[derive(Debug, Drop)]
pub struct Version {
    tables: Tables,
    claims: List<Claim>,
}

impl Model for Version {
    ghost use Rattle.std.specs.Coded.{codes};
    ghost use Rattle.sc_term.specs.contracts.Term as term;
    ghost use Rattle.sc_interp.specs.Versions.{ClaimedStructure, IsVersion};

    ghost Value = { ClaimedStructure };

    ghost coded = { Prim.hlevel (codes, term.the_row.coded) };

    ghost view = { λ v. record { tables = v.tables; claims = v.claims } };

    ghost invariant = { λ v. IsVersion (record { tables = v.tables; claims = v.claims }) };
}

impl Version {
    /// The tables with the claims, where every claim is true; otherwise `False` with the first that isn't. Both
    /// arguments are spent. It takes as many steps as the claims have ground instances.
    pub fn make(alloc: Global, tables: Tables, claims: List<Claim>) -> Result<Version, ClaimError>
        requires { length claims < 2 ^ 32 }
        ensures value { IfOk result (λ v. v ≡ record { tables = tables; claims = claims }) }
        ensures claims { OnOk result (AreTrue tables claims) }
        ensures refused { IfErr result (IsCauseOfClaims tables claims) }
    {
        let Ok(mut values) = vec![in alloc; 0u8; widest(claims.as_slice())] else {
            return Err(ClaimError::OutOfMemory);
        };
        match first_false(
            tables.size(),
            tables.tables(),
            claims.as_slice(),
            values.as_mut_slice(),
        ) {
            Some(claim) => Err(ClaimError::False { claim }),
            None => Ok(Version { tables, claims }),
        }
    }

    /// The opening version: size 2, every entry 0, no claims.
    pub fn opening(alloc: Global, sig: &Signature) -> Mem<Version>
        ensures value { IfOk result (λ v. v ≡ spec.opening sig.now) }
        ensures over { IfOk result (λ v. AreTablesOf sig.now v.tables) }
    {
        let tables = Tables::zeros(alloc, sig, 2)?;
        Ok(Version {
            tables,
            claims: List::new(alloc),
        })
    }

    pub fn tables(&self) -> &Tables
        ensures value { result.now ≡ self.now.tables }
        ensures kept { IsVersion self.now }
    {
        &self.tables
    }

    pub fn claims(&self) -> &List<Claim>
        ensures value { result.now ≡ self.now.claims }
        ensures kept { IsVersion self.now }
    {
        &self.claims
    }

    pub fn copy(&self, alloc: Global) -> Mem<Version>
        ensures { IfOk result (λ v. v ≡ self.now) }
    {
        let tables = self.tables.copy(alloc)?;
        let claims = copy_claims(alloc, self.claims.as_slice())?;
        Ok(Version { tables, claims })
    }
}

/// Whether the two have the same size, the same tables and the same claims in the same order.
pub fn same(a: &Version, b: &Version) -> bool
    ensures { IsTrue result ↔ (a.now ≡ b.now) }
{
    let (left, right) = (a.tables(), b.tables());
    left.size() == right.size()
        && same_tables(left.tables(), right.tables())
        && same_claims(a.claims().as_slice(), b.claims().as_slice())
}
