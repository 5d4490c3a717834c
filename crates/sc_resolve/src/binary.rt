//! The sites of binary resolution.

ghost use Rattle.std.specs.Prelude.{◌≡◌, ◌≢◌, ◌<◌, ◌≤◌, ◌+◌, ◌^◌, length, IfOk, OnOk, All, AllPairs};
ghost use Rattle.sc_term.specs.Clause.{width};
ghost use Rattle.sc_term.specs.JointInstance.{shift};
ghost use Rattle.sc_core_rules.specs.Resolution.{AreBinarySites, binary_numbers};
ghost use Rattle.sc_resolve.specs.Kept.{IsKept};
ghost use Rattle.sc_resolve.specs.ByNumber.{seen};
ghost use Rattle.sc_resolve.specs.Extending.{Extends, Below};
ghost use Rattle.sc_resolve.specs.Binary.{IsWithLiteral, IsWithClause, IsWithPartner};

use crate::literals::{are_resolvable, may_resolve_any};
use crate::order::by_number;
use sc_core_rules::BinarySite;
use sc_term::{List, Literal, Mem, Numbered, shift, width};
use std::alloc::Global;

/// Adds the sites of literal `given_lit` with the literals of the partner, renamed apart, while there is room.
fn add_with_literal(
    alloc: Global,
    l: &Literal,
    others: &[Literal],
    partner: u32,
    given_lit: u32,
    limit: usize,
    sites: &mut List<BinarySite>,
) -> Mem<()>
    requires { length others.now ≤ 10000 }
    ensures { OnOk result (Extends binary_numbers (Below (IsWithLiteral partner given_lit l.now others.now) (length others.now)) limit sites.old sites.new) }
{
    for at in 0..others.len() {
        if sites.len() >= limit {
            return Ok(());
        }
        if are_resolvable(alloc, l, &others[at])? {
            sites.push(BinarySite {
                partner,
                given_lit,
                partner_lit: at as u32 + 1,
            })?;
        }
    }
    Ok(())
}

/// Adds the sites of the literals of the given clause with those of the partner, renamed apart.
fn add_with_clause(
    alloc: Global,
    literals: &[Literal],
    others: &[Literal],
    partner: u32,
    limit: usize,
    sites: &mut List<BinarySite>,
) -> Mem<()>
    requires few { length literals.now ≤ 10000 }
    requires few_others { length others.now ≤ 10000 }
    ensures { OnOk result (Extends binary_numbers (Below (IsWithClause partner literals.now others.now) (length literals.now)) limit sites.old sites.new) }
{
    for at in 0..literals.len() {
        if sites.len() >= limit {
            return Ok(());
        }
        let given_lit = at as u32 + 1;
        add_with_literal(
            alloc,
            &literals[at],
            others,
            partner,
            given_lit,
            limit,
            sites,
        )?;
    }
    Ok(())
}

/// Adds the sites with the partner. It is renamed apart only if one of its literals may be resolved on.
fn add_with_partner(
    alloc: Global,
    given: &Numbered,
    partner: &Numbered,
    limit: usize,
    sites: &mut List<BinarySite>,
) -> Mem<()>
    requires given { IsKept given.now.clause }
    requires partner { IsKept partner.now.clause }
    ensures { let others = (shift (width given.now.clause) partner.now.clause).literals in
        OnOk result (Extends binary_numbers (Below (IsWithClause partner.now.number given.now.clause.literals others) (length given.now.clause.literals)) limit sites.old sites.new) }
{
    let literals = given.clause.literals.as_slice();
    if !may_resolve_any(literals, partner.clause.literals.as_slice()) {
        return Ok(());
    }
    let apart = shift(alloc, &partner.clause, width(&given.clause))?;
    add_with_clause(
        alloc,
        literals,
        apart.literals.as_slice(),
        partner.number,
        limit,
        sites,
    )
}

/// `binary_sites` with partners in rising order of their numbers.
fn sites_in_order(
    alloc: Global,
    given: &Numbered,
    partners: &[&Numbered],
    limit: u32,
) -> Mem<List<BinarySite>>
    requires rising { AllPairs (λ p q. p.number < q.number) (seen partners.now) }
    requires given { IsKept given.now.clause }
    requires kept { All (λ p. IsKept p.clause) (seen partners.now) }
    ensures { IfOk result (λ sites. AreBinarySites given.now (seen partners.now) limit sites) }
{
    let mut sites = List::new(alloc);
    for partner in partners {
        if sites.len() >= limit as usize {
            return Ok(sites);
        }
        add_with_partner(alloc, given, partner, limit as usize, &mut sites)?;
    }
    Ok(sites)
}

/// The sites of binary resolution of the given clause with the usable clauses, in rising order of the partner's
/// number, of the given clause's literal and of the partner's literal (`AreBinarySites`): the first ones, at most as
/// many as the limit. The usable clauses may stand in any order, but their numbers have to differ. Where the given
/// clause is among them it is its own partner too.
pub fn binary_sites(
    alloc: Global,
    given: &Numbered,
    usable: &List<Numbered>,
    limit: u32,
) -> Mem<List<BinarySite>>
    requires differ { AllPairs (λ p q. p.number ≢ q.number) usable.now }
    requires given { IsKept given.now.clause }
    requires kept { All (λ p. IsKept p.clause) usable.now }
    ensures { IfOk result (λ sites. AreBinarySites given.now usable.now limit sites) }
{
    let ordered = by_number(alloc, usable.as_slice())?;
    sites_in_order(alloc, given, ordered.as_slice(), limit)
}
