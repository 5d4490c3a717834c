//! Whether tables make claims true.

ghost use Rattle.std.specs.Prelude.{◌≡◌, ◌≤◌, ◌<◌, ◌^◌, All, length, IfNone, IfSome};
ghost use Rattle.sc_term.specs.Clause.{width};
ghost use Rattle.sc_interp.specs.Versions.{AreTrue, IsFirstFalse};
ghost use Rattle.sc_interp.specs.declared.plain.Claim.{Claim as AClaim};

use crate::plain::Claim;
use crate::satisfied::is_satisfied;
use crate::table::Table;
use sc_term::full_width;

/// As many places as the widest claim has variables.
pub fn widest(claims: &[Claim]) -> usize
    ensures { All (λ (claim : AClaim). width claim.clause ≤ result) claims.now }
{
    let mut widest: usize = 0;
    for claim in claims {
        widest = widest.max(full_width(&claim.clause) as usize);
    }
    widest
}

/// The number, from 1 in the list, of the first claim that isn't true.
pub fn first_false(size: u8, tables: &[Table], claims: &[Claim], values: &mut [u8]) -> Option<u32>
    requires size { 1 ≤ size }
    requires few { length claims.now < 2 ^ 32 }
    requires wide { All (λ (claim : AClaim). width claim.clause ≤ length values.old) claims.now }
    ensures none { IfNone result (AreTrue (record { size = size; tables = tables.now }) claims.now) }
    ensures first { IfSome result (IsFirstFalse (record { size = size; tables = tables.now }) claims.now) }
{
    for at in 0..claims.len() {
        if !is_satisfied(size, tables, &claims[at].clause, values) {
            return Some(at as u32 + 1);
        }
    }
    None
}
