//! Whether two are the same.

ghost use Rattle.std.specs.Prelude.{◌≡◌, ◌↔◌, IsTrue};

use crate::plain::Claim;
use crate::table::Table;
use sc_term::same;

fn same_table(a: &Table, b: &Table) -> bool
    ensures { IsTrue result ↔ (a.now ≡ b.now) }
{
    a.role == b.role && a.arity == b.arity && a.entries.as_slice() == b.entries.as_slice()
}

pub fn same_tables(a: &[Table], b: &[Table]) -> bool
    ensures { IsTrue result ↔ (a.now ≡ b.now) }
{
    if a.len() != b.len() {
        return false;
    }
    for i in 0..a.len() {
        if !same_table(&a[i], &b[i]) {
            return false;
        }
    }
    true
}

fn same_claim(a: &Claim, b: &Claim) -> bool
    ensures { IsTrue result ↔ (a.now ≡ b.now) }
{
    a.number == b.number && same(&a.clause, &b.clause)
}

pub fn same_claims(a: &[Claim], b: &[Claim]) -> bool
    ensures { IsTrue result ↔ (a.now ≡ b.now) }
{
    if a.len() != b.len() {
        return false;
    }
    for i in 0..a.len() {
        if !same_claim(&a[i], &b[i]) {
            return false;
        }
    }
    true
}
