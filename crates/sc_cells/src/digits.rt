//! Numbers as digits.

ghost use Rattle.std.specs.Prelude.{◌≡◌, ◌≤◌, nat_eq, reverse, IfOk};
ghost use Rattle.sc_term.specs.Term.{largest};
ghost use Rattle.sc_cells.specs.Listing.{digits};

use sc_term::{List, Mem};
use std::alloc::Global;

/// The greatest of so many digits of a number, 0 of none.
fn greatest_digit(base: u8, len: u8, number: u32) -> u8
    requires { 1 ≤ base }
    ensures { result ≡ largest (digits base len number) }
{
    let mut greatest: u8 = 0;
    let mut rest = number;
    for _digit in 0..len {
        greatest = greatest.max((rest % u32::from(base)) as u8);
        rest /= u32::from(base);
    }
    greatest
}

/// Whether the greatest of so many digits of a number is that.
pub fn has_greatest(base: u8, len: u8, number: u32, greatest: u8) -> bool
    requires { 1 ≤ base }
    ensures { result ≡ nat_eq (largest (digits base len number)) greatest }
{
    greatest_digit(base, len, number) == greatest
}

/// So many digits of a number, the least one first.
fn digits_backwards(alloc: Global, base: u8, len: u64, number: u32) -> Mem<Vec<u8>>
    requires { 1 ≤ base }
    ensures { IfOk result (λ r. reverse r.items ≡ digits base len number) }
{
    let mut found = Vec::new(alloc);
    let mut rest = number;
    for _digit in 0..len {
        found.push((rest % u32::from(base)) as u8)?;
        rest /= u32::from(base);
    }
    Ok(found)
}

/// So many digits of a number, the least one last.
pub fn digits_of(alloc: Global, base: u8, len: u64, number: u32) -> Mem<List<u8>>
    requires { 1 ≤ base }
    ensures { IfOk result (λ r. r ≡ digits base len number) }
{
    let mut found = digits_backwards(alloc, base, len, number)?;
    found.reverse();
    Ok(List::from_vec(found))
}
