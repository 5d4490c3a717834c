//! Reading a number of a row.

ghost use Rattle.std.specs.Prelude.{◌≡◌, ◌≤◌, ◌<◌, ◌-◌, ◌^◌, not, ◌&&◌, ◌||◌, true, nat_le, nat_lt, IfOk};
ghost use Rattle.sc_input_scan.specs.Told.{Gives};
ghost use Rattle.sc_text_run_rules.specs.RowWords as of;
ghost use Rattle.sc_text_run_section.specs.Expected.{passes, IsSmall};

use sc_input_rules::{InputKind, Token};
use sc_input_scan::{Stop, a_word, numeral_value, stop_at};

/// Which numbers may stand at a place: any, this one, this one and all above, or those from one to another.
#[derive(Clone, Copy, Debug, PartialEq, Eq)]
pub enum Expected {
    Any,
    Exactly(u64),
    AtLeast(u64),
    Between(u64, u64),
}

fn is_expected(expected: Expected, value: u64) -> bool
    ensures { result ≡ passes expected value }
{
    match expected {
        Expected::Any => true,
        Expected::Exactly(number) => value == number,
        Expected::AtLeast(least) => least <= value,
        Expected::Between(first, last) => first <= value && value <= last,
    }
}

/// Whether as many digits may write the value.
fn is_in_range(low: u32, high: u32, value: u64, digits: usize) -> bool
    ensures { result ≡ (nat_le low value && not (nat_lt 10 digits || nat_lt high value)) }
{
    u64::from(low) <= value && !(10 < digits || u64::from(high) < value)
}

/// A number of those expected. It is out of range where it isn't from `low` to `high` or has more than 10 digits.
pub fn number_in<'t, 'a>(
    expected: Expected,
    low: u32,
    high: u32,
    tokens: &'t [Token<'a>],
) -> Result<(u32, &'t [Token<'a>]), Stop>
    requires { IsSmall expected }
    ensures value { Gives (λ x. (x.0, x.1.now)) result (of.a_number_in (passes expected) low high tokens.now) }
    ensures range { IfOk result (λ x. (low ≤ x.0) × (x.0 ≤ high)) }
{
    let (_, text, rest) = a_word(tokens)?;
    match numeral_value(text) {
        Some(value) if is_expected(expected, value) => {
            if is_in_range(low, high, value, text.len()) {
                Ok((value as u32, rest))
            } else {
                Err(Stop::At(tokens.len(), InputKind::OutOfRange))
            }
        }
        _ => Err(stop_at(tokens)),
    }
}

/// Any number from `low` to `high`.
pub fn number_from<'t, 'a>(
    low: u32,
    high: u32,
    tokens: &'t [Token<'a>],
) -> Result<(u32, &'t [Token<'a>]), Stop>
    ensures value { Gives (λ x. (x.0, x.1.now)) result (of.a_number_from low high tokens.now) }
    ensures range { IfOk result (λ x. (low ≤ x.0) × (x.0 ≤ high)) }
{
    number_in(Expected::Any, low, high, tokens)
}

/// Any number.
pub fn row_number<'t, 'a>(tokens: &'t [Token<'a>]) -> Result<(u32, &'t [Token<'a>]), Stop>
    ensures { Gives (λ x. (x.0, x.1.now)) result (of.a_row_number tokens.now) }
{
    number_from(0, u32::MAX, tokens)
}

/// This number.
pub fn the_row_number<'t, 'a>(
    number: u64,
    tokens: &'t [Token<'a>],
) -> Result<(u32, &'t [Token<'a>]), Stop>
    requires { number < 2 ^ 64 - 1 }
    ensures { Gives (λ x. (x.0, x.1.now)) result (of.the_row_number number tokens.now) }
{
    number_in(Expected::Exactly(number), 0, u32::MAX, tokens)
}
