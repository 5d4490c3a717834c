//! Reading a number.

ghost use Rattle.std.specs.Prelude.{◌≡◌, ◌≤◌, ◌<◌, ◌-◌, ◌^◌, min, Some, None, true, false, MatchOption};
ghost use Rattle.sc_input_scan.specs.Told.{Gives};
ghost use Rattle.sc_text_rules.specs.TextWords as of;
ghost use Rattle.sc_text_section.specs.Clipped.{clipped, seen_by};

use sc_input_rules::Token;
use sc_input_scan::{Stop, a_word, numeral_value, stop_at};

/// The number itself, or the greatest u32.
pub fn clipped(value: u64) -> u32
    ensures { result ≡ clipped value }
{
    value.min(u64::from(u32::MAX)) as u32
}

/// A number that is greater than the greatest u32 is answered as that.
pub fn read_number<'t, 'a>(tokens: &'t [Token<'a>]) -> Result<(u32, &'t [Token<'a>]), Stop>
    ensures { Gives (λ x. (x.0, x.1.now)) result (seen_by clipped (of.a_number tokens.now)) }
{
    let (_, text, rest) = a_word(tokens)?;
    match numeral_value(text) {
        Some(value) => Ok((clipped(value), rest)),
        None => Err(stop_at(tokens)),
    }
}

/// What stands behind this number, which may be written with leading zeros.
pub fn the_number<'t, 'a>(number: u64, tokens: &'t [Token<'a>]) -> Result<&'t [Token<'a>], Stop>
    requires { number < 2 ^ 64 - 1 }
    ensures { Gives (λ x. (number, x.now)) result (of.the_number number tokens.now) }
{
    let (_, text, rest) = a_word(tokens)?;
    match numeral_value(text) {
        Some(value) if value == number => Ok(rest),
        _ => Err(stop_at(tokens)),
    }
}
