//! Reading a number.

ghost use Rattle.std.specs.Prelude.{◌≡◌};
ghost use Rattle.sc_input_rules.specs.ProblemGrammar as of;
ghost use Rattle.sc_input_scan.specs.Told.{Gives};
ghost use Rattle.sc_input_grammar.specs.Items.{clipped_numeral, clipped_read};

use sc_input_rules::{Sign, Token};
use sc_input_scan::{Stop, a_word, is_sign, numeral_value, stop_at};

// Greater than each number of at most ten digits, and so than each number in the range of a parameter.
const BEYOND: u64 = 10_000_000_000;

/// The number that digits write, at most `BEYOND`; none where another byte is among them.
#[tactic(auto, using(crate::proofs::Numbers::clips))]
fn clipped_numeral(text: &[u8]) -> Option<u64>
    ensures { result ≡ clipped_numeral text.now }
{
    match numeral_value(text) {
        Some(value) => Some(value.min(BEYOND)),
        None => None,
    }
}

fn a_numeral<'t, 'a>(tokens: &'t [Token<'a>]) -> Result<(i64, &'t [Token<'a>]), Stop>
    ensures { Gives (λ x. (x.0, x.1.now)) result (clipped_read (of.a_numeral tokens.now)) }
{
    let (_, text, rest) = a_word(tokens)?;
    match clipped_numeral(text) {
        Some(value) => Ok((value as i64, rest)),
        None => Err(stop_at(tokens)),
    }
}

/// Digits, or `-` and digits. A value from `BEYOND` on, of either sign, is answered as `BEYOND` with that sign.
pub fn read_number<'t, 'a>(tokens: &'t [Token<'a>]) -> Result<(i64, &'t [Token<'a>]), Stop>
    ensures { Gives (λ x. (x.0, x.1.now)) result (clipped_read (of.number tokens.now)) }
{
    match tokens {
        [] => a_numeral(tokens),
        [token, rest @ ..] => {
            if is_sign(Sign::Minus, token) {
                let (value, rest) = a_numeral(rest)?;
                Ok((-value, rest))
            } else {
                a_numeral(tokens)
            }
        }
    }
}
