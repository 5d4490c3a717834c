//! Tokens as they may stand in their places.

ghost use Rattle.std.specs.Prelude.{◌≡◌, ◌==◌};
ghost use Rattle.sc_input_rules.specs.Token.{sign_number};
ghost use Rattle.sc_input_rules.specs.declared.token.Sign.TheVariants.{Open};
ghost use Rattle.sc_tptp_scan.specs.Standing as spec;

use crate::standing::Standing;
use crate::words::{formula_word, name_word, other_word};
use sc_input_rules::{InputKind, Sign, Token};

/// Whether a token stands in the formula of its item.
fn is_in_formula(standing: Standing) -> bool
    ensures { result ≡ spec.is_in_formula standing }
{
    6 <= standing.count && 0 < standing.around
}

fn is_open(sign: Sign) -> bool
    ensures { result ≡ (sign_number Open == sign_number sign) }
{
    matches!(sign, Sign::Open)
}

fn word_at<'a>(standing: Standing, at: u64, text: &'a [u8]) -> Token<'a>
    ensures { result ≡ spec.word_at standing at text.now }
{
    if standing.count == 2 {
        name_word(at, text)
    } else if is_in_formula(standing) {
        formula_word(!standing.side, at, text)
    } else {
        other_word(at, text)
    }
}

/// A sign; a variable takes no arguments.
fn sign_at<'a>(standing: Standing, at: u64, sign: Sign) -> Token<'a>
    ensures { result ≡ spec.sign_at standing at sign }
{
    if is_open(sign) && is_in_formula(standing) && standing.variable {
        Token::Refused(at, InputKind::Unexpected)
    } else {
        Token::Punctuation(at, sign)
    }
}

/// The token as it may stand there: itself, `$F` for `$false`, or refused.
pub fn token_at<'a>(standing: Standing, token: Token<'a>) -> Token<'a>
    ensures { result ≡ spec.token_at standing token.entry }
{
    match token {
        Token::Word(at, text) => word_at(standing, at, text.as_slice()),
        Token::Punctuation(at, sign) => sign_at(standing, at, sign),
        Token::Refused(at, kind) => Token::Refused(at, kind),
    }
}
