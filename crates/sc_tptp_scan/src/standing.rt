//! Where a token stands in its item.

ghost use Rattle.std.specs.Prelude.{◌≡◌, ◌<◌};
ghost use Rattle.sc_tptp_scan.specs.Standing as spec;

use crate::bytes::begins_upper;
use sc_input_rules::{Sign, Token};

/// What is known of the tokens of an item before one.
#[derive(Clone, Copy, Debug)]
pub struct Standing {
    /// How many there are.
    pub count: usize,
    /// How many parentheses are open behind them.
    pub around: usize,
    /// Whether the last is a word or `)`.
    pub side: bool,
    /// Whether the last is a word that begins with an upper case letter.
    pub variable: bool,
}

/// At the first token of an item.
pub fn start() -> Standing
    ensures { result ≡ spec.start }
{
    Standing {
        count: 0,
        around: 0,
        side: false,
        variable: false,
    }
}

/// Behind a token that opens and closes nothing.
fn behind_plain(standing: Standing, side: bool, variable: bool) -> Standing
    requires { standing.count < usize.MAX }
    ensures { result ≡ spec.behind_plain standing side variable }
{
    Standing {
        count: standing.count + 1,
        around: standing.around,
        side,
        variable,
    }
}

/// Behind a sign. Each full stop ends an item.
fn behind_sign(standing: Standing, sign: Sign) -> Standing
    requires count { standing.count < usize.MAX }
    requires around { standing.around < usize.MAX }
    ensures { result ≡ spec.behind_sign standing sign }
{
    match sign {
        Sign::Open => Standing {
            count: standing.count + 1,
            around: standing.around + 1,
            side: false,
            variable: false,
        },
        Sign::Close => Standing {
            count: standing.count + 1,
            around: standing.around.saturating_sub(1),
            side: true,
            variable: false,
        },
        Sign::Stop => start(),
        Sign::Comma | Sign::Bar | Sign::Minus | Sign::Equal | Sign::Unequal | Sign::Colon => {
            behind_plain(standing, false, false)
        }
    }
}

/// Behind a token.
pub fn standing_behind(standing: Standing, token: &Token) -> Standing
    requires count { standing.count < usize.MAX }
    requires around { standing.around < usize.MAX }
    ensures { result ≡ spec.standing_behind standing token.now }
{
    match token {
        Token::Word(_, text) => behind_plain(standing, true, begins_upper(text.as_slice())),
        Token::Punctuation(_, sign) => behind_sign(standing, *sign),
        Token::Refused(_, _) => behind_plain(standing, false, false),
    }
}
