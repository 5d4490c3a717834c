//! Looks at the next token, and readers of one. Each is equal to the production of its name.

ghost use Rattle.std.specs.Prelude.{◌≡◌, ◌+◌, ◌∷◌, List, length, codes};
ghost use Rattle.sc_input_rules.specs.declared.token.Token.{Token};
ghost use Rattle.sc_input_rules.specs.Token as of;
ghost use Rattle.sc_input_rules.specs.Reader as spec;
ghost use Rattle.sc_input_scan.specs.Told.{Gives};
ghost use Rattle.sc_input_scan.specs.declared.stop.Stop.TheVariants.{At};

use crate::stop::Stop;
use sc_input_rules::{InputKind, Lexeme, Sign, Token};

fn sign_number(sign: Sign) -> u8
    ensures { result ≡ of.sign_number sign }
{
    match sign {
        Sign::Open => 0,
        Sign::Close => 1,
        Sign::Comma => 2,
        Sign::Stop => 3,
        Sign::Bar => 4,
        Sign::Minus => 5,
        Sign::Equal => 6,
        Sign::Unequal => 7,
        Sign::Colon => 8,
    }
}

/// Whether the token is this sign.
pub fn is_sign(sign: Sign, token: &Token) -> bool
    ensures { result ≡ of.is_sign sign token.now }
{
    match token {
        Token::Punctuation(_, s) => sign_number(sign) == sign_number(*s),
        _ => false,
    }
}

/// Whether the token is this word.
pub fn is_word(name: &[u8], token: &Token) -> bool
    ensures { result ≡ of.is_word name.now token.now }
{
    match token {
        Token::Word(_, text) => name == text.as_slice(),
        _ => false,
    }
}

/// The fault of a token that isn't allowed: its own kind, or unexpected.
fn kind_at(token: &Token) -> InputKind
    ensures { (rest : List Token) → result ≡ spec.kind_of (token.now ∷ rest) }
{
    match token {
        Token::Refused(_, kind) => *kind,
        _ => InputKind::Unexpected,
    }
}

/// The fault where the next token isn't allowed: its own kind, or unexpected, or truncated at the end.
pub fn stop_at(tokens: &[Token]) -> Stop
    ensures { result ≡ At (length tokens.now) (spec.kind_of tokens.now) }
{
    let kind = match tokens {
        [] => InputKind::Truncated,
        [token, ..] => kind_at(token),
    };
    Stop::At(tokens.len(), kind)
}

/// Whether the next token is this sign.
pub fn next_is_sign(sign: Sign, tokens: &[Token]) -> bool
    ensures { result ≡ spec.next_is (of.is_sign sign) tokens.now }
{
    match tokens {
        [] => false,
        [t, ..] => is_sign(sign, t),
    }
}

/// Whether the next token is this word.
pub fn next_is_word(name: &[u8], tokens: &[Token]) -> bool
    ensures { result ≡ spec.next_is (of.is_word name.now) tokens.now }
{
    match tokens {
        [] => false,
        [t, ..] => is_word(name, t),
    }
}

/// What stands behind this sign.
pub fn the_sign<'t, 'a>(sign: Sign, tokens: &'t [Token<'a>]) -> Result<&'t [Token<'a>], Stop>
    ensures { Gives (λ x. (tt, x.now)) result (spec.the_sign sign tokens.now) }
{
    match tokens {
        [] => Err(stop_at(tokens)),
        [t, rest @ ..] => {
            if is_sign(sign, t) {
                Ok(rest)
            } else {
                Err(stop_at(tokens))
            }
        }
    }
}

/// A word, where it begins, and what stands behind it.
pub fn a_word<'t, 'a>(tokens: &'t [Token<'a>]) -> Result<(u64, &'a [u8], &'t [Token<'a>]), Stop>
    ensures { Gives (λ x. (record { at = x.0; text = x.1.now }, x.2.now)) result (spec.a_word tokens.now) }
{
    match tokens {
        [] => Err(stop_at(tokens)),
        [token, rest @ ..] => match token {
            Token::Word(at, text) => Ok((*at, text.as_slice(), rest)),
            _ => Err(stop_at(tokens)),
        },
    }
}

/// What stands behind this word.
pub fn the_word<'t, 'a>(name: &[u8], tokens: &'t [Token<'a>]) -> Result<&'t [Token<'a>], Stop>
    ensures { Gives (λ x. (tt, x.now)) result (spec.the_word name.now tokens.now) }
{
    match tokens {
        [] => Err(stop_at(tokens)),
        [token, rest @ ..] => {
            if is_word(name, token) {
                Ok(rest)
            } else {
                Err(stop_at(tokens))
            }
        }
    }
}

/// Whether the word is `$F`.
pub fn is_falsum(text: &[u8]) -> bool
    ensures { result ≡ of.same_text (codes "$F") text.now }
{
    b"$F".as_slice() == text
}

/// Any word but `$F`, where it begins, and what stands behind it.
pub fn a_name<'t, 'a>(tokens: &'t [Token<'a>]) -> Result<(u64, Lexeme<'a>, &'t [Token<'a>]), Stop>
    ensures { Gives (λ x. (record { at = x.0; text = x.1 }, x.2.now)) result (spec.a_name tokens.now) }
{
    match tokens {
        [] => Err(stop_at(tokens)),
        [token, rest @ ..] => match token {
            Token::Word(at, text) => {
                if is_falsum(text.as_slice()) {
                    Err(stop_at(tokens))
                } else {
                    Ok((*at, Lexeme::new(text.as_slice()), rest))
                }
            }
            _ => Err(stop_at(tokens)),
        },
    }
}
