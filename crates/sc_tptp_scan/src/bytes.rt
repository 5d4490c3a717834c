//! Which bytes make words, white space and signs, and what words hold.

ghost use Rattle.std.specs.Prelude.{◌≡◌, ◌==◌};
ghost use Rattle.std.specs.List.{list_all, list_any};
ghost use Rattle.sc_input_rules.specs.Tokens as spec;
ghost use Rattle.sc_tptp_rules.specs.CnfTokens.{cnf_sign_of};
ghost use Rattle.sc_tptp_rules.specs.Placing.{is_lower, is_upper, has_dollar};

use sc_input_rules::{InputKind, Sign, Token};

/// Whether the byte is a space, tab, line feed, carriage return or form feed.
pub fn is_white(byte: u8) -> bool
    ensures { result ≡ spec.is_white byte }
{
    matches!(byte, b' ' | b'\t' | b'\n' | b'\r' | 12)
}

/// Whether the byte is a letter, a digit, `_` or `$`.
pub fn is_word_byte(byte: u8) -> bool
    ensures { result ≡ spec.is_word_byte byte }
{
    matches!(byte, b'a'..=b'z' | b'A'..=b'Z' | b'0'..=b'9' | b'_' | b'$')
}

/// The token of one byte that is no part of a word: a sign, or a refused byte, which is no text where it isn't
/// printable.
pub fn single<'a>(at: u64, byte: u8) -> Token<'a>
    ensures { result ≡ spec.single cnf_sign_of at byte }
{
    match byte {
        b'(' => Token::Punctuation(at, Sign::Open),
        b')' => Token::Punctuation(at, Sign::Close),
        b',' => Token::Punctuation(at, Sign::Comma),
        b'.' => Token::Punctuation(at, Sign::Stop),
        b'|' => Token::Punctuation(at, Sign::Bar),
        b'~' => Token::Punctuation(at, Sign::Minus),
        b'=' => Token::Punctuation(at, Sign::Equal),
        b' '..=b'~' => Token::Refused(at, InputKind::Unsupported),
        _ => Token::Refused(at, InputKind::NotText),
    }
}

fn is_digit(byte: u8) -> bool
    ensures { result ≡ spec.is_digit byte }
{
    b'0' <= byte && byte <= b'9'
}

/// Whether each byte is a digit.
pub fn all_digits(text: &[u8]) -> bool
    ensures { result ≡ list_all spec.is_digit text.now }
{
    for byte in text {
        if !is_digit(*byte) {
            return false;
        }
    }
    true
}

/// Whether `$` is among the bytes.
pub fn has_dollar(text: &[u8]) -> bool
    ensures { result ≡ has_dollar text.now }
{
    text.contains(&b'$')
}

/// Whether the bytes begin with a lower case letter.
pub fn begins_lower(text: &[u8]) -> bool
    ensures { result ≡ spec.begins is_lower text.now }
{
    match text {
        [] => false,
        [first, ..] => b'a' <= *first && *first <= b'z',
    }
}

/// Whether the bytes begin with an upper case letter, as a variable does.
pub fn begins_upper(text: &[u8]) -> bool
    ensures { result ≡ spec.begins is_upper text.now }
{
    match text {
        [] => false,
        [first, ..] => b'A' <= *first && *first <= b'Z',
    }
}

/// Whether the bytes begin with a letter.
pub fn begins_letter(text: &[u8]) -> bool
    ensures { result ≡ spec.begins spec.is_letter text.now }
{
    match text {
        [] => false,
        [first, ..] => matches!(*first, b'A'..=b'Z' | b'a'..=b'z'),
    }
}
