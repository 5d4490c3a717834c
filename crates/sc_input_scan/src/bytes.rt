//! Which bytes make words, white space and signs.

ghost use Rattle.std.specs.Prelude.{◌≡◌};
ghost use Rattle.sc_input_rules.specs.Tokens as spec;
ghost use Rattle.sc_input_rules.specs.Tokens.{sign_of};

use sc_input_rules::{InputKind, Sign, Token};

/// Whether the byte is a space, tab, line feed, carriage return or form feed.
pub fn is_white(byte: u8) -> bool
    ensures { result ≡ spec.is_white byte }
{
    matches!(byte, b' ' | b'\t' | b'\n' | b'\r' | 12)
}

/// Whether the byte is a letter, a digit, `_` or `$`.
pub fn is_word_byte(byte: u8) -> bool
    ensures { result ≡ spec.is_word_byte byte }
{
    matches!(byte, b'a'..=b'z' | b'A'..=b'Z' | b'0'..=b'9' | b'_' | b'$')
}

/// The token of one byte that is no part of a word: a sign, or a refused byte, which is no text where it isn't
/// printable.
pub fn single<'a>(at: u64, byte: u8) -> Token<'a>
    ensures { result ≡ spec.single sign_of at byte }
{
    match byte {
        b'(' => Token::Punctuation(at, Sign::Open),
        b')' => Token::Punctuation(at, Sign::Close),
        b',' => Token::Punctuation(at, Sign::Comma),
        b'.' => Token::Punctuation(at, Sign::Stop),
        b'|' => Token::Punctuation(at, Sign::Bar),
        b'-' => Token::Punctuation(at, Sign::Minus),
        b'=' => Token::Punctuation(at, Sign::Equal),
        b':' => Token::Punctuation(at, Sign::Colon),
        b' '..=b'~' => Token::Refused(at, InputKind::Unsupported),
        _ => Token::Refused(at, InputKind::NotText),
    }
}
