//! Which words may stand where.

ghost use Rattle.std.specs.Prelude.{◌≡◌, ◌||◌, codes};
ghost use Rattle.std.specs.List.{list_all};
ghost use Rattle.sc_input_rules.specs.Token.{same_text};
ghost use Rattle.sc_input_rules.specs.Tokens.{begins, is_digit};
ghost use Rattle.sc_tptp_rules.specs.Placing as spec;

use crate::bytes::{all_digits, begins_letter, begins_lower, has_dollar};
use sc_input_rules::{InputKind, Lexeme, Token};

/// Whether the word stands for a quoted name.
fn is_quoted(text: &[u8]) -> bool
    ensures { result ≡ spec.is_quoted text.now }
{
    text == b"'".as_slice()
}

fn is_false(text: &[u8]) -> bool
    ensures { result ≡ same_text text.now (codes "$false") }
{
    text == b"$false".as_slice()
}

fn is_end_of_list(text: &[u8]) -> bool
    ensures { result ≡ same_text text.now (codes "end_of_list") }
{
    text == b"end_of_list".as_slice()
}

fn is_name(text: &[u8]) -> bool
    ensures { result ≡ (spec.is_quoted text.now || list_all is_digit text.now || begins spec.is_lower text.now) }
{
    is_quoted(text) || all_digits(text) || begins_lower(text)
}

/// A word in the place of a name.
pub fn name_word<'a>(at: u64, text: &'a [u8]) -> Token<'a>
    ensures { result ≡ spec.name_word at text.now }
{
    if has_dollar(text) {
        Token::Refused(at, InputKind::Unsupported)
    } else if is_name(text) {
        Token::Word(at, Lexeme::new(text))
    } else {
        Token::Refused(at, InputKind::Unexpected)
    }
}

/// Whether no formula may hold the word.
fn is_unsupported(text: &[u8]) -> bool
    ensures { result ≡ (spec.is_quoted text.now || spec.has_dollar text.now || list_all is_digit text.now) }
{
    is_quoted(text) || has_dollar(text) || all_digits(text)
}

/// A word in a formula; `symbol` tells whether a symbol may stand there.
pub fn formula_word<'a>(symbol: bool, at: u64, text: &'a [u8]) -> Token<'a>
    ensures { result ≡ spec.formula_word symbol at text.now }
{
    if is_false(text) {
        Token::Word(at, Lexeme::new(b"$F".as_slice()))
    } else if is_unsupported(text) {
        Token::Refused(at, InputKind::Unsupported)
    } else if !begins_letter(text) {
        Token::Refused(at, InputKind::Unexpected)
    } else if symbol && is_end_of_list(text) {
        Token::Refused(at, InputKind::Unsupported)
    } else {
        Token::Word(at, Lexeme::new(text))
    }
}

/// A word in any other place.
pub fn other_word<'a>(at: u64, text: &'a [u8]) -> Token<'a>
    ensures { result ≡ spec.other_word at text.now }
{
    if is_quoted(text) {
        Token::Refused(at, InputKind::Unsupported)
    } else {
        Token::Word(at, Lexeme::new(text))
    }
}
