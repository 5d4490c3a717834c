//! The first token of bytes, or the gap before it.

ghost use Rattle.std.specs.Prelude.{◌≡◌, ◌≤◌, ◌<◌, ◌++◌, ◌∷◌, ◌==◌, ◌&&◌, length, IfOk, MatchOption, true, false};
ghost use Rattle.std.specs.List.{list_all, list_any};
ghost use Rattle.sc_input_rules.specs.Tokens as spec;
ghost use Rattle.sc_input_rules.specs.declared.token.Token.TheVariants as of;
ghost use Rattle.sc_input_scan.specs.Rest.{tokens_of_rest, tokens_of_comment, in_front};

use crate::bytes::{is_white, is_word_byte, single};
use crate::next::is_falsum;
use sc_input_rules::{InputKind, Lexeme, Sign, Token};

/// What stands behind the comment that the bytes are in: its line feed, or nothing.
#[tactic(auto, using(crate::proofs::Scanning::comments))]
fn behind_comment(total: usize, rest: &[u8]) -> &[u8]
    requires { length rest.now ≤ total }
    ensures value { tokens_of_comment total rest.now ≡ tokens_of_rest total result.now }
    ensures shorter { length result.now ≤ length rest.now }
{
    for (i, byte) in rest.iter().enumerate() {
        if *byte == b'\n' {
            let (_, behind) = rest.split_at(i);
            return behind;
        }
    }
    let (_, behind) = rest.split_at(rest.len());
    behind
}

/// The longest run of bytes of words at the front, and what stands behind it.
fn split_word(rest: &[u8]) -> (&[u8], &[u8])
    ensures whole { rest.now ≡ result.0.now ++ result.1.now }
    ensures word { list_all spec.is_word_byte result.0.now ≡ true }
    ensures longest { spec.begins spec.is_word_byte result.1.now ≡ false }
{
    for (i, byte) in rest.iter().enumerate() {
        if !is_word_byte(*byte) {
            return rest.split_at(i);
        }
    }
    rest.split_at(rest.len())
}

fn has_dollar(word: &[u8]) -> bool
    ensures { result ≡ list_any (λ b. b == 36) word.now }
{
    word.contains(&b'$')
}

/// The token of a word. One that holds `$` is refused, but for `$F`.
fn word_token<'a>(at: u64, word: &'a [u8]) -> Token<'a>
    ensures { result ≡ spec.with_dollars_refused (of.Word at word.now) }
{
    if has_dollar(word) && !is_falsum(word) {
        Token::Refused(at, InputKind::Unsupported)
    } else {
        Token::Word(at, Lexeme::new(word))
    }
}

/// The first byte, and those behind it.
fn split_first(rest: &[u8]) -> (u8, &[u8])
    requires { 0 < length rest.now }
    ensures { rest.now ≡ result.0 ∷ result.1.now }
{
    let (_, others) = rest.split_at(1);
    (rest[0], others)
}

/// What stands behind the `=` of a `!=`, where the byte and those behind it begin with one.
fn behind_unequal(byte: u8, others: &[u8]) -> Option<&[u8]>
    ensures { MatchOption result ((byte == 33 && spec.begins (λ b. b == 61) others.now) ≡ false) (λ r. (byte ≡ 33) × (others.now ≡ 61 ∷ r.now)) }
{
    match others {
        [b'=', behind @ ..] if byte == b'!' => Some(behind),
        _ => None,
    }
}

/// The first token of the last bytes of a text of `total` bytes, or none where they begin with white space or a
/// comment, and the bytes behind it.
#[tactic(auto, using(crate::proofs::Scanning::pieces))]
pub fn next_token<'a>(total: usize, rest: &'a [u8]) -> (Option<Token<'a>>, &'a [u8])
    requires within { length rest.now ≤ total }
    requires some { 0 < length rest.now }
    ensures value { tokens_of_rest total rest.now ≡ in_front result.0 (tokens_of_rest total result.1.now) }
    ensures shorter { length result.1.now < length rest.now }
{
    let at = (total - rest.len()) as u64;
    let (byte, others) = split_first(rest);
    if is_word_byte(byte) {
        let (word, behind) = split_word(rest);
        return (Some(word_token(at, word)), behind);
    }
    if is_white(byte) {
        return (None, others);
    }
    if byte == b'%' {
        return (None, behind_comment(total, others));
    }
    match behind_unequal(byte, others) {
        Some(behind) => (Some(Token::Punctuation(at, Sign::Unequal)), behind),
        None => (Some(single(at, byte)), others),
    }
}
