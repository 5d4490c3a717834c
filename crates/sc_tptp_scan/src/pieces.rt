//! The first piece of bytes: a token, or what stands between tokens.

ghost use Rattle.std.specs.Prelude.{◌≡◌, ◌≤◌, ◌<◌, ◌-◌, ◌++◌, [], ◌∷◌, ◌==◌, ◌&&◌, ℕ, List as AList, length, MatchOption, true, false};
ghost use Rattle.std.specs.List.{list_all};
ghost use Rattle.sc_input_rules.specs.Tokens.{begins, is_word_byte};
ghost use Rattle.sc_input_rules.specs.declared.token.Token.{Token};
ghost use Rattle.sc_input_scan.specs.Rest.{in_front};
ghost use Rattle.sc_tptp_rules.specs.CnfTokens as spec;
ghost use Rattle.sc_tptp_scan.specs.declared.region.Region.TheVariants.{Outside, InQuotes};
ghost use Rattle.sc_tptp_scan.specs.Left.{is_gap, stopped_by, tokens_left};

use crate::bytes::{is_white, is_word_byte, single};
use crate::region::{Region, begins_with, region_behind};
use sc_input_rules::{InputKind, Lexeme, Sign, Token};

/// Where the first of the last bytes of a text of `total` bytes stands.
fn place_of(total: usize, rest: &[u8]) -> u64
    requires { length rest.now ≤ total }
    ensures { result ≡ total - length rest.now }
{
    (total - rest.len()) as u64
}

/// The first byte, and those behind it.
fn split_first(rest: &[u8]) -> (u8, &[u8])
    requires { 0 < length rest.now }
    ensures { rest.now ≡ result.0 ∷ result.1.now }
{
    let (_, others) = rest.split_at(1);
    (rest[0], others)
}

/// The longest run of bytes of words at the front, and what stands behind it.
fn split_word(rest: &[u8]) -> (&[u8], &[u8])
    ensures whole { rest.now ≡ result.0.now ++ result.1.now }
    ensures word { list_all is_word_byte result.0.now ≡ true }
    ensures longest { begins is_word_byte result.1.now ≡ false }
{
    for (i, byte) in rest.iter().enumerate() {
        if !is_word_byte(*byte) {
            return rest.split_at(i);
        }
    }
    rest.split_at(rest.len())
}

/// What stands behind the `=` of a `!=`, where the byte and those behind it begin with one.
fn behind_unequal(byte: u8, others: &[u8]) -> Option<&[u8]>
    ensures { MatchOption result ((byte == 33 && begins (λ b. b == 61) others.now) ≡ false) (λ r. (byte ≡ 33) × (others.now ≡ 61 ∷ r.now)) }
{
    match others {
        [b'=', behind @ ..] if byte == b'!' => Some(behind),
        _ => None,
    }
}

/// The token of a byte that stands among tokens, is no part of a word and begins no `!=`. None, where white space or a
/// comment begins.
fn token_outside<'a>(at: u64, byte: u8, next: &[u8]) -> Option<Token<'a>>
    requires word { is_word_byte byte ≡ false }
    requires lone { (byte == 33 && begins (λ b. b == 61) next.now) ≡ false }
    ensures { (tokens : AList Token) → spec.with_byte_outside at byte next.now tokens ≡ in_front result tokens }
{
    if is_white(byte) {
        return None;
    }
    if byte == b'%' {
        return None;
    }
    if byte == b'\'' {
        return Some(Token::Word(at, Lexeme::new(b"'".as_slice())));
    }
    if byte == b'/' && begins_with(b'*', next) {
        return None;
    }
    Some(single(at, byte))
}

/// Why a byte may not stand in a quoted name.
fn fault_in_quotes(byte: u8) -> Option<InputKind>
    ensures { (at : ℕ) → (tokens : AList Token) → spec.with_quoted_byte at byte tokens ≡ stopped_by at result tokens }
{
    if byte == b'\\' {
        Some(InputKind::Unsupported)
    } else if b' ' <= byte && byte <= b'~' {
        None
    } else {
        Some(InputKind::NotText)
    }
}

/// The first piece of bytes that stand among tokens.
fn piece_outside<'a>(total: usize, rest: &'a [u8]) -> (Option<Token<'a>>, Region, &'a [u8])
    requires within { length rest.now ≤ total }
    requires some { 0 < length rest.now }
    ensures value { tokens_left Outside total rest.now ≡ in_front result.0 (tokens_left result.1 total result.2.now) }
    ensures shorter { length result.2.now < length rest.now }
{
    let at = place_of(total, rest);
    let (byte, others) = split_first(rest);
    if is_word_byte(byte) {
        let (word, behind) = split_word(rest);
        let token = Token::Word(at, Lexeme::new(word));
        return (Some(token), Region::Outside, behind);
    }
    match behind_unequal(byte, others) {
        Some(behind) => {
            let token = Token::Punctuation(at, Sign::Unequal);
            (Some(token), Region::Outside, behind)
        }
        None => {
            let token = token_outside(at, byte, others);
            let region = region_behind(Region::Outside, byte, others);
            (token, region, others)
        }
    }
}

/// The first byte of bytes that stand in a quoted name. One that may not stand there is refused, and nothing is read
/// behind it.
fn piece_in_quotes<'a>(total: usize, rest: &'a [u8]) -> (Option<Token<'a>>, Region, &'a [u8])
    requires within { length rest.now ≤ total }
    requires some { 0 < length rest.now }
    ensures value { tokens_left InQuotes total rest.now ≡ in_front result.0 (tokens_left result.1 total result.2.now) }
    ensures shorter { length result.2.now < length rest.now }
{
    let at = place_of(total, rest);
    let (byte, others) = split_first(rest);
    match fault_in_quotes(byte) {
        Some(kind) => {
            let token = Token::Refused(at, kind);
            (Some(token), Region::Outside, b"".as_slice())
        }
        None => {
            let region = region_behind(Region::InQuotes, byte, others);
            (None, region, others)
        }
    }
}

/// The first byte of bytes that stand in a comment.
fn piece_in_gap<'a>(
    total: usize,
    region: Region,
    rest: &'a [u8],
) -> (Option<Token<'a>>, Region, &'a [u8])
    requires gap { is_gap region ≡ true }
    requires within { length rest.now ≤ total }
    requires some { 0 < length rest.now }
    ensures value { tokens_left region total rest.now ≡ in_front result.0 (tokens_left result.1 total result.2.now) }
    ensures shorter { length result.2.now < length rest.now }
{
    let (byte, others) = split_first(rest);
    let next = region_behind(region, byte, others);
    (None, next, others)
}

/// The first piece of the last bytes of a text of `total` bytes, which stand in that region: its token, if it is one; the
/// region of the bytes behind it; and those bytes.
pub fn next_piece<'a>(
    total: usize,
    region: Region,
    rest: &'a [u8],
) -> (Option<Token<'a>>, Region, &'a [u8])
    requires within { length rest.now ≤ total }
    requires some { 0 < length rest.now }
    ensures value { tokens_left region total rest.now ≡ in_front result.0 (tokens_left result.1 total result.2.now) }
    ensures shorter { length result.2.now < length rest.now }
{
    match region {
        Region::Outside => piece_outside(total, rest),
        Region::InQuotes => piece_in_quotes(total, rest),
        Region::InLine => piece_in_gap(total, Region::InLine, rest),
        Region::AtOpening => piece_in_gap(total, Region::AtOpening, rest),
        Region::InComment => piece_in_gap(total, Region::InComment, rest),
        Region::AtClosing => piece_in_gap(total, Region::AtClosing, rest),
    }
}
