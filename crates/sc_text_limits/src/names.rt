//! Names and numbers, by the signature and by their ranges.

ghost use Rattle.std.specs.Prelude.{◌≡◌, ◌<◌, ◌==◌, ℕ, true, false, MatchOption};
ghost use Rattle.std.specs.List.{list_all};
ghost use Rattle.sc_term.specs.Symbol.{IsSignature};
ghost use Rattle.sc_input_rules.specs.Tokens.{is_digit, begins};
ghost use Rattle.sc_text_rules.specs.TextWords as word;
ghost use Rattle.sc_text_rules.specs.TextLimits as limit;
ghost use Rattle.sc_text_limits.specs.Names.{as_occurrence, IsDigits, symbol_in, begins_variable};
ghost use Rattle.sc_text_limits.specs.Limits as spec;

use sc_input_limits::{capped_value, is_numeral};
use sc_input_rules::{InputKind, Place, Token};
use sc_term::{MAX_ARITY, MAX_DIGITS, Role, Signature};

/// A name that ends before a token, and where it begins.
#[derive(Clone, Copy, Debug)]
pub struct EndedName<'a> {
    pub at: u64,
    pub text: &'a [u8],
    /// How many arguments it has; 9 for more.
    pub arity: u8,
}

fn is_longer_or_above(high: u64, digits: &[u8]) -> bool
    requires short { high < 10000000000 }
    requires digits { list_all is_digit digits.now ≡ true }
    ensures { result ≡ word.is_longer_or_above high digits.now }
{
    MAX_DIGITS < digits.len() || high < capped_value(digits)
}

/// Digits that stand in no formula, of more than 10 digits or above 4294967295.
pub fn number_told(token: &Token) -> Option<u64>
    ensures { result ≡ limit.large_number token.now }
{
    match token {
        Token::Word(at, text) => {
            let text = text.as_slice();
            if is_numeral(text) && is_longer_or_above(4_294_967_295, text) {
                Some(*at)
            } else {
                None
            }
        }
        _ => None,
    }
}

/// The digits of a word of `x` and digits, of which there are some.
fn digits_behind_x(text: &[u8]) -> Option<&[u8]>
    ensures { MatchOption result (word.is_some_digits (word.digits_behind_x text.now) ≡ false) (λ digits. IsDigits text.now digits.now) }
{
    match text {
        [b'x', digits @ ..] => {
            if is_numeral(digits) && !digits.is_empty() {
                Some(digits)
            } else {
                None
            }
        }
        _ => None,
    }
}

fn begins_as_variable(text: &[u8]) -> bool
    ensures { result ≡ begins_variable text.now }
{
    match text {
        [first, ..] => b'u' <= *first && *first <= b'z',
        [] => false,
    }
}

fn is_large_variable(name: EndedName) -> bool
    ensures { result ≡ word.is_large_variable (as_occurrence name.entry) }
{
    if name.arity != 0 {
        return false;
    }
    match digits_behind_x(name.text) {
        Some(digits) => is_longer_or_above(65_535, digits),
        None => false,
    }
}

/// What every signature keeps.
fn keeps(sig: &Signature)
    ensures { IsSignature sig.now }
{
    let _ = sig.len();
}

fn is_symbol(sig: &Signature, role: Role, name: EndedName) -> bool
    ensures { result ≡ word.is_symbol sig.now (symbol_in role (as_occurrence name.entry)) }
{
    keeps(sig);
    if MAX_ARITY < name.arity {
        return false;
    }
    sig.number_of(name.text, name.arity, role).is_some()
}

fn is_unknown_term(sig: &Signature, name: EndedName) -> bool
    ensures { result ≡ word.is_unknown_term sig.now (as_occurrence name.entry) }
{
    if name.arity == 0 && begins_as_variable(name.text) {
        digits_behind_x(name.text).is_none()
    } else {
        !is_symbol(sig, Role::Function, name)
    }
}

fn is_unknown(sig: &Signature, in_term: bool, name: EndedName) -> bool
    ensures { result ≡ limit.is_unknown sig.now in_term (as_occurrence name.entry) }
{
    if in_term {
        is_unknown_term(sig, name)
    } else {
        !is_symbol(sig, Role::Predicate, name)
    }
}

/// The limit that a name passes, in the place of a term or of an atom.
pub fn fault_of_name(sig: &Signature, in_term: bool, name: EndedName) -> Option<Place>
    ensures told { result ≡ spec.fault_of_name sig.now in_term (as_occurrence name.entry) }
    ensures keeps { IsSignature sig.now }
{
    keeps(sig);
    let at = name.at;
    if is_unknown(sig, in_term, name) {
        Some(Place {
            at,
            kind: InputKind::UnknownName,
        })
    } else if in_term && is_large_variable(name) {
        Some(Place {
            at,
            kind: InputKind::OutOfRange,
        })
    } else {
        None
    }
}
