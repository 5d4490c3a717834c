//! Numbers outside the range of their parameter.

ghost use Rattle.std.specs.Prelude.{◌≡◌, ◌≤◌, ◌+◌, ◌*◌, min, length, true, List, [], ◌∷◌, ◌++◌, ◌&&◌, int_le, IfSome, option_map, Some};
ghost use Rattle.std.specs.List.{list_all};
ghost use Rattle.std.specs.Str.Parse.{digits_value};
ghost use Rattle.std.specs.Char.{digit_value};
ghost use Rattle.sc_input_rules.specs.declared.token.Token.{Token};
ghost use Rattle.sc_input_rules.specs.Tokens.{is_digit};
ghost use Rattle.sc_input_rules.specs.ProblemLimits as spec;
ghost use Rattle.sc_input_limits.specs.Numbers.{as_range, capped_numeral, capped_number, number_of_value, IsShort, told_at};

use crate::count::first_at;
use sc_input_rules::{Sign, Token};
use sc_input_scan::{is_sign, is_word};
use sc_term::MAX_DIGITS;

/// Above every number of a range.
const CAP: u64 = 10_000_000_000;

/// Within how many tokens the number of an item stands, as in `assign`, `(`, a name, `,`, `-`, digits.
const NUMBER_WITHIN: usize = 6;

/// Whether the text is of digits alone.
pub fn is_numeral(text: &[u8]) -> bool
    ensures { result ≡ list_all is_digit text.now }
{
    text.iter().all(|b| b'0' <= *b && *b <= b'9')
}

/// The number with one digit more, up to the cap.
fn with_digit(value: u64, digit: u8) -> u64
    requires capped { value ≤ CAP }
    requires digit { is_digit digit ≡ true }
    ensures { result ≡ min (value * 10 + digit_value digit) CAP }
{
    (value * 10 + (digit - b'0') as u64).min(CAP)
}

/// What the digits write, up to 10,000,000,000.
pub fn capped_value(digits: &[u8]) -> u64
    requires { list_all is_digit digits.now ≡ true }
    ensures { result ≡ min (digits_value 10 digits.now) CAP }
{
    let mut value = 0;
    for digit in digits {
        value = with_digit(value, *digit);
    }
    value
}

/// The number that the tokens begin with, up to the cap.
fn numeral(tokens: &[Token]) -> Option<u64>
    ensures value { result ≡ capped_numeral tokens.now }
    ensures capped { IfSome result (λ n. n ≤ CAP) }
{
    match tokens {
        [] => None,
        [token, ..] => match token {
            Token::Word(_, text) => {
                if is_numeral(text.as_slice()) {
                    Some(capped_value(text.as_slice()))
                } else {
                    None
                }
            }
            _ => None,
        },
    }
}

/// The number that the tokens begin with, or `-` and a number, up to the cap.
pub fn number(tokens: &[Token]) -> Option<i64>
    ensures { result ≡ capped_number tokens.now }
{
    match tokens {
        [] => None,
        [token, rest @ ..] => {
            if is_sign(Sign::Minus, token) {
                match numeral(rest) {
                    Some(n) => Some(-(n as i64)),
                    None => None,
                }
            } else {
                match numeral(tokens) {
                    Some(n) => Some(n as i64),
                    None => None,
                }
            }
        }
    }
}

fn digits_of(token: &Token) -> usize
    ensures { result ≡ length (spec.last_digits (token.now ∷ [])) }
{
    match token {
        Token::Word(_, text) => text.as_slice().len(),
        _ => 0,
    }
}

/// How many digits stand at the end.
fn last_digits(tokens: &[Token]) -> usize
    ensures { result ≡ length (spec.last_digits tokens.now) }
{
    match tokens {
        [.., last] => digits_of(last),
        [] => 0,
    }
}

/// The numbers that a parameter may have.
#[derive(Clone, Copy, Debug)]
pub struct Range {
    pub low: i64,
    pub high: i64,
}

impl Range {
    fn holds(&self, n: i64) -> bool
        ensures { result ≡ (int_le self.now.low n && int_le n self.now.high) }
    {
        self.low <= n && n <= self.high
    }

    /// Whether a value so far is a number of more than 10 digits, or outside the range. It begins with `number`.
    fn is_outside(&self, number: Option<i64>, value: &[Token]) -> bool
        requires { IsShort (as_range self.now) }
        ensures { number ≡ capped_number value.now → result ≡ spec.is_outside (as_range self.now) value.now }
    {
        match number {
            Some(n) => MAX_DIGITS < last_digits(value) || !self.holds(n),
            None => false,
        }
    }
}

fn from_to(low: i64, high: i64) -> Option<Range>
    ensures { result ≡ Some (record { low = low; high = high }) }
{
    Some(Range { low, high })
}

/// The range of the parameter that the token names.
fn range_of(name: &Token) -> Option<Range>
    ensures range { option_map as_range result ≡ spec.range_of name.now }
    ensures short { IfSome result (λ r. IsShort (as_range r)) }
{
    if is_word(b"pick_given_ratio", name) {
        from_to(0, 1000)
    } else if is_word(b"max_weight", name) {
        from_to(1, 1000)
    } else if is_word(b"max_literals", name) {
        from_to(1, 1000)
    } else if is_word(b"max_given", name) {
        from_to(1, 1_000_000)
    } else if is_word(b"max_kept", name) {
        from_to(1, 100_000)
    } else if is_word(b"demod_limit", name) {
        from_to(0, 1000)
    } else if is_word(b"max_proofs", name) {
        from_to(1, 1)
    } else if is_word(b"max_seconds", name)
        || is_word(b"max_mem", name)
        || is_word(b"stats_level", name)
    {
        from_to(-1, 2_147_483_647)
    } else {
        None
    }
}

/// Where the value begins that is outside the range of the parameter, where the item is an assignment.
fn value_told(item: &Token, name: &Token, number: Option<i64>, value: &[Token]) -> Option<u64>
    ensures { number ≡ capped_number value.now → result ≡ told_at item.now name.now value.now }
{
    if !is_word(b"assign", item) {
        return None;
    }
    match range_of(name) {
        Some(range) => {
            if range.is_outside(number, value) {
                first_at(value)
            } else {
                None
            }
        }
        None => None,
    }
}

/// The number that the value of an item so far begins with. `before` is that of the item without its last token; it
/// stays once the value has two tokens, so that a long word is looked at twice at most.
pub fn number_so_far(before: Option<i64>, sentence: &[Token]) -> Option<i64>
    ensures { (front : List Token) (last : Token) → sentence.now ≡ front ++ last ∷ [] → before ≡ number_of_value front → result ≡ number_of_value sentence.now }
{
    if NUMBER_WITHIN < sentence.len() {
        return before;
    }
    match sentence {
        [_, _, _, _, value @ ..] => number(value),
        _ => None,
    }
}

/// Where the number begins that is outside the range of its parameter, in the sentence of an item so far. `number` is
/// what its value begins with.
pub fn out_of_range(number: Option<i64>, sentence: &[Token]) -> Option<u64>
    ensures { number ≡ number_of_value sentence.now → result ≡ spec.out_of_range sentence.now }
{
    match sentence {
        [item, _, name, _, value @ ..] => value_told(item, name, number, value),
        _ => None,
    }
}
