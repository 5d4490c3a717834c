//! Where in its sentence a token stands.

ghost use Rattle.std.specs.Prelude.{◌≡◌, [], ◌∷◌};
ghost use Rattle.sc_text_rules.specs.TextPosition.{is_table_row};
ghost use Rattle.sc_text_limits.specs.Parts as spec;

use sc_input_rules::{Sign, Token};
use sc_input_scan::{is_sign, is_word};

/// What the tokens of a sentence so far decide about the next.
#[derive(Clone, Copy, Debug, PartialEq, Eq)]
pub enum SentencePart {
    /// It is the first.
    Start,
    /// It is the second, and the first is no parenthesis.
    First,
    /// It is the second, behind `(`.
    FirstOpen,
    /// It is the second, behind `function` or `predicate`.
    RowName,
    /// It stands further on in the row of a table.
    Row,
    /// It stands before the `:` of a step other than `instance`.
    Step,
    /// It stands before the `(` of an `instance` step.
    Instance,
    /// It stands behind the `(` of an `instance` step.
    Terms,
    /// It stands behind the `:`.
    Clause,
}

fn is_row(token: &Token) -> bool
    ensures { result ≡ is_table_row (token.now ∷ []) }
{
    is_word(b"function", token) || is_word(b"predicate", token)
}

fn behind_first(token: &Token) -> SentencePart
    ensures { result ≡ spec.part_of_first token.now }
{
    if is_row(token) {
        SentencePart::RowName
    } else if is_sign(Sign::Colon, token) {
        SentencePart::Clause
    } else if is_sign(Sign::Open, token) {
        SentencePart::FirstOpen
    } else {
        SentencePart::First
    }
}

fn behind_second(is_open: bool, token: &Token) -> SentencePart
    ensures { result ≡ spec.behind_second is_open token.now }
{
    if is_sign(Sign::Colon, token) {
        SentencePart::Clause
    } else if is_word(b"instance", token) {
        if is_open {
            SentencePart::Terms
        } else {
            SentencePart::Instance
        }
    } else {
        SentencePart::Step
    }
}

fn behind_colon(otherwise: SentencePart, token: &Token) -> SentencePart
    ensures { result ≡ spec.behind_colon otherwise token.now }
{
    if is_sign(Sign::Colon, token) {
        SentencePart::Clause
    } else {
        otherwise
    }
}

fn behind_instance(token: &Token) -> SentencePart
    ensures { result ≡ spec.behind_instance token.now }
{
    let otherwise = if is_sign(Sign::Open, token) {
        SentencePart::Terms
    } else {
        SentencePart::Instance
    };
    behind_colon(otherwise, token)
}

impl SentencePart {
    /// With one token more.
    pub fn with(self, token: &Token) -> SentencePart
        ensures { result ≡ spec.part_with token.now self }
    {
        match self {
            SentencePart::Start => behind_first(token),
            SentencePart::First => behind_second(false, token),
            SentencePart::FirstOpen => behind_second(true, token),
            SentencePart::RowName | SentencePart::Row => SentencePart::Row,
            SentencePart::Step => behind_colon(SentencePart::Step, token),
            SentencePart::Instance => behind_instance(token),
            SentencePart::Terms => behind_colon(SentencePart::Terms, token),
            SentencePart::Clause => SentencePart::Clause,
        }
    }

    /// Whether the token joins the formula so far, which has no open parenthesis where `is_outer`. Else a formula
    /// begins behind the token, or none has begun.
    pub fn joins(self, is_outer: bool, token: &Token) -> bool
        ensures { result ≡ spec.joins self is_outer token.now }
    {
        match self {
            SentencePart::FirstOpen => is_word(b"instance", token),
            SentencePart::Terms => {
                !is_sign(Sign::Colon, token) && !(is_outer && is_sign(Sign::Comma, token))
            }
            SentencePart::Clause => true,
            _ => false,
        }
    }
}
