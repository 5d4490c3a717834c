//! Literals as they are written, before symbols and variables have numbers.

use crate::lexeme::Lexeme;
use sc_term::List;

/// An occurrence of a name: where it begins, and how many arguments stand behind it.
#[derive(Debug, Drop)]
pub struct Occurrence<'a> {
    pub at: u64,
    pub name: Lexeme<'a>,
    pub arity: u64,
}

/// A literal. The names of its arguments stand in the order of the text.
#[derive(Debug, Drop)]
pub struct WrittenLiteral<'a> {
    pub positive: bool,
    pub predicate: Occurrence<'a>,
    pub arguments: List<Occurrence<'a>>,
}
