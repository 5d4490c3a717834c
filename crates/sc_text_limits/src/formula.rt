//! What is kept of a clause or term so far.

ghost use Rattle.std.specs.Prelude.{◌≡◌, ◌≤◌, ◌<◌, ◌+◌, ◌++◌, ◌∷◌, [], ℕ, List as AList, Option, Some, OnOk, reverse, slice_get, option_map, option_and_then};
ghost use Rattle.sc_input_rules.specs.declared.token.Token.{Token};
ghost use Rattle.sc_input_limits.specs.Counted.{Counted};
ghost use Rattle.sc_text_limits.specs.Names as spec;
ghost use Rattle.sc_text_limits.specs.Formulas.{IsKept, is_outer, ended_by, is_in_term};
ghost use Rattle.sc_text_limits.specs.Limits.{fault_of_ended};

use crate::names::{EndedName, fault_of_name};
use sc_input_limits::{ClauseCount, is_equality};
use sc_input_rules::{Place, Sign, Token};
use sc_input_scan::is_sign;
use sc_term::{List, MAX_ARITY, Mem, Signature};
use std::alloc::Global;

/// The name that ends with a token.
#[derive(Clone, Copy, Debug)]
pub enum NameEnding {
    /// None ends.
    Nothing,
    /// The word of that number.
    Word(usize),
    /// The word of that number with so many arguments, 9 for more.
    Applied(usize, u8),
}

/// What is kept of a clause or term so far.
#[derive(Debug, Drop)]
pub struct FormulaCount {
    /// The number of its first token.
    pub start: usize,
    pub count: ClauseCount,
    /// The number of the word before each parenthesis that is open, the outermost first.
    pub words: List<Option<usize>>,
    /// The name that ends with the last token.
    pub ended: NameEnding,
}

impl NameEnding {
    fn word(self) -> Option<usize>
        ensures { result ≡ spec.word_ended self }
    {
        match self {
            NameEnding::Word(number) => Some(number),
            _ => None,
        }
    }
}

fn word_at<'a>(tokens: &[Token<'a>], number: usize) -> Option<(u64, &'a [u8])>
    ensures { option_map (λ w. record { at = w.0; text = w.1.now }) result ≡ spec.word_at tokens.now number }
{
    match tokens.get(number) {
        Some(token) => match token {
            Token::Word(at, text) => Some((*at, text.as_slice())),
            _ => None,
        },
        None => None,
    }
}

fn word_alone<'a>(tokens: &[Token<'a>], number: usize) -> Option<EndedName<'a>>
    ensures { option_map spec.as_occurrence result ≡ option_and_then spec.name_alone (spec.word_at tokens.now number) }
{
    match word_at(tokens, number) {
        Some((at, text)) => {
            if text == b"$F".as_slice() {
                None
            } else {
                Some(EndedName { at, text, arity: 0 })
            }
        }
        None => None,
    }
}

fn word_applied<'a>(tokens: &[Token<'a>], number: usize, arity: u8) -> Option<EndedName<'a>>
    ensures { option_map spec.as_occurrence result ≡ option_map (spec.applied_to arity) (spec.word_at tokens.now number) }
{
    match word_at(tokens, number) {
        Some((at, text)) => Some(EndedName { at, text, arity }),
        None => None,
    }
}

/// The name, by the tokens of the text.
fn name_in<'a>(tokens: &[Token<'a>], ended: NameEnding) -> Option<EndedName<'a>>
    ensures { option_map spec.as_occurrence result ≡ spec.name_ended tokens.now ended }
{
    match ended {
        NameEnding::Nothing => None,
        NameEnding::Word(number) => word_alone(tokens, number),
        NameEnding::Applied(number, arity) => word_applied(tokens, number, arity),
    }
}

/// The word before the innermost parenthesis.
fn innermost_word(words: &[Option<usize>]) -> Option<usize>
    ensures { result ≡ option_and_then (λ w. w) (slice_get (reverse words.now) 0) }
{
    match words {
        [.., word] => *word,
        [] => None,
    }
}

/// The commas in the innermost parenthesis.
fn innermost_commas(commas: &[u8]) -> Option<u8>
    ensures { result ≡ slice_get (reverse commas.now) 0 }
{
    match commas {
        [.., count] => Some(*count),
        [] => None,
    }
}

/// The name that ends with a `)`, by the word before its parenthesis and the commas in it.
fn applied(words: &[Option<usize>], commas: &[u8]) -> NameEnding
    ensures { result ≡ spec.applied_by (reverse words.now) (reverse commas.now) }
{
    match innermost_word(words) {
        Some(number) => match innermost_commas(commas) {
            Some(commas) => NameEnding::Applied(number, commas.min(MAX_ARITY) + 1),
            None => NameEnding::Nothing,
        },
        None => NameEnding::Nothing,
    }
}

fn count_words(words: &mut List<Option<usize>>, before: NameEnding, token: &Token) -> Mem<()>
    ensures { OnOk result (reverse words.new ≡ spec.words_behind (spec.word_ended before) token.now (reverse words.old)) }
{
    if is_sign(Sign::Open, token) {
        words.push(before.word())?;
    } else if is_sign(Sign::Close, token) {
        let _ = words.pop();
    }
    Ok(())
}

impl FormulaCount {
    /// Of no token, before that of a number.
    pub fn new(alloc: Global, start: usize) -> FormulaCount
        ensures kept { (tokens : AList Token) → IsKept tokens [] result }
        ensures start { result.start ≡ start }
        ensures weight { result.count.weight ≡ 0 }
        ensures around { result.count.literal.atom.around ≡ 0 }
    {
        FormulaCount {
            start,
            count: ClauseCount::new(alloc),
            words: List::new(alloc),
            ended: NameEnding::Nothing,
        }
    }

    fn ended_with(&self, number: usize, token: &Token) -> NameEnding
        ensures { result ≡ ended_by number token.now self.now }
    {
        match token {
            Token::Word(..) => NameEnding::Word(number),
            Token::Punctuation(_, Sign::Close) => {
                applied(self.words.as_slice(), self.count.commas.as_slice())
            }
            _ => NameEnding::Nothing,
        }
    }

    /// Counts one token more, that of a number.
    pub fn add(&mut self, number: usize, token: &Token) -> Mem<()>
        requires weight { self.old.count.weight < usize.MAX }
        requires around { self.old.count.literal.atom.around < usize.MAX }
        ensures kept { OnOk result ((tokens formula : AList Token) → slice_get tokens number ≡ Some token.now → IsKept tokens formula self.old → IsKept tokens (formula ++ token.now ∷ []) self.new) }
        ensures start { OnOk result (self.new.start ≡ self.old.start) }
        ensures weight { OnOk result (self.new.count.weight ≤ self.old.count.weight + 1) }
        ensures around { OnOk result (self.new.count.literal.atom.around ≤ self.old.count.literal.atom.around + 1) }
    {
        let ended = self.ended_with(number, token);
        count_words(&mut self.words, self.ended, token)?;
        self.count.add(token)?;
        self.ended = ended;
        Ok(())
    }

    /// Whether no parenthesis is open.
    pub fn is_outer(&self) -> bool
        ensures { (formula : AList Token) → Counted formula self.now.count → result ≡ is_outer formula }
    {
        self.count.commas.len() == 0
    }

    /// Whether the name that ends before the token stands in the place of a term.
    fn is_in_term(&self, is_term: bool, token: &Token) -> bool
        ensures { result ≡ is_in_term is_term self.now.count.literal.atom token.now }
    {
        let atom = self.count.literal.atom;
        is_term || 0 < atom.around || atom.equality || is_equality(token)
    }

    /// The limit that the name passes that ends before the token.
    pub fn fault_of_ended(
        &self,
        sig: &Signature,
        tokens: &[Token],
        is_term: bool,
        token: &Token,
    ) -> Option<Place>
        ensures { (formula : AList Token) → IsKept tokens.now formula self.now → result ≡ fault_of_ended sig.now (record { is_term = is_term; tokens = formula }) token.now }
    {
        if is_sign(Sign::Open, token) {
            return None;
        }
        match name_in(tokens, self.ended) {
            Some(name) => fault_of_name(sig, self.is_in_term(is_term, token), name),
            None => None,
        }
    }
}
