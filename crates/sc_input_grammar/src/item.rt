//! Reading items.

ghost use Rattle.std.specs.Prelude.{◌≡◌, ◌++◌, [], ◌∷◌, length, codes, true, false, IfOk};
ghost use Rattle.sc_input_rules.specs.Reader as spec;
ghost use Rattle.sc_input_rules.specs.ProblemGrammar as of;
ghost use Rattle.sc_input_scan.specs.Told.{Gives};
ghost use Rattle.sc_input_grammar.specs.Items.{item_of, items_of, clipped_item, clipped_items, told_item, ends_at};

use crate::clause::read_clause;
use crate::number::read_number;
use crate::words::{ASSIGN, CLEAR, END_OF_LIST, PROOF, RUN, SET, Vocabulary, a_listed_name};
use sc_input_rules::{Lexeme, Sign, Token, WrittenLiteral};
use sc_input_scan::{Rest, Stop, is_word, next_is_word, stop_at, the_sign, the_word};
use sc_term::List;
use std::alloc::Global;

/// Where a problem may end.
#[derive(Clone, Copy, Debug)]
pub enum Ending {
    /// At the end of the tokens alone.
    AtEnd,
    /// There, or before a section: at a word `proof` or `run` in an item's place.
    AtSection,
}

/// A word that names something, and the byte at which it begins.
#[derive(Debug, Drop)]
pub struct Name<'a> {
    pub at: u64,
    pub text: Lexeme<'a>,
}

/// An item of a problem: a flag that is set or cleared, a parameter and its value, or a list and its clauses as they
/// are written.
#[derive(Debug, Drop)]
pub enum Item<'a> {
    Setting(Name<'a>, bool),
    Assignment(Name<'a>, i64),
    Listing(Name<'a>, List<List<WrittenLiteral<'a>>>),
}

/// `)` and `.`
fn the_close<'t, 'a>(tokens: &'t [Token<'a>]) -> Result<&'t [Token<'a>], Stop>
    ensures { Gives (λ x. (tt, x.now)) result (of.the_close tokens.now) }
{
    let rest = the_sign(Sign::Close, tokens)?;
    the_sign(Sign::Stop, rest)
}

fn name_at<'a>(at: u64, text: &'a [u8]) -> Name<'a>
    ensures { result ≡ record { at = at; text = text.now } }
{
    Name {
        at,
        text: Lexeme::new(text),
    }
}

/// What stands behind `set` or `clear`.
fn setting<'t, 'a>(
    positive: bool,
    tokens: &'t [Token<'a>],
) -> Result<(Item<'a>, &'t [Token<'a>]), Stop>
    ensures { Gives (λ x. (item_of x.0, x.1.now)) result (clipped_item (of.setting positive tokens.now)) }
{
    let rest = the_sign(Sign::Open, tokens)?;
    let (at, text, rest) = a_listed_name(Vocabulary::Flags, rest)?;
    let rest = the_close(rest)?;
    Ok((Item::Setting(name_at(at, text), positive), rest))
}

/// What stands behind `assign`.
fn assignment<'t, 'a>(tokens: &'t [Token<'a>]) -> Result<(Item<'a>, &'t [Token<'a>]), Stop>
    ensures { Gives (λ x. (item_of x.0, x.1.now)) result (clipped_item (of.assignment tokens.now)) }
{
    let rest = the_sign(Sign::Open, tokens)?;
    let (at, text, rest) = a_listed_name(Vocabulary::Parameters, rest)?;
    let rest = the_sign(Sign::Comma, rest)?;
    let (value, rest) = read_number(rest)?;
    let rest = the_close(rest)?;
    Ok((Item::Assignment(name_at(at, text), value), rest))
}

fn ended_clause<'t, 'a>(
    alloc: Global,
    tokens: &'t [Token<'a>],
) -> Result<(List<WrittenLiteral<'a>>, &'t [Token<'a>]), Stop>
    ensures { Gives (λ x. (x.0, x.1.now)) result (of.ended_clause tokens.now) }
{
    let (clause, rest) = read_clause(alloc, tokens)?;
    let after = the_sign(Sign::Stop, rest)?;
    Ok((clause, after))
}

fn at_end_of_list(tokens: &[Token]) -> bool
    ensures { result ≡ of.next_is_word (codes "end_of_list") tokens.now }
{
    next_is_word(END_OF_LIST.as_bytes(), tokens)
}

/// Clauses up to `end_of_list`.
fn clauses<'t, 'a>(
    alloc: Global,
    tokens: &'t [Token<'a>],
) -> Result<(List<List<WrittenLiteral<'a>>>, &'t [Token<'a>]), Stop>
    ensures { Gives (λ x. (x.0, x.1.now)) result (spec.repeated (of.next_is_word (codes "end_of_list")) of.ended_clause (length tokens.now) tokens.now) }
{
    let mut front = List::new(alloc);
    let mut rest = Rest::new(tokens);
    for _ in 0..tokens.len() {
        let left = rest.tokens();
        if at_end_of_list(left) {
            return Ok((front, left));
        }
        let (clause, after) = ended_clause(alloc, left)?;
        front.push(clause)?;
        rest = Rest::new(after);
    }
    let left = rest.tokens();
    if at_end_of_list(left) {
        Ok((front, left))
    } else {
        Err(stop_at(left))
    }
}

/// What stands behind `list`.
fn listing<'t, 'a>(
    alloc: Global,
    tokens: &'t [Token<'a>],
) -> Result<(Item<'a>, &'t [Token<'a>]), Stop>
    ensures { Gives (λ x. (item_of x.0, x.1.now)) result (clipped_item (of.listing tokens.now)) }
{
    let rest = the_sign(Sign::Open, tokens)?;
    let (at, text, rest) = a_listed_name(Vocabulary::Lists, rest)?;
    let rest = the_close(rest)?;
    let (clauses, rest) = clauses(alloc, rest)?;
    let rest = the_word(END_OF_LIST.as_bytes(), rest)?;
    let rest = the_sign(Sign::Stop, rest)?;
    Ok((Item::Listing(name_at(at, text), clauses), rest))
}

/// What stands behind the word of an item.
fn item_named<'t, 'a>(
    alloc: Global,
    word: &'a [u8],
    tokens: &'t [Token<'a>],
) -> Result<(Item<'a>, &'t [Token<'a>]), Stop>
    ensures { Gives (λ x. (item_of x.0, x.1.now)) result (clipped_item (of.item_named word.now tokens.now)) }
{
    if word == SET.as_bytes() {
        setting(true, tokens)
    } else if word == CLEAR.as_bytes() {
        setting(false, tokens)
    } else if word == ASSIGN.as_bytes() {
        assignment(tokens)
    } else {
        listing(alloc, tokens)
    }
}

/// An item, and the tokens behind it. A value from 10,000,000,000 on, of either sign, is answered as that number.
fn read_item<'t, 'a>(
    alloc: Global,
    tokens: &'t [Token<'a>],
) -> Result<(Item<'a>, &'t [Token<'a>]), Stop>
    ensures { Gives (λ x. (item_of x.0, x.1.now)) result (told_item tokens.now) }
{
    let (_, word, rest) = a_listed_name(Vocabulary::Items, tokens)?;
    item_named(alloc, word, rest)
}

/// Whether a problem ends here: at the end of the tokens, or at `proof` or `run` too where those may follow it.
fn ends(ending: Ending, tokens: &[Token]) -> bool
    ensures { result ≡ ends_at ending tokens.now }
{
    match tokens {
        [] => true,
        [t, ..] => match ending {
            Ending::AtEnd => false,
            Ending::AtSection => is_word(PROOF.as_bytes(), t) || is_word(RUN.as_bytes(), t),
        },
    }
}

fn items_until<'t, 'a>(
    alloc: Global,
    ending: Ending,
    tokens: &'t [Token<'a>],
) -> Result<(List<Item<'a>>, &'t [Token<'a>]), Stop>
    ensures { Gives (λ x. (items_of x.0, x.1.now)) result (spec.repeated (ends_at ending) told_item (length tokens.now) tokens.now) }
{
    let mut front = List::new(alloc);
    let mut rest = Rest::new(tokens);
    for _ in 0..tokens.len() {
        let left = rest.tokens();
        if ends(ending, left) {
            return Ok((front, left));
        }
        let (item, after) = read_item(alloc, left)?;
        front.push(item)?;
        rest = Rest::new(after);
    }
    let left = rest.tokens();
    if ends(ending, left) {
        Ok((front, left))
    } else {
        Err(stop_at(left))
    }
}

/// The items of a problem that ends with the tokens, and no tokens. A value from 10,000,000,000 on, of either sign, is
/// answered as that number. It stops for want of memory, or at the first token that `problem` doesn't allow.
pub fn read_problem<'t, 'a>(
    alloc: Global,
    tokens: &'t [Token<'a>],
) -> Result<(List<Item<'a>>, &'t [Token<'a>]), Stop>
    ensures { Gives (λ x. (items_of x.0, x.1.now)) result (clipped_items (of.problem tokens.now)) }
{
    items_until(alloc, Ending::AtEnd, tokens)
}

/// The items of a problem that ends with the tokens or before a word `proof` or `run` in an item's place, and the
/// tokens from there. A value from 10,000,000,000 on, of either sign, is answered as that number. It stops for want of
/// memory, or at the first token that `items` doesn't allow.
pub fn read_items<'t, 'a>(
    alloc: Global,
    tokens: &'t [Token<'a>],
) -> Result<(List<Item<'a>>, &'t [Token<'a>]), Stop>
    ensures { Gives (λ x. (items_of x.0, x.1.now)) result (clipped_items (of.items tokens.now)) }
{
    items_until(alloc, Ending::AtSection, tokens)
}
