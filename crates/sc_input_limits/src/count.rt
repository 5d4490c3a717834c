//! What is counted of a clause so far: its weight, the depth of its last atom, and the commas of the parentheses
//! that are open.

ghost use Rattle.std.specs.Prelude.{◌≡◌, ◌≤◌, ◌<◌, ◌+◌, ◌++◌, ◌∷◌, [], ℕ, List as AList, OnOk, IfOk, None, true, false, nat_lt, nat_le, reverse, if◌then◌else◌};
ghost use Rattle.sc_input_rules.specs.Token.{is_sign, at_of};
ghost use Rattle.sc_input_rules.specs.declared.token.Sign.TheVariants.{Open};
ghost use Rattle.sc_input_rules.specs.declared.token.Token.{Token};
ghost use Rattle.sc_input_rules.specs.Measures as spec;
ghost use Rattle.sc_input_rules.specs.ClauseGrammar as grammar;
ghost use Rattle.sc_input_rules.specs.ClauseLimits as limit;
ghost use Rattle.sc_input_rules.specs.ProblemLimits.{problem_bounds};
ghost use Rattle.sc_input_limits.specs.Counted.{AtomCounted, AtomGrows, LiteralCounted, Counted, low};

use sc_input_rules::{Sign, Token};
use sc_input_scan::is_sign;
use sc_term::{List, MAX_ARITY, MAX_DEPTH, MAX_INPUT_WEIGHT, Mem};
use std::alloc::Global;

/// The greatest level of a word in an atom: how deep a clause may be.
const MOST_LEVELS: usize = MAX_DEPTH as usize;

/// Where the next token of a literal stands.
#[derive(Clone, Copy, Debug, PartialEq, Eq)]
pub enum Part {
    /// At the start of the literal.
    Start,
    /// Behind its `-`.
    Signed,
    /// In the atom, or behind the parenthesis round an equation.
    Inside,
}

/// What is counted of an atom so far.
#[derive(Clone, Copy, Debug)]
pub struct AtomCount {
    /// How many parentheses are open.
    pub around: usize,
    /// The greatest level of a word.
    pub level: usize,
    /// Whether `=` or `!=` occurred.
    pub equality: bool,
}

/// What is counted of the last literal so far.
#[derive(Clone, Copy, Debug)]
pub struct LiteralCount {
    pub part: Part,
    pub atom: AtomCount,
}

/// What is counted of a clause so far.
#[derive(Debug, Drop)]
pub struct ClauseCount {
    pub weight: usize,
    pub literal: LiteralCount,
    /// How many commas stand in each parenthesis that is open, the outermost first; 8 for more.
    pub commas: List<u8>,
}

/// Whether the token is `=` or `!=`.
pub fn is_equality(token: &Token) -> bool
    ensures { result ≡ grammar.is_equality token.now }
{
    match token {
        Token::Punctuation(_, Sign::Equal) => true,
        Token::Punctuation(_, Sign::Unequal) => true,
        _ => false,
    }
}

fn has_weight(token: &Token) -> bool
    ensures { result ≡ spec.has_weight token.now }
{
    match token {
        Token::Word(..) => true,
        _ => is_equality(token),
    }
}

impl AtomCount {
    fn new() -> AtomCount
        ensures { AtomCounted [] result }
    {
        AtomCount {
            around: 0,
            level: 0,
            equality: false,
        }
    }

    /// Counts one token more.
    fn add(&mut self, token: &Token)
        requires { self.old.around < usize.MAX }
        ensures counted { AtomGrows token.now self.old self.new }
        ensures around { self.new.around ≤ self.old.around + 1 }
    {
        match token {
            Token::Word(..) => self.level = self.level.max(self.around + 1),
            Token::Punctuation(_, Sign::Open) => self.around += 1,
            Token::Punctuation(_, Sign::Close) => self.around = self.around.saturating_sub(1),
            _ => self.equality = self.equality || is_equality(token),
        }
    }
}

impl LiteralCount {
    fn new() -> LiteralCount
        ensures counted { LiteralCounted [] result }
        ensures around { result.atom.around ≡ 0 }
    {
        LiteralCount {
            part: Part::Start,
            atom: AtomCount::new(),
        }
    }

    /// Counts one token more.
    fn add(&mut self, token: &Token)
        requires { self.old.atom.around < usize.MAX }
        ensures counted { (tokens : AList Token) → LiteralCounted tokens self.old → LiteralCounted (tokens ++ token.now ∷ []) self.new }
        ensures around { self.new.atom.around ≤ self.old.atom.around + 1 }
    {
        if is_sign(Sign::Bar, token) {
            *self = LiteralCount::new();
            return;
        }
        match self.part {
            Part::Start => {
                if is_sign(Sign::Minus, token) {
                    self.part = Part::Signed;
                } else {
                    self.begin(token);
                }
            }
            Part::Signed => self.begin(token),
            Part::Inside => self.atom.add(token),
        }
    }

    /// Counts one token more of a literal whose sign, if it has one, is counted.
    fn begin(&mut self, token: &Token)
        requires { self.old.atom.around < usize.MAX }
        ensures part { self.new.part ≡ Part.Inside }
        ensures bracket { is_sign Open token.now ≡ true → self.new.atom ≡ self.old.atom }
        ensures counted { is_sign Open token.now ≡ false → AtomGrows token.now self.old.atom self.new.atom }
        ensures around { self.new.atom.around ≤ self.old.atom.around + 1 }
    {
        self.part = Part::Inside;
        if !is_sign(Sign::Open, token) {
            self.atom.add(token);
        }
    }
}

/// A parenthesis more is open.
fn open_parenthesis(commas: &mut List<u8>) -> Mem<()>
    ensures { OnOk result ((before : AList ℕ) → commas.old ≡ reverse (low before) → commas.new ≡ reverse (low (0 ∷ before))) }
{
    commas.push(0)?;
    Ok(())
}

/// The innermost parenthesis is closed, if one is open.
fn close_parenthesis(commas: &mut List<u8>)
    ensures { (before : AList ℕ) → commas.old ≡ reverse (low before) → commas.new ≡ reverse (low (spec.without_innermost before)) }
{
    let _ = commas.pop();
}

/// A comma more stands in the innermost parenthesis, if one is open.
fn count_comma(commas: &mut List<u8>) -> Mem<()>
    ensures { OnOk result ((before : AList ℕ) → commas.old ≡ reverse (low before) → commas.new ≡ reverse (low (spec.one_more before))) }
{
    match commas.pop() {
        Some(count) => {
            commas.push(one_more(count))?;
            Ok(())
        }
        None => Ok(()),
    }
}

/// The commas of the open parentheses, with one token more.
fn count_commas(commas: &mut List<u8>, token: &Token) -> Mem<()>
    ensures { OnOk result ((before : AList ℕ) → commas.old ≡ reverse (low before) → commas.new ≡ reverse (low (spec.commas_behind token.now before))) }
{
    if is_sign(Sign::Open, token) {
        open_parenthesis(commas)
    } else if is_sign(Sign::Close, token) {
        close_parenthesis(commas);
        Ok(())
    } else if is_sign(Sign::Comma, token) {
        count_comma(commas)
    } else {
        Ok(())
    }
}

fn one_more(count: u8) -> u8
    ensures { result ≡ (if nat_lt count 8 then count + 1 else count) }
{
    if count < MAX_ARITY { count + 1 } else { count }
}

/// Where the last of the tokens begins.
pub fn last_at(tokens: &[Token]) -> Option<u64>
    ensures { result ≡ limit.last_at tokens.now }
{
    match tokens {
        [.., last] => Some(at_of(last)),
        [] => None,
    }
}

fn at_of(token: &Token) -> u64
    ensures { result ≡ at_of token.now }
{
    match token {
        Token::Word(at, _) => *at,
        Token::Punctuation(at, _) => *at,
        Token::Refused(at, _) => *at,
    }
}

/// Where the first of the tokens begins.
pub fn first_at(tokens: &[Token]) -> Option<u64>
    ensures { result ≡ limit.first_at tokens.now }
{
    match tokens {
        [first, ..] => Some(at_of(first)),
        [] => None,
    }
}

impl ClauseCount {
    /// Of no token.
    pub fn new(alloc: Global) -> ClauseCount
        ensures counted { Counted [] result }
        ensures weight { result.weight ≡ 0 }
        ensures around { result.literal.atom.around ≡ 0 }
    {
        ClauseCount {
            weight: 0,
            literal: LiteralCount::new(),
            commas: List::new(alloc),
        }
    }

    /// Counts one token more.
    pub fn add(&mut self, token: &Token) -> Mem<()>
        requires weight { self.old.weight < usize.MAX }
        requires around { self.old.literal.atom.around < usize.MAX }
        ensures counted { OnOk result ((tokens : AList Token) → Counted tokens self.old → Counted (tokens ++ token.now ∷ []) self.new) }
        ensures weight { OnOk result (self.new.weight ≤ self.old.weight + 1) }
        ensures around { OnOk result (self.new.literal.atom.around ≤ self.old.literal.atom.around + 1) }
    {
        count_commas(&mut self.commas, token)?;
        self.literal.add(token);
        if has_weight(token) {
            self.weight += 1;
        }
        Ok(())
    }

    fn has_ninth_argument(&self) -> bool
        ensures { (tokens : AList Token) → Counted tokens self.now → result ≡ nat_le 8 (spec.arguments_so_far tokens) }
    {
        match self.commas.as_slice() {
            [.., innermost] => *innermost == MAX_ARITY,
            [] => false,
        }
    }

    fn is_too_deep(&self) -> bool
        ensures { (tokens : AList Token) → Counted tokens self.now → result ≡ nat_lt 256 (spec.depth_so_far tokens) }
    {
        let atom = &self.literal.atom;
        if atom.equality {
            MOST_LEVELS <= atom.level
        } else {
            MOST_LEVELS < atom.level
        }
    }

    /// Whether none of the three limits is passed that are told below.
    pub fn is_within(&self) -> bool
        ensures arity { (tokens : AList Token) → Counted tokens self.now → result ≡ true → limit.arity_told problem_bounds tokens ≡ None }
        ensures weight { (tokens : AList Token) → Counted tokens self.now → result ≡ true → limit.weight_told problem_bounds tokens ≡ None }
        ensures depth { (tokens : AList Token) → Counted tokens self.now → result ≡ true → limit.depth_told problem_bounds tokens ≡ None }
    {
        self.weight <= MAX_INPUT_WEIGHT && !self.has_ninth_argument() && !self.is_too_deep()
    }

    /// Where the `,` before an argument too many stands.
    pub fn arity_told(&self, clause: &[Token]) -> Option<u64>
        ensures { Counted clause.now self.now → result ≡ limit.arity_told problem_bounds clause.now }
    {
        if self.has_ninth_argument() {
            last_at(clause)
        } else {
            None
        }
    }

    /// Where the word, `=` or `!=` stands that makes the weight too great.
    pub fn weight_told(&self, clause: &[Token]) -> Option<u64>
        ensures { Counted clause.now self.now → result ≡ limit.weight_told problem_bounds clause.now }
    {
        if MAX_INPUT_WEIGHT < self.weight {
            last_at(clause)
        } else {
            None
        }
    }

    /// Where the token stands that makes the atom too deep.
    pub fn depth_told(&self, clause: &[Token]) -> Option<u64>
        ensures { Counted clause.now self.now → result ≡ limit.depth_told problem_bounds clause.now }
    {
        if self.is_too_deep() {
            last_at(clause)
        } else {
            None
        }
    }
}
