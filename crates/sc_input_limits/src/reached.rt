//! What is kept of the tokens so far, and the limit that the next one passes.

ghost use Rattle.std.specs.Prelude.{◌≡◌, ◌≤◌, ◌<◌, ◌+◌, List as AList, [], length, take, true, false, Ok, IfOk, None, Some, option_map, if◌then◌else◌};
ghost use Rattle.sc_input_rules.specs.declared.token.Token.{Token};
ghost use Rattle.sc_input_rules.specs.Position as at_position;
ghost use Rattle.sc_input_rules.specs.Faults.{place, first_passed};
ghost use Rattle.sc_input_rules.specs.ClauseLimits as limit;
ghost use Rattle.sc_input_rules.specs.ProblemLimits as spec;
ghost use Rattle.sc_input_limits.specs.Counted.{Counted};
ghost use Rattle.sc_input_limits.specs.Positions.{behind_stop, behind_clause};
ghost use Rattle.sc_input_limits.specs.Reached.{Follows, Reaches, IsBehind};

use crate::count::{ClauseCount, first_at};
use crate::demodulator::is_demodulator;
use crate::limits::{fault_in_clause, is_within};
use crate::position::{between, closes, opened};
use crate::range::{number_so_far, out_of_range};
use crate::symbols::{Symbols, add_clause};
use sc_input_grammar::read_clause;
use sc_input_rules::{Home, InputKind, Place, Sign, Token, WrittenLiteral};
use sc_input_scan::{Stop, is_sign};
use sc_term::{List, Mem, OutOfMemory};
use std::alloc::Global;

/// What is kept of the tokens so far.
#[derive(Drop)]
pub struct Reached {
    /// The list that is open.
    pub home: Option<Home>,
    /// The number of the first token of the sentence so far.
    pub start: usize,
    /// The number that the value of the item so far begins with, outside the lists.
    pub number: Option<i64>,
    /// How many clauses are whole.
    pub clauses: usize,
    /// What is counted of the clause so far.
    pub count: ClauseCount,
    /// The symbols of the whole clauses.
    pub symbols: Symbols,
    /// Whether one of the whole clauses can't stand in its list. None is told any more.
    pub spoilt: bool,
}

/// The clause that tokens begin with, or the empty one where they begin with none.
fn written<'t, 'a>(alloc: Global, tokens: &'t [Token<'a>]) -> Mem<List<WrittenLiteral<'a>>>
    ensures { IfOk result (λ c. c ≡ spec.written tokens.now) }
{
    match read_clause(alloc, tokens) {
        Ok((clause, _)) => Ok(clause),
        Err(Stop::At(_, _)) => Ok(List::new(alloc)),
        Err(Stop::Memory) => Err(OutOfMemory),
    }
}

/// Whether the clause can't stand in the list.
fn is_bad(home: Home, clause: &[WrittenLiteral]) -> bool
    ensures { (tokens : AList Token) → clause.now ≡ spec.written tokens → result ≡ spec.is_bad_demodulator (home, tokens) }
{
    match home {
        Home::Demodulators => !is_demodulator(clause),
        Home::Usable | Home::Sos | Home::Passive => false,
    }
}

/// Where a clause is told that can't stand in its list: the first of those, and no more behind it.
fn demodulator_told(spoilt: bool, bad: bool, sentence: &[Token]) -> Option<u64>
    ensures { result ≡ (if spoilt then None else if bad then limit.first_at sentence.now else None) }
{
    if bad && !spoilt {
        first_at(sentence)
    } else {
        None
    }
}

fn told(at: Option<u64>, kind: InputKind) -> Option<Place>
    ensures { result ≡ option_map (λ n. place n kind) at }
{
    match at {
        Some(at) => Some(Place { at, kind }),
        None => None,
    }
}

/// Whether a place is told, which then stands in `fault`.
fn is_told(told: Option<Place>, fault: &mut Place) -> bool
    ensures none { result ≡ false → told ≡ None }
    ensures some { result ≡ true → told ≡ Some fault.new }
{
    match told {
        Some(place) => {
            *fault = place;
            true
        }
        None => false,
    }
}

impl Reached {
    /// Ends the clause of an open list.
    fn end_clause(&mut self, alloc: Global, home: Home, sentence: &[Token]) -> Mem<Option<Place>>
        requires { self.old.clauses < usize.MAX }
        ensures reaches { IfOk result (λ told. (p : at_position.Position) → Follows p self.old → p.home ≡ Some home → Reaches (behind_clause p home sentence.now) self.new told) }
        ensures clauses { self.new.clauses ≤ self.old.clauses + 1 }
    {
        let clause = written(alloc, sentence)?;
        self.clauses += 1;
        match add_clause(alloc, &mut self.symbols, clause.as_slice())? {
            Some(at) => Ok(Some(Place {
                at,
                kind: InputKind::TooMany,
            })),
            None => {
                let bad = is_bad(home, clause.as_slice());
                let at = demodulator_told(self.spoilt, bad, sentence);
                self.spoilt |= bad;
                Ok(told(at, InputKind::BadDemodulator))
            }
        }
    }

    /// Ends a sentence, at its full stop.
    fn end_sentence(&mut self, alloc: Global, sentence: &[Token]) -> Mem<Option<Place>>
        requires { self.old.clauses < usize.MAX }
        ensures reaches { IfOk result (λ told. (p : at_position.Position) → Follows p self.old → p.sentence ≡ sentence.now → Reaches (behind_stop p) self.new told) }
        ensures clauses { self.new.clauses ≤ self.old.clauses + 1 }
    {
        match self.home {
            None => {
                self.home = opened(sentence);
                Ok(None)
            }
            Some(home) => {
                if closes(sentence) {
                    self.home = None;
                    Ok(None)
                } else {
                    self.end_clause(alloc, home, sentence)
                }
            }
        }
    }
}

impl Reached {
    /// Before the first token.
    pub fn new(alloc: Global) -> Mem<Reached>
        ensures { IfOk result (λ r. IsBehind [] r) }
    {
        Ok(Reached {
            home: None,
            start: 0,
            number: None,
            clauses: 0,
            count: ClauseCount::new(alloc),
            symbols: Symbols::new(alloc)?,
            spoilt: false,
        })
    }

    /// Takes one token more. Whether it passes a limit, whose place then stands in `fault`.
    pub fn step(
        &mut self,
        alloc: Global,
        tokens: &[Token],
        at: usize,
        fault: &mut Place,
    ) -> Mem<bool>
        requires within { at < length tokens.now }
        requires behind { IsBehind (take at tokens.now) self.old }
        ensures goes_on { result ≡ Ok false → IsBehind (take (at + 1) tokens.now) self.new }
        ensures passes { result ≡ Ok true → first_passed (spec.problem_fault_at spec.problem_bounds) (take (at + 1) tokens.now) ≡ Some fault.new }
    {
        let token = &tokens[at];
        if is_sign(Sign::Stop, token) {
            let told = self.end_sentence(alloc, between(tokens, self.start, at))?;
            self.count = ClauseCount::new(alloc);
            self.number = None;
            self.start = at + 1;
            Ok(is_told(told, fault))
        } else if self.home.is_some() {
            self.count.add(token)?;
            if is_within(&self.count, self.clauses) {
                return Ok(false);
            }
            let clause = between(tokens, self.start, at + 1);
            Ok(is_told(fault_in_clause(&self.count, self.clauses, clause), fault))
        } else {
            let item = between(tokens, self.start, at + 1);
            self.number = number_so_far(self.number, item);
            let outside = told(out_of_range(self.number, item), InputKind::OutOfRange);
            Ok(is_told(outside, fault))
        }
    }
}
