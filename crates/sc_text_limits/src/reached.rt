//! What is kept of the tokens so far, and the limit that the next one passes.

ghost use Rattle.std.specs.Prelude.{◌≡◌, ◌<◌, ◌+◌, ◌++◌, ◌∷◌, [], List, length, take, Ok, None, Some, IfOk, OnOk, IfSome, option_map, slice_get};
ghost use Rattle.sc_term.specs.declared.symbol.Symbol.{Symbol};
ghost use Rattle.sc_input_rules.specs.declared.token.Token.{Token};
ghost use Rattle.sc_input_rules.specs.declared.fault.InputKind.TheVariants.{OutOfRange};
ghost use Rattle.sc_input_rules.specs.Faults.{place, passed, first_passed};
ghost use Rattle.sc_text_rules.specs.TextLimits.{text_bounds, text_fault_at};
ghost use Rattle.sc_text_limits.specs.Parts.{Stands};
ghost use Rattle.sc_text_limits.specs.Formulas.{IsKept};
ghost use Rattle.sc_text_limits.specs.Limits.{limits_before};
ghost use Rattle.sc_text_limits.specs.Reached.{IsWithin, IsBehind};

use crate::formula::FormulaCount;
use crate::limits::fault_in_formula;
use crate::names::number_told;
use crate::part::SentencePart;
use sc_input_limits::between;
use sc_input_rules::{InputKind, Place, Sign, Token};
use sc_input_scan::is_sign;
use sc_term::{Mem, Signature};
use std::alloc::Global;

/// What is kept of the tokens so far.
#[derive(Debug, Drop)]
pub struct Reached {
    /// Where in its sentence the next token stands.
    pub part: SentencePart,
    /// What is kept of the clause or term so far. Where there is none, it has no token.
    pub formula: FormulaCount,
}

fn out_of_range(at: Option<u64>) -> Option<Place>
    ensures { result ≡ option_map (λ n. place n OutOfRange) at }
{
    match at {
        Some(at) => Some(Place {
            at,
            kind: InputKind::OutOfRange,
        }),
        None => None,
    }
}

impl Reached {
    /// Before the first token.
    pub fn new(alloc: Global) -> Reached
        ensures { (symbols : List Symbol) (tokens : List Token) → IsBehind symbols tokens 0 result }
    {
        Reached {
            part: SentencePart::Start,
            formula: FormulaCount::new(alloc, 0),
        }
    }

    /// The limit on the name that ends before the token, or on the number that the token is.
    fn fault_before(&self, sig: &Signature, tokens: &[Token], token: &Token) -> Option<Place>
        ensures { (sentence formula : List Token) → Stands sentence self.now.part formula → IsKept tokens.now formula self.now.formula → result ≡ passed (limits_before sig.now) (record { earlier = sentence; last = token.now }) }
    {
        match self.part {
            SentencePart::Terms => self.formula.fault_of_ended(sig, tokens, true, token),
            SentencePart::Clause => self.formula.fault_of_ended(sig, tokens, false, token),
            SentencePart::RowName => None,
            _ => out_of_range(number_told(token)),
        }
    }

    /// Goes on behind the token of a number.
    fn advance(&mut self, alloc: Global, number: usize, token: &Token) -> Mem<()>
        requires number { number < usize.MAX }
        requires weight { self.old.formula.count.weight < usize.MAX }
        requires around { self.old.formula.count.literal.atom.around < usize.MAX }
        ensures { OnOk result ((tokens front sentence : List Token) → number ≡ length front → slice_get tokens number ≡ Some token.now → IsWithin tokens front sentence self.old → IsWithin tokens (front ++ token.now ∷ []) (sentence ++ token.now ∷ []) self.new) }
    {
        let joins = self.part.joins(self.formula.is_outer(), token);
        self.part = self.part.with(token);
        if joins {
            self.formula.add(number, token)?;
            Ok(())
        } else {
            self.formula = FormulaCount::new(alloc, number + 1);
            Ok(())
        }
    }

    /// Takes one token more. Where it passes a limit, that is answered.
    pub fn step(
        &mut self,
        alloc: Global,
        sig: &Signature,
        tokens: &[Token],
        at: usize,
    ) -> Mem<Option<Place>>
        requires within { at < length tokens.now }
        requires behind { IsBehind sig.now tokens.now at self.old }
        ensures goes_on { result ≡ Ok None → IsBehind sig.now tokens.now (at + 1) self.new }
        ensures passes { IfOk result (λ told. IfSome told (λ p. first_passed (text_fault_at text_bounds sig.now) (take (at + 1) tokens.now) ≡ Some p)) }
    {
        let token = &tokens[at];
        if let Some(place) = self.fault_before(sig, tokens, token) {
            return Ok(Some(place));
        }
        self.advance(alloc, at, token)?;
        let formula = between(tokens, self.formula.start, at + 1);
        let told = fault_in_formula(&self.formula.count, formula);
        if is_sign(Sign::Stop, token) {
            self.part = SentencePart::Start;
            self.formula = FormulaCount::new(alloc, at + 1);
        }
        Ok(told)
    }
}
