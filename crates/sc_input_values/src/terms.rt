//! Terms from the occurrences of names.

ghost use Rattle.std.specs.Prelude.{◌≡◌, ℕ, Bool, Option, IfOk, OnOk, take, drop, reverse, Ok};
ghost use Rattle.sc_term.specs.declared.symbol.Symbol.{Symbol};
ghost use Rattle.sc_input_rules.specs.declared.written.Occurrence.{Occurrence};
ghost use Rattle.sc_input_rules.specs.Numbering.{terms_of, term_at, symbol_number, function_at, literal_of};

use crate::symbols::symbol_number;
use sc_input_rules::{Occurrence, WrittenLiteral};
use sc_term::{List, Literal, Mem, Role, Signature, Term};
use std::alloc::Global;

/// Which names are variables, and the numbers that these have.
pub trait Numbering {
    ghost number: { Self → Occurrence → Option ℕ };

    /// The number of the name if it is a variable.
    fn number(&self, occurrence: &Occurrence) -> Option<u32>
        ensures { result ≡ number self.now occurrence.now };
}

/// The last `count` terms of the stack, the topmost first; all that there are where these are fewer.
fn take_off(stack: &mut Vec<Term>, count: u64) -> Mem<List<Term>>
    ensures taken { IfOk result (λ terms. terms ≡ take count (reverse stack.old.items)) }
    ensures left { OnOk result (reverse stack.new.items ≡ drop count (reverse stack.old.items)) }
{
    let kept = stack.len().saturating_sub(count as usize);
    let mut terms = stack.split_off(kept)?;
    terms.reverse();
    Ok(List::from_vec(terms))
}

/// The terms that the names are when they are written one after another, each before its arguments.
pub fn terms_from<N: Numbering>(
    alloc: Global,
    variables: &N,
    sig: &Signature,
    occurrences: &[Occurrence],
) -> Mem<List<Term>>
    ensures { IfOk result (λ terms. terms ≡ terms_of (N.number variables.now) sig.now occurrences.now) }
{
    let mut stack = Vec::new(alloc);
    for occurrence in occurrences.iter().rev() {
        let args = take_off(&mut stack, occurrence.arity)?;
        let term = match variables.number(occurrence) {
            Some(number) => Term::Var(number),
            None => Term::App(symbol_number(sig, Role::Function, occurrence), args),
        };
        stack.push(term)?;
    }
    stack.reverse();
    Ok(List::from_vec(stack))
}

/// The literal that is written.
pub fn literal_from<N: Numbering>(
    alloc: Global,
    variables: &N,
    sig: &Signature,
    written: &WrittenLiteral,
) -> Mem<Literal>
    ensures { IfOk result (λ literal. literal ≡ literal_of (N.number variables.now) sig.now written.now) }
{
    Ok(Literal {
        positive: written.positive,
        pred: symbol_number(sig, Role::Predicate, &written.predicate),
        args: terms_from(alloc, variables, sig, written.arguments.as_slice())?,
    })
}
