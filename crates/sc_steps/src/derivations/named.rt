//! Derived clauses by their number, and what lines name.

ghost use Rattle.std.specs.Prelude.{◌≡◌, ℕ, ◌-◌, Some, IsSomeAnd, IfSome, IfNone, length};
ghost use Rattle.std.specs.Option.{option_copied};
ghost use Rattle.sc_steps.specs.declared.derivations.derivation.Derived.{Derived as ADerived};
ghost use Rattle.sc_steps.specs.Derivation.{derived_at, IsInputAt};
ghost use Rattle.sc_steps.specs.Splice as spec;

use crate::derivations::derivation::Derived;
use crate::lists::numbered;
use sc_term::{Clause, Line, Step};

/// The number of the clause that an `input` step names.
pub fn named_by(step: &Step) -> Option<u32>
    ensures { result ≡ spec.named_by step.now }
{
    match step {
        Step::Input(n) => Some(*n),
        Step::Instance { of: _, terms: _ } => None,
        Step::Resolve {
            left: _,
            left_lit: _,
            right: _,
            right_lit: _,
        } => None,
        Step::Merge { of: _, lit: _ } => None,
        Step::Para {
            from: _,
            from_lit: _,
            side: _,
            into: _,
            into_lit: _,
            path: _,
        } => None,
        Step::Flip { of: _, lit: _ } => None,
    }
}

/// The derived clause of number n, where there are so many input clauses.
pub fn derived_at<'a>(inputs: &[Clause], derived: &'a [Derived], n: u32) -> Option<&'a Derived>
    ensures { option_copied result ≡ derived_at inputs.now derived.now n }
{
    let place = (n as usize).saturating_sub(inputs.len());
    numbered(derived, place as u32)
}

/// The clause that the last line names, where it is an `input` line.
fn named_last(lines: &[Line]) -> Option<u32>
    ensures named { IfSome result (λ m. IsInputAt lines.now m (length lines.now)) }
    ensures none { IfNone result ((m : ℕ) → ¬ IsInputAt lines.now m (length lines.now)) }
{
    match lines.last() {
        Some(line) => named_by(&line.step),
        None => None,
    }
}

/// The clause that the last line of the derivation of clause n names, where it is an `input` line.
pub fn named_last_of(inputs: &[Clause], derived: &[Derived], n: u32) -> Option<u32>
    ensures named { IfSome result (λ m. IsSomeAnd (derived_at inputs.now derived.now n) (λ d. IsInputAt d.lines m (length d.lines))) }
    ensures none { IfNone result ((d : ADerived) (m : ℕ) → derived_at inputs.now derived.now n ≡ Some d → ¬ IsInputAt d.lines m (length d.lines)) }
{
    match derived_at(inputs, derived, n) {
        Some(d) => named_last(d.lines.as_slice()),
        None => None,
    }
}
