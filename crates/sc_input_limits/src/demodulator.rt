//! Which clauses may stand in the list of demodulators.

ghost use Rattle.std.specs.Prelude.{◌≡◌, ◌&&◌, ◌||◌, not, nat_lt};
ghost use Rattle.std.specs.List.{list_any, list_all};
ghost use Rattle.sc_input_rules.specs.Demodulator as spec;
ghost use Rattle.sc_input_rules.specs.Numbering.{is_variable, same_name};

use sc_input_rules::{Occurrence, WrittenLiteral};

/// Whether the name is a variable: it has no arguments and begins with one of u to z.
pub fn is_variable(occurrence: &Occurrence) -> bool
    ensures { result ≡ is_variable occurrence.now }
{
    match occurrence.name.as_slice() {
        [first, ..] => occurrence.arity == 0 && b'u' <= *first && *first <= b'z',
        [] => false,
    }
}

fn is_equation(literal: &WrittenLiteral) -> bool
    ensures { result ≡ spec.is_equation literal.now }
{
    literal.predicate.name.as_slice() == b"=".as_slice()
}

fn begins_with_variable(literal: &WrittenLiteral) -> bool
    ensures { result ≡ spec.is_one_variable (spec.left_side literal.now) }
{
    for occurrence in literal.arguments.as_slice() {
        if occurrence.at < literal.predicate.at {
            return is_variable(occurrence);
        }
    }
    false
}

/// Whether the name is this variable, and stands before the byte.
fn is_same_before(occurrence: &Occurrence, end: u64, variable: &Occurrence) -> bool
    ensures { result ≡ (nat_lt occurrence.now.at end && (is_variable occurrence.now && same_name variable.now occurrence.now)) }
{
    occurrence.at < end
        && is_variable(occurrence)
        && variable.name.as_slice() == occurrence.name.as_slice()
}

fn holds_variable(arguments: &[Occurrence], end: u64, variable: &Occurrence) -> bool
    ensures { result ≡ list_any (λ o. nat_lt o.at end && (is_variable o && same_name variable.now o)) arguments.now }
{
    for occurrence in arguments {
        if is_same_before(occurrence, end, variable) {
            return true;
        }
    }
    false
}

/// Whether the name is no variable of the right side that the left side lacks.
fn is_held(occurrence: &Occurrence, equality: u64, arguments: &[Occurrence]) -> bool
    ensures { result ≡ (not (nat_lt equality occurrence.now.at) || (not (is_variable occurrence.now) || list_any (λ o. nat_lt o.at equality && (is_variable o && same_name occurrence.now o)) arguments.now)) }
{
    occurrence.at <= equality
        || !is_variable(occurrence)
        || holds_variable(arguments, equality, occurrence)
}

fn all_held(equality: u64, arguments: &[Occurrence]) -> bool
    ensures { result ≡ list_all (λ o. not (nat_lt equality o.at) || (not (is_variable o) || list_any (λ p. nat_lt p.at equality && (is_variable p && same_name o p)) arguments.now)) arguments.now }
{
    for occurrence in arguments {
        if !is_held(occurrence, equality, arguments) {
            return false;
        }
    }
    true
}

fn left_holds_right(literal: &WrittenLiteral) -> bool
    ensures { result ≡ spec.left_holds_right literal.now }
{
    all_held(literal.predicate.at, literal.arguments.as_slice())
}

/// Whether the clause may stand in the list of demodulators.
pub fn is_demodulator(clause: &[WrittenLiteral]) -> bool
    ensures { result ≡ spec.is_demodulator clause.now }
{
    match clause {
        [literal] => {
            literal.positive
                && is_equation(literal)
                && !begins_with_variable(literal)
                && left_holds_right(literal)
        }
        _ => false,
    }
}
