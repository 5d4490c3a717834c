//! The value of a term and the falsehood of a clause under one assignment, where some cells have no value.
//!
//! What isn't found says which cell it is without: the next one that the evaluation reads, or the greatest number where no
//! value of a cell would help.

ghost use Rattle.std.specs.Prelude.{◌≡◌, ℕ, ◌-◌, ◌^◌, ◌++◌, List as AList, Some, Option as AnOption, All, map, min, length, option_map, slice_get, slice_index};
ghost use Rattle.std.specs.Option.{option_copied};
ghost use Rattle.sc_term.specs.Interpretation.{are_equal};
ghost use Rattle.sc_term.specs.Numbering.{numbered};
ghost use Rattle.sc_find_given.specs.Lookup.{place_in, number_in, value_at, look_up, found_term, found_terms, found_atom, IsFoundFalse};
ghost use Rattle.sc_find_given.specs.Waiting.{Sees, Decides};

use crate::row::Row;
use sc_term::{Clause, Literal, SymId, Term};

/// The number at a place, 0 past the end.
pub fn number_at(numbers: &[u8], at: usize) -> u8
    ensures { result ≡ slice_index numbers.now at }
{
    if at < numbers.len() { numbers[at] } else { 0 }
}

/// The row of a symbol, of which `=` has none.
fn row_of(rows: &[Row], sym: SymId) -> Option<&Row>
    ensures { option_copied result ≡ numbered rows.now sym.0 }
{
    if sym.0 == 0 {
        None
    } else {
        rows.get(sym.0 as usize - 1)
    }
}

/// The number at a place. A place that no `usize` holds is passed as the greatest one.
fn number_in(numbers: &[usize], place: usize) -> Option<usize>
    ensures { (p : ℕ) → place ≡ min p usize.MAX → result ≡ slice_get numbers.now p }
{
    match numbers.get(place) {
        Some(number) => Some(*number),
        None => None,
    }
}

/// The number in a symbol's row for so many arguments, at a place.
fn cell_number(row: Option<&Row>, count: usize, place: usize) -> Option<usize>
    ensures { (p : AnOption ℕ) → Some place ≡ option_map (λ n. min n usize.MAX) p → result ≡ number_in (option_copied row.entry) count p }
{
    let row = row?;
    if count != row.arity as usize {
        return None;
    }
    number_in(row.numbers.as_slice(), place)
}

/// The value of the cell of that number.
fn given_at(given: &[u8], number: usize) -> Result<u8, usize>
    ensures { Sees (λ g. slice_get g number) given.now result }
{
    match given.get(number) {
        Some(value) => Ok(*value),
        None => Err(number),
    }
}

/// The value of a symbol's entry with so many arguments at a place.
fn found(rows: &[Row], given: &[u8], sym: SymId, count: usize, place: usize) -> Result<u8, usize>
    ensures { (p : AList ℕ → AnOption ℕ) → ((more : AList ℕ) → Some place ≡ option_map (λ n. min n usize.MAX) (p (given.now ++ more)))
        → Sees (λ g. value_at g (number_in (numbered rows.now sym.0) count (p g))) given.now result }
{
    match cell_number(row_of(rows, sym), count, place) {
        Some(number) => given_at(given, number),
        None => Err(usize::MAX),
    }
}

/// The value of the term where variable n has element n of `values` and the first cells have those of `given`.
#[cycle(evaluate)]
pub fn value(size: u8, rows: &[Row], given: &[u8], values: &[u8], term: &Term) -> Result<u8, usize>
    ensures { Sees (λ g. found_term (look_up size rows.now g) (slice_index values.now) term.now) given.now result }
{
    match term {
        Term::Var(n) => Ok(number_at(values, *n as usize)),
        Term::App(f, args) => match place(size, rows, given, values, args.as_slice()) {
            Ok(place) => found(rows, given, *f, args.len(), place),
            Err(cell) => Err(cell),
        },
    }
}

/// The place of the entry of these arguments, where all are found and are elements; the greatest number where the place
/// is greater.
#[cycle(evaluate)]
fn place(size: u8, rows: &[Row], given: &[u8], values: &[u8], args: &[Term]) -> Result<usize, usize>
    ensures { Sees (λ g. option_map (λ n. min n usize.MAX) (place_in size (found_terms (look_up size rows.now g) (slice_index values.now) args.now))) given.now result }
{
    let mut at: usize = 0;
    for arg in args {
        match value(size, rows, given, values, arg) {
            Ok(element) => {
                if element >= size {
                    return Err(usize::MAX);
                }
                at = at
                    .saturating_mul(size as usize)
                    .saturating_add(element as usize);
            }
            Err(cell) => return Err(cell),
        }
    }
    Ok(at)
}

/// An equation that hasn't two terms is false, where all values are found.
fn odd_equation(
    size: u8,
    rows: &[Row],
    given: &[u8],
    values: &[u8],
    args: &[Term],
) -> Result<bool, usize>
    requires { ¬ (length args.now ≡ 2) }
    ensures { Sees (λ g. option_map are_equal (found_terms (look_up size rows.now g) (slice_index values.now) args.now)) given.now result }
{
    for arg in args {
        match value(size, rows, given, values, arg) {
            Ok(_) => {}
            Err(cell) => return Err(cell),
        }
    }
    Ok(false)
}

/// Whether the terms are two of the same value, where all values are found.
fn equation(
    size: u8,
    rows: &[Row],
    given: &[u8],
    values: &[u8],
    args: &[Term],
) -> Result<bool, usize>
    ensures { Sees (λ g. option_map are_equal (found_terms (look_up size rows.now g) (slice_index values.now) args.now)) given.now result }
{
    if args.len() != 2 {
        return odd_equation(size, rows, given, values, args);
    }
    match value(size, rows, given, values, &args[0]) {
        Ok(left) => match value(size, rows, given, values, &args[1]) {
            Ok(right) => Ok(left == right),
            Err(cell) => Err(cell),
        },
        Err(cell) => Err(cell),
    }
}

/// Whether an atom of another predicate than `=` is true, where all that it reads is found.
fn entry(
    size: u8,
    rows: &[Row],
    given: &[u8],
    values: &[u8],
    pred: SymId,
    args: &[Term],
) -> Result<bool, usize>
    requires { ¬ (pred.0 ≡ 0) }
    ensures { Sees (λ g. found_atom (look_up size rows.now g) pred (found_terms (look_up size rows.now g) (slice_index values.now) args.now)) given.now result }
{
    match place(size, rows, given, values, args) {
        Ok(place) => match found(rows, given, pred, args.len(), place) {
            Ok(entry) => Ok(1 == entry),
            Err(cell) => Err(cell),
        },
        Err(cell) => Err(cell),
    }
}

/// Whether the atom is true, where all that it reads is found.
fn atom(
    size: u8,
    rows: &[Row],
    given: &[u8],
    values: &[u8],
    pred: SymId,
    args: &[Term],
) -> Result<bool, usize>
    ensures { Sees (λ g. found_atom (look_up size rows.now g) pred (found_terms (look_up size rows.now g) (slice_index values.now) args.now)) given.now result }
{
    if pred.0 == 0 {
        equation(size, rows, given, values, args)
    } else {
        entry(size, rows, given, values, pred, args)
    }
}

/// The cell that the literal waits for, unless it is false.
fn literal_waits(
    size: u8,
    rows: &[Row],
    given: &[u8],
    values: &[u8],
    literal: &Literal,
) -> Option<usize>
    ensures { Decides (λ g. IsFoundFalse (look_up size rows.now g) (slice_index values.now) literal.now) given.now result }
{
    match atom(
        size,
        rows,
        given,
        values,
        literal.pred,
        literal.args.as_slice(),
    ) {
        Ok(truth) => {
            if truth == literal.positive {
                Some(usize::MAX)
            } else {
                None
            }
        }
        Err(cell) => Some(cell),
    }
}

/// The cell that the first literal waits for which isn't false; none, where each is false.
pub fn clause_waits(
    size: u8,
    rows: &[Row],
    given: &[u8],
    values: &[u8],
    clause: &Clause,
) -> Option<usize>
    ensures { Decides (λ g. All (IsFoundFalse (look_up size rows.now g) (slice_index values.now)) clause.now.literals) given.now result }
{
    for literal in clause.literals.as_slice() {
        match literal_waits(size, rows, given, values, literal) {
            Some(cell) => return Some(cell),
            None => {}
        }
    }
    None
}
