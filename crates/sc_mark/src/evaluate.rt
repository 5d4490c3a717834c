//! The value of a term and the truth of a clause under one assignment, as sc_interp finds them for its own use.

ghost use Rattle.std.specs.Prelude.{◌≡◌, ℕ, ◌≤◌, ◌-◌, ◌+◌, ◌^◌, map, min, slice_index};
ghost use Rattle.std.specs.List.{list_any};
ghost use Rattle.std.specs.Option.{option_copied};
ghost use Rattle.sc_term.specs.Interpretation as spec;
ghost use Rattle.sc_term.specs.Numbering.{numbered};
ghost use Rattle.sc_interp.specs.Structure.{entry_in, place_of, tables_of_size};

use sc_interp::Table;
use sc_term::{Clause, Literal, SymId, Term};

/// The number at a place, 0 past the end. A place that no `usize` holds is passed as the greatest one.
fn number_at(numbers: &[u8], at: usize) -> u8
    ensures { (p : ℕ) → at ≡ min p usize.MAX → result ≡ slice_index numbers.now p }
{
    if at < numbers.len() { numbers[at] } else { 0 }
}

/// The table of a symbol, of which `=` has none.
fn table_of(tables: &[Table], sym: SymId) -> Option<&Table>
    ensures { option_copied result ≡ numbered tables.now sym.0 }
{
    if sym.0 == 0 {
        None
    } else {
        tables.get(sym.0 as usize - 1)
    }
}

/// The entry of a symbol, 0 where there is none. A place that no `usize` holds is passed as the greatest one.
fn entry(tables: &[Table], sym: SymId, place: usize) -> u8
    ensures { (p : ℕ) → place ≡ min p usize.MAX → result ≡ entry_in (numbered tables.now sym.0) p }
{
    match table_of(tables, sym) {
        Some(table) => number_at(table.entries.as_slice(), place),
        None => 0,
    }
}

/// The value of the term where variable n has element n of `values`.
#[cycle(evaluate)]
fn value(size: u8, tables: &[Table], values: &[u8], term: &Term) -> u8
    requires { 1 ≤ size }
    ensures { result ≡ spec.value (tables_of_size size tables.now) (slice_index values.now) term.now }
{
    match term {
        Term::Var(n) => number_at(values, *n as usize),
        Term::App(f, args) => {
            let place = place(size, tables, values, args.as_slice());
            entry(tables, *f, place)
        }
    }
}

/// The place of the entry of these arguments, or the greatest number where that is greater.
#[cycle(evaluate)]
fn place(size: u8, tables: &[Table], values: &[u8], args: &[Term]) -> usize
    requires { 1 ≤ size }
    ensures { result ≡ min (place_of size (map (spec.value (tables_of_size size tables.now) (slice_index values.now)) args.now)) usize.MAX }
{
    let mut at: usize = 0;
    for arg in args {
        let value = value(size, tables, values, arg);
        at = at
            .saturating_mul(size as usize)
            .saturating_add(value as usize);
    }
    at
}

/// Whether the atom is true where variable n has element n of `values`.
fn atom_holds(size: u8, tables: &[Table], values: &[u8], pred: SymId, args: &[Term]) -> bool
    requires { 1 ≤ size }
    ensures { result ≡ spec.atom_holds (tables_of_size size tables.now) pred (map (spec.value (tables_of_size size tables.now) (slice_index values.now)) args.now) }
{
    if pred.0 == 0 {
        return match args {
            [left, right] => value(size, tables, values, left)
                == value(size, tables, values, right),
            _ => false,
        };
    }
    let place = place(size, tables, values, args);
    entry(tables, pred, place) == 1
}

fn literal_holds(size: u8, tables: &[Table], values: &[u8], literal: &Literal) -> bool
    requires { 1 ≤ size }
    ensures { result ≡ spec.literal_holds (tables_of_size size tables.now) (slice_index values.now) literal.now }
{
    let holds = atom_holds(size, tables, values, literal.pred, literal.args.as_slice());
    if literal.positive { holds } else { !holds }
}

/// Whether some literal is true where variable n has element n of `values`.
pub fn some_literal_holds(size: u8, tables: &[Table], values: &[u8], c: &Clause) -> bool
    requires { 1 ≤ size }
    ensures { result ≡ list_any (spec.literal_holds (tables_of_size size tables.now) (slice_index values.now)) c.now.literals }
{
    for literal in c.literals.as_slice() {
        if literal_holds(size, tables, values, literal) {
            return true;
        }
    }
    false
}
