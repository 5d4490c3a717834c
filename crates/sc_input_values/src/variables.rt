//! The variables of a clause.

ghost use Rattle.std.specs.Prelude.{◌≡◌, ℕ, ◌≤◌, ◌^◌, List, [], map, length, IfOk, OnOk};
ghost use Rattle.sc_input_rules.specs.Numbering as spec;
ghost use Rattle.sc_input_rules.specs.Token.{same_text};
ghost use Rattle.sc_input_values.specs.Names.{names_of_variables, variable_names, HasFewVariables, number_among};
ghost use Rattle.sc_input_values.specs.Once.{with_new, with_each};

use crate::terms::Numbering;
use indexmap::IndexSet;
use sc_input_rules::{Occurrence, WrittenLiteral};
use sc_term::Mem;
use std::alloc::Global;
use std::marker::Model;

/// Whether the name is a variable's: without arguments, and beginning with one of u to z.
pub fn is_variable(occurrence: &Occurrence) -> bool
    ensures { result ≡ spec.is_variable occurrence.now }
{
    match occurrence.name.as_slice() {
        [first, ..] => occurrence.arity == 0 && b'u' <= *first && *first <= b'z',
        [] => false,
    }
}

/// The names of the variables of a clause, numbered by first occurrence. Contracts see the list of them.
#[derive(Drop)]
pub struct Variables<'a> {
    names: IndexSet<&'a [u8]>,
}

impl<'a> Model for Variables<'a> {
    ghost Value = { List (List ℕ) };

    ghost view = { λ v. map (λ name. name.now) v.names.keys };

    ghost invariant = { λ v. length v.names.keys ≤ 2 ^ 32 };
}

impl<'a> Variables<'a> {
    fn new(alloc: Global) -> Variables<'a>
        ensures { result ≡ [] }
    {
        Variables {
            names: IndexSet::new(alloc),
        }
    }

    fn note(&mut self, name: &'a [u8]) -> Mem<()>
        requires { length (with_new same_text self.old name.now) ≤ 2 ^ 32 }
        ensures { OnOk result (self.new ≡ with_new same_text self.old name.now) }
    {
        self.names.insert_full(name)?;
        Ok(())
    }
}

impl<'a> Numbering for Variables<'a> {
    ghost number = { number_among };

    fn number(&self, occurrence: &Occurrence) -> Option<u32> {
        if is_variable(occurrence) {
            match self.names.get_index_of(occurrence.name.as_slice()) {
                Some(at) => Some(at as u32),
                None => None,
            }
        } else {
            None
        }
    }
}

/// The variables of a clause.
pub fn variables_of<'a>(alloc: Global, written: &[WrittenLiteral<'a>]) -> Mem<Variables<'a>>
    requires { HasFewVariables written.now }
    ensures { IfOk result (λ variables. variables ≡ variable_names written.now) }
{
    let mut variables = Variables::new(alloc);
    for literal in written {
        note_variables(&mut variables, literal.arguments.as_slice())?;
    }
    Ok(variables)
}

fn note_variables<'a>(variables: &mut Variables<'a>, occurrences: &[Occurrence<'a>]) -> Mem<()>
    requires { length (with_each same_text variables.old (names_of_variables occurrences.now)) ≤ 2 ^ 32 }
    ensures { OnOk result (variables.new ≡ with_each same_text variables.old (names_of_variables occurrences.now)) }
{
    for occurrence in occurrences {
        if is_variable(occurrence) {
            variables.note(occurrence.name.as_slice())?;
        }
    }
    Ok(())
}
