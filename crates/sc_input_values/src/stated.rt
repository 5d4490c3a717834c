//! The problem that items state.

ghost use Rattle.std.specs.Prelude.{◌≡◌, ◌++◌, map, flat_map, IfOk, OnOk};
ghost use Rattle.std.specs.List.{AllByRecursion};
ghost use Rattle.sc_term.specs.Symbol.{IsSignature, same_symbol};
ghost use Rattle.sc_input_rules.specs.Numbering.{symbols_of, clause_of};
ghost use Rattle.sc_input_rules.specs.Problem.{stated};
ghost use Rattle.sc_input_rules.specs.WellFormed.{IsProblem};
ghost use Rattle.sc_input_grammar.specs.Items.{items_of};
ghost use Rattle.sc_input_values.specs.Listed.{clauses_in, homes_in};
ghost use Rattle.sc_input_values.specs.Names.{clause_symbols, HasFewVariables, MayJoin};
ghost use Rattle.sc_input_values.specs.Once.{with_each};

use crate::clauses::push_clauses;
use crate::settings::{flags_from, home_of, params_from};
use crate::symbols::add_clauses;
use sc_input_grammar::Item;
use sc_input_rules::{Home, Problem, WrittenLiteral};
use sc_term::{Clause, List, Mem, Signature};
use std::alloc::Global;

fn add_item(alloc: Global, sig: &mut Signature, item: &Item) -> Mem<()>
    requires { MayJoin sig.old (flat_map clause_symbols (clauses_in item.now)) }
    ensures { OnOk result (sig.new ≡ with_each same_symbol sig.old (flat_map clause_symbols (clauses_in item.now))) }
{
    match item {
        Item::Listing(_, clauses) => add_clauses(alloc, sig, clauses.as_slice()),
        Item::Setting(..) | Item::Assignment(..) => Ok(()),
    }
}

/// The symbols of the clauses in lists, numbered by first occurrence.
fn signature_of(alloc: Global, items: &[Item]) -> Mem<Signature>
    requires { IsSignature (symbols_of (flat_map clauses_in items.now)) }
    ensures { IfOk result (λ sig. sig ≡ symbols_of (flat_map clauses_in items.now)) }
{
    let mut sig = Signature::new(alloc)?;
    for item in items {
        add_item(alloc, &mut sig, item)?;
    }
    Ok(sig)
}

fn push_inputs(alloc: Global, sig: &Signature, item: &Item, inputs: &mut List<Clause>) -> Mem<()>
    requires { AllByRecursion HasFewVariables (clauses_in item.now) }
    ensures { OnOk result (inputs.new ≡ inputs.old ++ map (clause_of sig.now) (clauses_in item.now)) }
{
    match item {
        Item::Listing(_, clauses) => push_clauses(alloc, sig, clauses.as_slice(), inputs),
        Item::Setting(..) | Item::Assignment(..) => Ok(()),
    }
}

/// The clauses in lists, over the signature.
fn inputs_of(alloc: Global, sig: &Signature, items: &[Item]) -> Mem<List<Clause>>
    requires { AllByRecursion HasFewVariables (flat_map clauses_in items.now) }
    ensures { IfOk result (λ inputs. inputs ≡ map (clause_of sig.now) (flat_map clauses_in items.now)) }
{
    let mut inputs = List::new(alloc);
    for item in items {
        push_inputs(alloc, sig, item, &mut inputs)?;
    }
    Ok(inputs)
}

/// One home for each of the clauses.
fn push_home(home: Home, clauses: &[List<WrittenLiteral>], homes: &mut List<Home>) -> Mem<()>
    ensures { OnOk result (homes.new ≡ homes.old ++ map (λ _. home) clauses.now) }
{
    for _clause in clauses {
        homes.push(home)?;
    }
    Ok(())
}

fn push_homes(item: &Item, homes: &mut List<Home>) -> Mem<()>
    ensures { OnOk result (homes.new ≡ homes.old ++ homes_in item.now) }
{
    match item {
        Item::Listing(name, clauses) => {
            push_home(home_of(name.text.as_slice()), clauses.as_slice(), homes)
        }
        Item::Setting(..) | Item::Assignment(..) => Ok(()),
    }
}

/// The homes of the clauses in lists.
fn homes_of(alloc: Global, items: &[Item]) -> Mem<List<Home>>
    ensures { IfOk result (λ homes. homes ≡ flat_map homes_in items.now) }
{
    let mut homes = List::new(alloc);
    for item in items {
        push_homes(item, &mut homes)?;
    }
    Ok(homes)
}

/// The problem that the items state, where that keeps what every problem does.
pub fn problem_from(alloc: Global, items: &[Item]) -> Mem<Problem>
    requires { IsProblem (stated (items_of items.now)) }
    ensures { IfOk result (λ problem. problem ≡ stated (items_of items.now)) }
{
    let sig = signature_of(alloc, items)?;
    let inputs = inputs_of(alloc, &sig, items)?;
    let homes = homes_of(alloc, items)?;
    Ok(Problem::new(sig, inputs, homes, flags_from(items), params_from(items)))
}
