//! The symbols of the clauses so far, each once.

ghost use Rattle.std.specs.Prelude.{◌≡◌, ◌==◌, ◌++◌, [], ◌∷◌, filter, map, flat_map, not, IfOk};
ghost use Rattle.std.proofs.Common.{rules};
ghost use Rattle.std.specs.Hash as fed;
ghost use Rattle.std.specs.Cmp.Rules.{comparing, hashing};
ghost use Rattle.sc_term.specs.Symbol.{role_number, equality};
ghost use Rattle.sc_input_rules.specs.Numbering as spec;
ghost use Rattle.sc_input_limits.specs.Symbols.{same_written, as_written, FindsMore};
ghost use Rattle.sc_input_limits.specs.Query.{same_query, written_of};

use crate::demodulator::is_variable;
use indexmap::{Equivalent, IndexSet};
use sc_input_rules::{Occurrence, WrittenLiteral};
use sc_term::{List, MAX_SYMBOLS, Mem, Role};
use std::alloc::Global;
use std::hash::{Hash, Hasher};
use std::marker::Model;

/// A symbol as it is written. Its arity is not limited.
#[derive(Debug, Drop)]
pub struct WrittenSymbol {
    pub name: List<u8>,
    pub arity: u64,
    pub role: Role,
}

fn role_number(role: Role) -> u8
    ensures { result ≡ role_number role }
{
    match role {
        Role::Function => 0,
        Role::Predicate => 1,
    }
}

impl PartialEq for WrittenSymbol {
    ghost eq = { same_written };

    ghost laws = { Prim.search (comparing, rules) };

    fn eq(&self, other: &WrittenSymbol) -> bool {
        self.name.as_slice() == other.name.as_slice()
            && self.arity == other.arity
            && role_number(self.role) == role_number(other.role)
    }
}

impl Eq for WrittenSymbol {
    ghost laws = { Prim.search (comparing, rules) };
}

impl Hash for WrittenSymbol {
    ghost hash_input = { λ s. fed.slice fed.u8 s.name ++ fed.u64 s.arity };

    ghost respects_eq = { Prim.search (hashing, rules) };

    fn hash<H: Hasher>(&self, state: &mut H) {
        self.name.as_slice().hash(state);
        self.arity.hash(state);
    }
}

/// The parts of a symbol as it is written, its name borrowed: what the set of symbols is asked for.
#[derive(Clone, Copy)]
struct Query<'a> {
    name: &'a [u8],
    arity: u64,
    role: Role,
}

impl<'a> PartialEq for Query<'a> {
    ghost eq = { same_query };

    ghost laws = { Prim.search (comparing, rules) };

    fn eq(&self, other: &Query<'a>) -> bool {
        self.name == other.name
            && self.arity == other.arity
            && role_number(self.role) == role_number(other.role)
    }
}

impl<'a> Eq for Query<'a> {
    ghost laws = { Prim.search (comparing, rules) };
}

impl<'a> Hash for Query<'a> {
    ghost hash_input = { λ q. fed.slice fed.u8 q.name.now ++ fed.u64 q.arity };

    ghost respects_eq = { Prim.search (hashing, rules) };

    fn hash<H: Hasher>(&self, state: &mut H) {
        self.name.hash(state);
        self.arity.hash(state);
    }
}

impl<'a> Equivalent<WrittenSymbol> for Query<'a> {
    ghost equivalent = { λ q s. same_written (written_of q) s };

    ghost respects_hash = { Prim.search (hashing, rules) };

    ghost respects_eq = { Prim.search (comparing, rules) };

    fn equivalent(&self, symbol: &WrittenSymbol) -> bool {
        self.name == symbol.name.as_slice()
            && self.arity == symbol.arity
            && role_number(self.role) == role_number(symbol.role)
    }
}

/// Symbols, each once, in the order in which they were added.
#[derive(Drop)]
pub struct Symbols {
    symbols: IndexSet<WrittenSymbol>,
}

impl Model for Symbols {
    ghost use Rattle.std.specs.Prelude.{List as AList};
    ghost use Rattle.sc_input_limits.specs.declared.symbols.WrittenSymbol.{WrittenSymbol};

    ghost Value = { AList WrittenSymbol };

    ghost view = { λ s. s.symbols.keys };
}

impl Symbols {
    /// `=` alone.
    pub fn new(alloc: Global) -> Mem<Symbols>
        ensures { IfOk result (λ s. s ≡ as_written equality ∷ []) }
    {
        let mut symbols = IndexSet::new(alloc);
        symbols.insert_full(WrittenSymbol {
            name: List::from_slice(alloc, b"=")?,
            arity: 2,
            role: Role::Predicate,
        })?;
        Ok(Symbols { symbols })
    }

    /// Adds the symbol of this name, arity and role, found at a byte. That byte is answered where there is no room. The
    /// name is copied only where the symbol is new.
    fn add(
        &mut self,
        alloc: Global,
        name: &[u8],
        arity: u64,
        role: Role,
        at: u64,
    ) -> Mem<Option<u64>>
        ensures { IfOk result (λ told. FindsMore (record { symbol = record { name = name.now; arity = arity; role = role }; at = at } ∷ []) self.old self.new told) }
    {
        if self.symbols.contains(Query { name, arity, role }) {
            return Ok(None);
        }
        if MAX_SYMBOLS <= self.symbols.len() {
            return Ok(Some(at));
        }
        let name = List::from_slice(alloc, name)?;
        self.symbols
            .insert_full(WrittenSymbol { name, arity, role })?;
        Ok(None)
    }
}

fn add_occurrence(
    alloc: Global,
    symbols: &mut Symbols,
    occurrence: &Occurrence,
    role: Role,
) -> Mem<Option<u64>>
    ensures { IfOk result (λ told. FindsMore (record { symbol = record { name = occurrence.now.name; arity = occurrence.now.arity; role = role }; at = occurrence.now.at } ∷ []) symbols.old symbols.new told) }
{
    let name = occurrence.name.as_slice();
    symbols.add(alloc, name, occurrence.arity, role, occurrence.at)
}

fn add_functions(alloc: Global, symbols: &mut Symbols, names: &[Occurrence]) -> Mem<Option<u64>>
    ensures { IfOk result (λ told. FindsMore (map spec.function_at (filter (λ o. not (spec.is_variable o)) names.now)) symbols.old symbols.new told) }
{
    for name in names {
        if !is_variable(name) {
            if let Some(at) = add_occurrence(alloc, symbols, name, Role::Function)? {
                return Ok(Some(at));
            }
        }
    }
    Ok(None)
}

fn add_literal(alloc: Global, symbols: &mut Symbols, literal: &WrittenLiteral) -> Mem<Option<u64>>
    ensures { IfOk result (λ told. FindsMore (spec.found_in literal.now) symbols.old symbols.new told) }
{
    if let Some(at) = add_occurrence(alloc, symbols, &literal.predicate, Role::Predicate)? {
        return Ok(Some(at));
    }
    add_functions(alloc, symbols, literal.arguments.as_slice())
}

/// Adds the symbols of a clause. Where there is no room for one, its first byte is answered.
pub fn add_clause(
    alloc: Global,
    symbols: &mut Symbols,
    clause: &[WrittenLiteral],
) -> Mem<Option<u64>>
    ensures { IfOk result (λ told. FindsMore (flat_map spec.found_in clause.now) symbols.old symbols.new told) }
{
    for literal in clause {
        if let Some(at) = add_literal(alloc, symbols, literal)? {
            return Ok(Some(at));
        }
    }
    Ok(None)
}
