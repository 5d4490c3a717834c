//! A symbol that is asked for by a borrowed name.

ghost use Rattle.std.specs.Prelude.{◌≡◌, ◌==◌, ◌++◌, IsTrue};
ghost use Rattle.std.proofs.Common.{rules};
ghost use Rattle.std.specs.Hash as fed;
ghost use Rattle.std.specs.Cmp.Rules.{comparing, hashing};
ghost use Rattle.sc_term.specs.Symbol.{same_symbol};
ghost use Rattle.sc_term.specs.Query.{same_query, symbol_of};

use crate::symbol::{Role, Symbol, role_number};
use indexmap::Equivalent;
use std::hash::{Hash, Hasher};

/// The parts of a symbol, its name borrowed: what a set of symbols is asked for.
#[derive(Clone, Copy)]
pub struct Query<'a> {
    pub name: &'a [u8],
    pub arity: u8,
    pub role: Role,
}

impl<'a> PartialEq for Query<'a> {
    ghost eq = { same_query };

    ghost laws = { Prim.search (comparing, rules) };

    fn eq(&self, other: &Query<'a>) -> bool {
        self.name == other.name
            && self.arity == other.arity
            && role_number(self.role) == role_number(other.role)
    }
}

impl<'a> Eq for Query<'a> {
    ghost laws = { Prim.search (comparing, rules) };
}

impl<'a> Hash for Query<'a> {
    ghost hash_input = { λ q. fed.slice fed.u8 q.name.now ++ fed.u8 q.arity };

    ghost respects_eq = { Prim.search (hashing, rules) };

    fn hash<H: Hasher>(&self, state: &mut H) {
        self.name.hash(state);
        self.arity.hash(state);
    }
}

impl<'a> Equivalent<Symbol> for Query<'a> {
    ghost equivalent = { λ q s. same_symbol (symbol_of q) s };

    ghost respects_hash = { Prim.search (hashing, rules) };

    ghost respects_eq = { Prim.search (comparing, rules) };

    fn equivalent(&self, symbol: &Symbol) -> bool {
        self.name == symbol.name.as_slice()
            && self.arity == symbol.arity
            && role_number(self.role) == role_number(symbol.role)
    }
}
