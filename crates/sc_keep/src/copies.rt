//! Copies of what a problem has.

ghost use Rattle.std.specs.Prelude.{◌≡◌, IfOk};

use sc_term::{Clause, List, Mem, Signature, SymId, Symbol, copy};
use std::alloc::Global;

/// A copy of the symbol.
fn copy_symbol(alloc: Global, symbol: &Symbol) -> Mem<Symbol>
    ensures { IfOk result (λ made. made ≡ symbol.now) }
{
    let name = List::from_slice(alloc, symbol.name.as_slice())?;
    Ok(Symbol {
        name,
        arity: symbol.arity,
        role: symbol.role,
    })
}

/// The symbols in the order of their numbers.
pub fn copy_symbols(alloc: Global, sig: &Signature) -> Mem<List<Symbol>>
    ensures { IfOk result (λ made. made ≡ sig.now) }
{
    let mut made = List::new(alloc);
    for n in 0..sig.len() {
        let symbol = copy_symbol(alloc, sig.symbol(SymId(n)))?;
        made.push(symbol)?;
    }
    Ok(made)
}

/// Copies of the clauses.
pub fn copy_clauses(alloc: Global, clauses: &[Clause]) -> Mem<List<Clause>>
    ensures { IfOk result (λ made. made ≡ clauses.now) }
{
    let mut made = List::new(alloc);
    for clause in clauses {
        made.push(copy(alloc, clause)?)?;
    }
    Ok(made)
}
