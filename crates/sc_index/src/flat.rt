//! Literals and terms as rows of cells in preorder.

ghost use Rattle.std.specs.Prelude.{◌≡◌, ◌++◌, map, OnOk, IfOk};
ghost use Rattle.sc_term.specs.Term.{joined};
ghost use Rattle.sc_index.specs.Flat.{term_cells, literal_cells};

use sc_term::{Literal, Mem, SymId, Term};
use std::alloc::Global;

/// What stands at a place: a variable, a function symbol with the number of its arguments, or a sign with a predicate.
#[derive(Clone, Copy, Debug, PartialEq, Eq)]
pub enum Key {
    Variable,
    Symbol(SymId, usize),
    Atom(bool, SymId),
}

/// A key, and how many cells its arguments have.
#[derive(Clone, Copy, Debug)]
pub struct Cell {
    pub key: Key,
    pub below: usize,
}

/// Adds the cells of the term.
#[cycle(flatten)]
fn add_term(t: &Term, cells: &mut Vec<Cell>) -> Mem<()>
    ensures { OnOk result (cells.new.items ≡ cells.old.items ++ term_cells t.now) }
{
    match t {
        Term::Var(_) => cells.push(Cell {
            key: Key::Variable,
            below: 0,
        })?,
        Term::App(f, args) => {
            let start = cells.len();
            let key = Key::Symbol(*f, args.len());
            cells.push(Cell { key, below: 0 })?;
            add_terms(args.as_slice(), cells)?;
            let below = cells.len() - start - 1;
            cells[start] = Cell { key, below };
        }
    }
    Ok(())
}

#[cycle(flatten)]
fn add_terms(terms: &[Term], cells: &mut Vec<Cell>) -> Mem<()>
    ensures { OnOk result (cells.new.items ≡ cells.old.items ++ joined (map term_cells terms.now)) }
{
    for term in terms {
        add_term(term, cells)?;
    }
    Ok(())
}

/// The cells of the literal, whose sign and predicate come first.
pub fn flatten(alloc: Global, l: &Literal) -> Mem<Vec<Cell>>
    ensures { IfOk result (λ cells. cells.items ≡ literal_cells l.now) }
{
    let mut cells = Vec::new(alloc);
    cells.push(Cell {
        key: Key::Atom(l.positive, l.pred),
        below: 0,
    })?;
    add_terms(l.args.as_slice(), &mut cells)?;
    Ok(cells)
}
