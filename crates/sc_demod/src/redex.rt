//! Whether a clause has a redex. No path is put together, so a clause may weigh anything.

ghost use Rattle.std.specs.Prelude.{◌↔◌, IfOk, IsTrue};
ghost use Rattle.sc_term.specs.Path.{IsSubtermAt};
ghost use Rattle.sc_core_rules.specs.Rewriting.{HasRedex};
ghost use Rattle.sc_demod.specs.Finding.{IsWithin, FitsSome, FindsSome};

use crate::fit::first_fit;
use sc_term::{Clause, Mem, Numbered, Term};
use std::alloc::Global;
use std::slice;

/// Whether a demodulator fits the term.
fn fits_some(alloc: Global, demods: &[Numbered], t: &Term) -> Mem<bool>
    ensures { IfOk result (λ has. IsTrue has ↔ FitsSome demods.now t.now) }
{
    Ok(first_fit(alloc, demods, t)?.is_some())
}

/// Whether the term or a subterm of it is a redex. It recurs as deep as the term is.
#[cycle(has_redex)]
fn has_redex_in_term(alloc: Global, demods: &[Numbered], t: &Term) -> Mem<bool>
    ensures { IfOk result (λ has. IsTrue has ↔ FindsSome demods.now (IsWithin t.now)) }
{
    match t {
        Term::Var(_) => Ok(false),
        Term::App(_, args) => {
            if has_redex_in_terms(alloc, demods, args.as_slice())? {
                return Ok(true);
            }
            fits_some(alloc, demods, t)
        }
    }
}

/// Whether one of the arguments or a subterm of them is a redex.
#[cycle(has_redex)]
fn has_redex_in_terms(alloc: Global, demods: &[Numbered], args: &[Term]) -> Mem<bool>
    ensures { IfOk result (λ has. IsTrue has ↔ FindsSome demods.now (IsSubtermAt args.now)) }
{
    for i in 0..args.len() {
        if has_redex_in_term(alloc, demods, &args[i])? {
            return Ok(true);
        }
    }
    Ok(false)
}

/// Whether the clause has a redex by the demodulator: a subterm, no variable, that is an instance of its left side
/// (`HasRedex`). The walk ends at the first.
pub fn has_redex(alloc: Global, c: &Clause, d: &Numbered) -> Mem<bool>
    ensures { IfOk result (λ has. IsTrue has ↔ HasRedex c.now d.now) }
{
    let demods = slice::from_ref(d);
    let literals = c.literals.as_slice();
    for i in 0..literals.len() {
        if has_redex_in_terms(alloc, demods, literals[i].args.as_slice())? {
            return Ok(true);
        }
    }
    Ok(false)
}
