//! A subterm replaced.

ghost use Rattle.std.specs.Prelude.{◌≡◌, ◌<◌, length, slice_set, IfOk, IsSomeAnd};
ghost use Rattle.sc_term.specs.Numbering.{numbered};
ghost use Rattle.sc_term.specs.Path.{IsSubtermAt, IsReplaced};
ghost use Rattle.sc_steps.specs.Replacement.{IsTermReplaced};
ghost use Rattle.sc_demod.specs.Finding.{IsWithin};
ghost use Rattle.sc_demod.specs.Rewriting.{IsPutIn};

use sc_term::{Clause, List, Literal, Mem, Term, copy, copy_term, copy_terms};
use std::alloc::Global;

/// Copies of the terms, with another one at the place.
fn with_term(alloc: Global, args: &[Term], at: usize, new: Term) -> Mem<List<Term>>
    requires { at < length args.now }
    ensures { IfOk result (λ all. all ≡ slice_set args.now at new) }
{
    let mut all = copy_terms(alloc, &args[..at])?;
    all.push(new)?;
    let behind = copy_terms(alloc, &args[at + 1..])?;
    all.append(behind)?;
    Ok(all)
}

/// The term with the value in the place of its subterm at the path, which is the redex. It recurs as deep as the path.
#[cycle(replace)]
fn replace_in_term(alloc: Global, t: &Term, path: &[u32], redex: &Term, value: &Term) -> Mem<Term>
    requires { IsWithin t.now path.now redex.now }
    ensures { IfOk result (λ new. IsTermReplaced t.now path.now redex.now value.now new) }
{
    if path.is_empty() {
        return copy_term(alloc, value);
    }
    match t {
        Term::App(f, args) => {
            let new = replace_in_terms(alloc, args.as_slice(), path, redex, value)?;
            Ok(Term::App(*f, new))
        }
        Term::Var(_) => unreachable!(),
    }
}

/// The arguments with the value in the place of their subterm at the path, which is the redex.
#[cycle(replace)]
fn replace_in_terms(
    alloc: Global,
    args: &[Term],
    path: &[u32],
    redex: &Term,
    value: &Term,
) -> Mem<List<Term>>
    requires { IsSubtermAt args.now path.now redex.now }
    ensures { IfOk result (λ new. IsReplaced args.now path.now redex.now value.now new) }
{
    let Some((n, rest)) = path.split_first() else {
        unreachable!();
    };
    let at = *n as usize - 1;
    let new = replace_in_term(alloc, &args[at], rest, redex, value)?;
    with_term(alloc, args, at, new)
}

/// The clause with the value in the place of the redex, which is at the path of literal b.
pub fn put_in(
    alloc: Global,
    c: &Clause,
    b: u32,
    path: &[u32],
    redex: &Term,
    value: &Term,
) -> Mem<Clause>
    requires { IsSomeAnd (numbered c.now.literals b) (λ l. IsSubtermAt l.args path.now redex.now) }
    ensures { IfOk result (λ d. IsPutIn c.now b path.now redex.now value.now d) }
{
    let at = b as usize - 1;
    let old = &c.literals.as_slice()[at];
    let args = replace_in_terms(alloc, old.args.as_slice(), path, redex, value)?;
    let literal = Literal {
        positive: old.positive,
        pred: old.pred,
        args,
    };
    let copied = copy(alloc, c)?;
    let mut literals = copied.literals;
    literals.set(at, literal);
    Ok(Clause { literals })
}
