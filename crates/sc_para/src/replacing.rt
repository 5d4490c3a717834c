//! Subterms by their path, and what becomes of arguments where one is replaced.

ghost use Rattle.std.specs.Prelude.{◌≡◌, ◌≢◌, ◌<◌, ◌≤◌, ◌++◌, List as AList, length, slice_set, true, IfOk, IfSome, IfNone, OnSome, MatchOption};
ghost use Rattle.std.specs.Option.{option_copied};
ghost use Rattle.sc_term.specs.declared.Term.{Term as ATerm};
ghost use Rattle.sc_term.specs.Numbering.{numbered};
ghost use Rattle.sc_term.specs.Path.{IsSubtermAt, IsReplaced};
ghost use Rattle.sc_steps.specs.Replacement.{IsTermReplaced};

use sc_term::{List, Mem, Term, copy_term, copy_terms};
use std::alloc::Global;

/// Argument number n, from 1.
fn argument(args: &[Term], n: u32) -> Option<&Term>
    ensures value { option_copied result ≡ numbered args.now n }
    ensures there { OnSome result (0 < n) }
    ensures within { OnSome result (n ≤ length args.now) }
{
    if n == 0 {
        None
    } else {
        args.get(n as usize - 1)
    }
}

/// The subterm at the path.
pub fn subterm_at<'a>(args: &'a [Term], path: &[u32]) -> Option<&'a Term>
    ensures found { IfSome result (λ s. IsSubtermAt args.now path.now s.now) }
    ensures none { IfNone result ((s : ATerm) → ¬ IsSubtermAt args.now path.now s) }
{
    let Some((n, rest)) = path.split_first() else {
        return None;
    };
    let Some(next) = argument(args, *n) else {
        return None;
    };
    if rest.is_empty() {
        return Some(next);
    }
    match next {
        Term::App(_, inner) => subterm_at(inner.as_slice(), rest),
        Term::Var(_) => None,
    }
}

/// The arguments with another one at this place.
fn with_argument(alloc: Global, args: &[Term], at: usize, changed: Term) -> Mem<List<Term>>
    requires { at < length args.now }
    ensures { IfOk result (λ all. all ≡ slice_set args.now at changed) }
{
    let mut all = copy_terms(alloc, &args[..at])?;
    all.push(changed)?;
    all.append(copy_terms(alloc, &args[at + 1..])?)?;
    Ok(all)
}

/// The term with the subterm at the path, or the term itself for the empty path, replaced by t.
#[cycle(replace)]
fn replaced_within(alloc: Global, old: &Term, path: &[u32], t: &Term) -> Mem<Option<Term>>
    ensures { IfOk result (λ found. MatchOption found ((s new : ATerm) → ¬ IsTermReplaced old.now path.now s t.now new) (λ new. (s : ATerm) × IsTermReplaced old.now path.now s t.now new)) }
{
    if path.is_empty() {
        return Ok(Some(copy_term(alloc, t)?));
    }
    match old {
        Term::Var(_) => Ok(None),
        Term::App(f, inner) => match replaced(alloc, inner.as_slice(), path, t)? {
            Some(changed) => Ok(Some(Term::App(*f, changed))),
            None => Ok(None),
        },
    }
}

/// The arguments with the subterm at the path replaced by t, or None where there is none.
#[cycle(replace)]
pub fn replaced(alloc: Global, args: &[Term], path: &[u32], t: &Term) -> Mem<Option<List<Term>>>
    ensures { IfOk result (λ found. MatchOption found ((s : ATerm) (new : AList ATerm) → ¬ IsReplaced args.now path.now s t.now new) (λ new. (s : ATerm) × IsReplaced args.now path.now s t.now new)) }
{
    let Some((n, rest)) = path.split_first() else {
        return Ok(None);
    };
    let Some(old) = argument(args, *n) else {
        return Ok(None);
    };
    match replaced_within(alloc, old, rest, t)? {
        Some(changed) => Ok(Some(with_argument(alloc, args, *n as usize - 1, changed)?)),
        None => Ok(None),
    }
}
