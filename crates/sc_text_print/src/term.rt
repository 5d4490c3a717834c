//! Terms, and names with their arguments.

ghost use Rattle.std.specs.Prelude.{◌≡◌, ◌++◌, map, OnOk};
ghost use Rattle.sc_text_rules.specs.ClauseText.{joined_by, in_brackets, name_of, applied, term_text};

use crate::append::{name, number, separator};
use sc_term::{Mem, Signature, SymId, Term};

#[cycle(term)]
pub fn term(sig: &Signature, t: &Term, text: &mut Vec<u8>) -> Mem<()>
    ensures { OnOk result (text.new.items ≡ text.old.items ++ term_text sig.now t.now) }
{
    match t {
        Term::Var(n) => {
            text.push(b'x')?;
            number(u64::from(*n), text)
        }
        Term::App(f, args) => application(sig, *f, args.as_slice(), text),
    }
}

/// The name, and the arguments in parentheses, if there are some.
#[cycle(term)]
pub fn application(sig: &Signature, id: SymId, args: &[Term], text: &mut Vec<u8>) -> Mem<()>
    ensures { OnOk result (text.new.items ≡ text.old.items ++ applied (name_of sig.now id) (map (term_text sig.now) args.now)) }
{
    name(sig, id, text)?;
    if args.is_empty() {
        return Ok(());
    }
    terms_in_brackets(sig, args, text)
}

/// The terms in parentheses, with commas between them.
#[cycle(term)]
pub fn terms_in_brackets(sig: &Signature, terms: &[Term], text: &mut Vec<u8>) -> Mem<()>
    ensures { OnOk result (text.new.items ≡ text.old.items ++ in_brackets (map (term_text sig.now) terms.now)) }
{
    text.push(b'(')?;
    joined_terms(sig, b",", terms, text)?;
    text.push(b')')?;
    Ok(())
}

/// The terms, with the bytes between each two.
#[cycle(term)]
pub fn joined_terms(sig: &Signature, between: &[u8], terms: &[Term], text: &mut Vec<u8>) -> Mem<()>
    ensures { OnOk result (text.new.items ≡ text.old.items ++ joined_by between.now (map (term_text sig.now) terms.now)) }
{
    for (i, t) in terms.iter().enumerate() {
        separator(i, between, text)?;
        term(sig, t, text)?;
    }
    Ok(())
}
