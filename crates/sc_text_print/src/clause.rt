//! Literals and clauses.

ghost use Rattle.std.specs.Prelude.{◌≡◌, ◌++◌, codes, map, IfOk, OnOk};
ghost use Rattle.sc_text_rules.specs.ClauseText.{joined_by, literal_text, clause_text};

use crate::append::separator;
use crate::term::{application, joined_terms};
use sc_term::{Clause, Literal, Mem, Signature};
use std::alloc::Global;

fn literal(sig: &Signature, l: &Literal, text: &mut Vec<u8>) -> Mem<()>
    ensures { OnOk result (text.new.items ≡ text.old.items ++ literal_text sig.now l.now) }
{
    let args = l.args.as_slice();
    if l.pred.0 == 0 {
        if l.positive {
            joined_terms(sig, b"=", args, text)
        } else {
            joined_terms(sig, b"!=", args, text)
        }
    } else {
        if !l.positive {
            text.push(b'-')?;
        }
        application(sig, l.pred, args, text)
    }
}

fn joined_literals(sig: &Signature, literals: &[Literal], text: &mut Vec<u8>) -> Mem<()>
    ensures { OnOk result (text.new.items ≡ text.old.items ++ joined_by (codes " | ") (map (literal_text sig.now) literals.now)) }
{
    for (i, l) in literals.iter().enumerate() {
        separator(i, b" | ", text)?;
        literal(sig, l, text)?;
    }
    Ok(())
}

/// Appends the clause (`clause_text`): `$F` for the empty one, or the literals with ` | ` between them.
pub fn clause(sig: &Signature, c: &Clause, text: &mut Vec<u8>) -> Mem<()>
    ensures { OnOk result (text.new.items ≡ text.old.items ++ clause_text sig.now c.now) }
{
    if c.literals.is_empty() {
        text.extend_from_slice(b"$F")?;
        return Ok(());
    }
    joined_literals(sig, c.literals.as_slice(), text)
}

/// The clause as bytes (`clause_text`): `-p(x0) | x0!=a`, or `$F` for the empty one.
pub fn print_clause(alloc: Global, sig: &Signature, c: &Clause) -> Mem<Vec<u8>>
    ensures { IfOk result (λ text. text.items ≡ clause_text sig.now c.now) }
{
    let mut text = Vec::new(alloc);
    clause(sig, c, &mut text)?;
    Ok(text)
}
