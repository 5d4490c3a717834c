//! Reading the clause of a line.

ghost use Rattle.std.specs.Prelude.{◌≡◌, map, IfOk};
ghost use Rattle.sc_input_rules.specs.Numbering.{literal_of};
ghost use Rattle.sc_input_scan.specs.Told.{Gives};
ghost use Rattle.sc_text_rules.specs.ProofGrammar as of;
ghost use Rattle.sc_text_section.specs.Clipped.{clipped_clause, seen_by};
ghost use Rattle.sc_text_section.specs.Numerals.{clipped_variable};

use crate::terms::{TextVariables, memory};
use sc_input_grammar::read_clause;
use sc_input_rules::{Sign, Token, WrittenLiteral};
use sc_input_scan::{Stop, the_sign};
use sc_input_values::literal_from;
use sc_term::{Clause, List, Mem, Signature};
use std::alloc::Global;

/// The clause that is written.
fn clause_from(alloc: Global, sig: &Signature, written: &[WrittenLiteral]) -> Mem<Clause>
    ensures { IfOk result (λ clause. clause ≡ record { literals = map (literal_of clipped_variable sig.now) written.now }) }
{
    let mut literals = List::new(alloc);
    for literal in written {
        literals.push(literal_from(alloc, &TextVariables, sig, literal)?)?;
    }
    Ok(Clause { literals })
}

/// A clause and its full stop. The number of a variable that is greater than 4,294,967,295 is answered as that.
pub fn read_text_clause<'t, 'a>(
    alloc: Global,
    sig: &Signature,
    tokens: &'t [Token<'a>],
) -> Result<(Clause, &'t [Token<'a>]), Stop>
    ensures { Gives (λ x. (x.0, x.1.now)) result (seen_by clipped_clause (of.text_clause sig.now tokens.now)) }
{
    let (written, rest) = read_clause(alloc, tokens)?;
    let rest = the_sign(Sign::Stop, rest)?;
    let clause = clause_from(alloc, sig, written.as_slice()).map_err(memory)?;
    Ok((clause, rest))
}
