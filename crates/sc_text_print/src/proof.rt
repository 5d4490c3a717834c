//! Proof sections.

ghost use Rattle.std.specs.Prelude.{◌≡◌, ◌++◌, IfOk, OnOk};
ghost use Rattle.sc_text_rules.specs.ProofText.{lines_text, proof_text};

use crate::line::line;
use sc_term::{Line, List, Mem, Signature};
use std::alloc::Global;

/// Appends the lines of a proof (`lines_text`), numbered from 1.
pub fn numbered_lines(sig: &Signature, lines: &[Line], text: &mut Vec<u8>) -> Mem<()>
    ensures { OnOk result (text.new.items ≡ text.old.items ++ lines_text sig.now 1 lines.now) }
{
    for (i, l) in lines.iter().enumerate() {
        line(sig, i as u64 + 1, l, text)?;
    }
    Ok(())
}

/// The proof section of the lines as bytes (`proof_text`): `proof.`, the lines with their numbers from 1, and
/// `end_of_proof.`, each with the end of its line.
pub fn print_proof(alloc: Global, sig: &Signature, lines: &List<Line>) -> Mem<Vec<u8>>
    ensures { IfOk result (λ text. text.items ≡ proof_text sig.now lines.now) }
{
    let mut text = Vec::from_slice(alloc, b"proof.\n")?;
    numbered_lines(sig, lines.as_slice(), &mut text)?;
    text.extend_from_slice(b"end_of_proof.\n")?;
    Ok(text)
}
