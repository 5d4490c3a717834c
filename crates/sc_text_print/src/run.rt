//! Runs.

ghost use Rattle.std.specs.Prelude.{◌≡◌, ◌∷◌, [], ◌++◌, codes, decimal, IfOk, OnOk};
ghost use Rattle.sc_text_rules.specs.ProofText.{proof_text};
ghost use Rattle.sc_text_run_rules.specs.ModelText.{row};
ghost use Rattle.sc_text_run_rules.specs.RunText.{outcome_words, proof_part, run_text};
ghost use Rattle.sc_text_run_rules.specs.RunValue.{run_value};

use crate::proof::numbered_lines as append_lines;
use crate::row::{numbers_row, spaced_number};
use crate::turns::{finder_rows, given_rows, kept_rows, mark_rows};
use crate::versions::lists;
use sc_core_rules::Outcome;
use sc_term::{Line, Mem, Signature};
use sc_text_run_rules::{MarkRow, RunText};
use std::alloc::Global;

/// The rows before the versions: the number of lists, and the ratio.
fn heading(lists: u64, ratio: u32, text: &mut Vec<u8>) -> Mem<()>
    ensures { OnOk result (text.new.items ≡ text.old.items ++ (row (codes "run" ∷ []) ++ row (codes "lists" ∷ decimal lists ∷ []) ++ row (codes "ratio" ∷ decimal ratio ∷ []))) }
{
    text.extend_from_slice(b"run.\nlists")?;
    spaced_number(lists, text)?;
    text.extend_from_slice(b".\n")?;
    numbers_row("ratio", &[ratio], text)
}

/// The outcome, with its number, if it has one.
fn end_row(outcome: Outcome, text: &mut Vec<u8>) -> Mem<()>
    ensures { OnOk result (text.new.items ≡ text.old.items ++ row (codes "end" ∷ outcome_words outcome)) }
{
    match outcome {
        Outcome::Proof => numbers_row("end proof", &[], text),
        Outcome::SosEmpty => numbers_row("end sos_empty", &[], text),
        Outcome::GivenLimit(n) => numbers_row("end given_limit", &[n], text),
        Outcome::KeptLimit(n) => numbers_row("end kept_limit", &[n], text),
        Outcome::WorkLimit(n) => numbers_row("end work_limit", &[n], text),
    }
}

fn proof_section(sig: &Signature, lines: &[Line], text: &mut Vec<u8>) -> Mem<()>
    ensures { OnOk result (text.new.items ≡ text.old.items ++ proof_text sig.now lines.now) }
{
    text.extend_from_slice(b"proof.\n")?;
    append_lines(sig, lines, text)?;
    text.extend_from_slice(b"end_of_proof.\n")?;
    Ok(())
}

/// The proof section and the marks of its lines, where the outcome is a proof.
fn proof_part(
    sig: &Signature,
    outcome: Outcome,
    lines: &[Line],
    marks: &[MarkRow],
    text: &mut Vec<u8>,
) -> Mem<()>
    ensures { OnOk result (text.new.items ≡ text.old.items ++ proof_part sig.now outcome lines.now marks.now) }
{
    match outcome {
        Outcome::Proof => {
            proof_section(sig, lines, text)?;
            mark_rows(marks, text)
        }
        Outcome::SosEmpty => Ok(()),
        Outcome::GivenLimit(_) => Ok(()),
        Outcome::KeptLimit(_) => Ok(()),
        Outcome::WorkLimit(_) => Ok(()),
    }
}

/// The run as bytes (`run_text`): `run.`, the number of lists, the ratio, the versions by finder and place, the rows of
/// given and of kept clauses, how the finders ended, the outcome, where that is a proof its section and the marks of
/// its lines, and `end_of_run.`, each with the end of its line.
pub fn print_run(alloc: Global, sig: &Signature, run: &RunText) -> Mem<Vec<u8>>
    ensures { IfOk result (λ text. text.items ≡ run_text sig.now (run_value run.now)) }
{
    let mut text = Vec::new(alloc);
    heading(run.lists.len() as u64, run.ratio, &mut text)?;
    lists(sig, run.lists.as_slice(), &mut text)?;
    given_rows(run.given.as_slice(), &mut text)?;
    kept_rows(sig, run.kept.as_slice(), &mut text)?;
    finder_rows(run.ends.as_slice(), &mut text)?;
    end_row(run.outcome, &mut text)?;
    proof_part(
        sig,
        run.outcome,
        run.proof.as_slice(),
        run.marks.as_slice(),
        &mut text,
    )?;
    text.extend_from_slice(b"end_of_run.\n")?;
    Ok(text)
}
