//! The rows of given and kept clauses, of finders and of marks.

ghost use Rattle.std.specs.Prelude.{◌≡◌, ◌∷◌, [], ◌++◌, codes, decimal, flat_map, OnOk};
ghost use Rattle.sc_text_run_rules.specs.ModelText.{row};
ghost use Rattle.sc_text_run_rules.specs.RunText.{given_row, kept_row, finder_rows, mark_row, end_word};

use crate::clause::clause as append_clause;
use crate::row::{numbers_row, spaced_number, word_and_numbers};
use crate::words::{cause_word, end_word, truth_word};
use sc_core_rules::{GivenRow, KeptRow};
use sc_term::{Mem, Signature};
use sc_text_run_rules::{FinderEnd, MarkRow};

/// Turn, number, cause, the name of the guide, the truth there and the lengths of the lists.
fn given_row(g: &GivenRow, text: &mut Vec<u8>) -> Mem<()>
    ensures { OnOk result (text.new.items ≡ text.old.items ++ given_row g.now) }
{
    word_and_numbers("given", &[g.turn, g.number], text)?;
    text.push(b' ')?;
    word_and_numbers(cause_word(g.cause), &[g.name.finder, g.name.place], text)?;
    text.push(b' ')?;
    numbers_row(truth_word(g.truth), g.lengths.as_slice(), text)
}

pub fn given_rows(rows: &[GivenRow], text: &mut Vec<u8>) -> Mem<()>
    ensures { OnOk result (text.new.items ≡ text.old.items ++ flat_map given_row rows.now) }
{
    for g in rows {
        given_row(g, text)?;
    }
    Ok(())
}

/// Number, turn and weight, and the clause behind a colon.
fn kept_row(sig: &Signature, k: &KeptRow, text: &mut Vec<u8>) -> Mem<()>
    ensures { OnOk result (text.new.items ≡ text.old.items ++ kept_row sig.now k.now) }
{
    word_and_numbers("kept", &[k.number, k.turn, k.weight], text)?;
    text.extend_from_slice(b" : ")?;
    append_clause(sig, &k.clause, text)?;
    text.extend_from_slice(b".\n")?;
    Ok(())
}

pub fn kept_rows(sig: &Signature, rows: &[KeptRow], text: &mut Vec<u8>) -> Mem<()>
    ensures { OnOk result (text.new.items ≡ text.old.items ++ flat_map (kept_row sig.now) rows.now) }
{
    for k in rows {
        kept_row(sig, k, text)?;
    }
    Ok(())
}

/// The finder's number and how it ended.
fn finder_row(finder: u64, end: FinderEnd, text: &mut Vec<u8>) -> Mem<()>
    ensures { OnOk result (text.new.items ≡ text.old.items ++ row (codes "finder" ∷ decimal finder ∷ end_word end ∷ [])) }
{
    text.extend_from_slice(b"finder")?;
    spaced_number(finder, text)?;
    text.push(b' ')?;
    text.extend_from_slice(end_word(end).as_bytes())?;
    text.extend_from_slice(b".\n")?;
    Ok(())
}

/// How the finders ended, finder 1 first.
pub fn finder_rows(ends: &[FinderEnd], text: &mut Vec<u8>) -> Mem<()>
    ensures { OnOk result (text.new.items ≡ text.old.items ++ finder_rows 1 ends.now) }
{
    for (i, end) in ends.iter().enumerate() {
        finder_row(i as u64 + 1, *end, text)?;
    }
    Ok(())
}

/// Line, the name of the version and the truth there.
fn mark_row(m: &MarkRow, text: &mut Vec<u8>) -> Mem<()>
    ensures { OnOk result (text.new.items ≡ text.old.items ++ mark_row m.now) }
{
    word_and_numbers("mark", &[m.line, m.name.finder, m.name.place], text)?;
    text.push(b' ')?;
    numbers_row(truth_word(m.truth), &[], text)
}

pub fn mark_rows(marks: &[MarkRow], text: &mut Vec<u8>) -> Mem<()>
    ensures { OnOk result (text.new.items ≡ text.old.items ++ flat_map mark_row marks.now) }
{
    for m in marks {
        mark_row(m, text)?;
    }
    Ok(())
}
