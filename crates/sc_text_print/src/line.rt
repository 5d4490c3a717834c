//! Steps and lines.

ghost use Rattle.std.specs.Prelude.{◌≡◌, ◌++◌, ◌∷◌, [], codes, decimal, map, OnOk};
ghost use Rattle.sc_text_rules.specs.ClauseText.{joined_by, in_brackets, term_text};
ghost use Rattle.sc_text_rules.specs.ProofText.{words, step_words, side_word, line_text};

use crate::append::{number, separator};
use crate::clause::clause;
use crate::term::terms_in_brackets;
use sc_term::{Line, Mem, Side, Signature, Step};

fn side_word(side: Side) -> &'static str
    ensures { result.now ≡ side_word side }
{
    match side {
        Side::Left => "left",
        Side::Right => "right",
    }
}

/// The numbers, with the bytes between each two.
fn joined_numbers(between: &[u8], numbers: &[u32], text: &mut Vec<u8>) -> Mem<()>
    ensures { OnOk result (text.new.items ≡ text.old.items ++ joined_by between.now (map decimal numbers.now)) }
{
    for (i, n) in numbers.iter().enumerate() {
        separator(i, between, text)?;
        number(u64::from(*n), text)?;
    }
    Ok(())
}

/// A path, in parentheses.
fn numbers_in_brackets(numbers: &[u32], text: &mut Vec<u8>) -> Mem<()>
    ensures { OnOk result (text.new.items ≡ text.old.items ++ in_brackets (map decimal numbers.now)) }
{
    text.push(b'(')?;
    joined_numbers(b",", numbers, text)?;
    text.push(b')')?;
    Ok(())
}

/// A name and numbers, with a space between each two.
fn numbered_step(step: &str, numbers: &[u32], text: &mut Vec<u8>) -> Mem<()>
    ensures { OnOk result (text.new.items ≡ text.old.items ++ step.now ++ codes " " ++ joined_by (codes " ") (map decimal numbers.now)) }
{
    text.extend_from_slice(step.as_bytes())?;
    text.push(b' ')?;
    joined_numbers(b" ", numbers, text)
}

/// The words of a `para` step from its side on.
fn into_words(side: Side, numbers: &[u32], path: &[u32], text: &mut Vec<u8>) -> Mem<()>
    ensures { OnOk result (text.new.items ≡ text.old.items ++ (side_word side ++ codes " " ++ joined_by (codes " ") (map decimal numbers.now) ++ codes " " ++ in_brackets (map decimal path.now))) }
{
    numbered_step(side_word(side), numbers, text)?;
    text.push(b' ')?;
    numbers_in_brackets(path, text)
}

/// The words of the step, with a space between each two.
fn step(sig: &Signature, step: &Step, text: &mut Vec<u8>) -> Mem<()>
    ensures { OnOk result (text.new.items ≡ text.old.items ++ words (step_words sig.now step.now)) }
{
    match step {
        Step::Input(k) => numbered_step("input", &[*k], text),
        Step::Instance { of, terms } => {
            numbered_step("instance", &[*of], text)?;
            text.push(b' ')?;
            terms_in_brackets(sig, terms.as_slice(), text)
        }
        Step::Resolve {
            left,
            left_lit,
            right,
            right_lit,
        } => numbered_step("resolve", &[*left, *left_lit, *right, *right_lit], text),
        Step::Merge { of, lit } => numbered_step("merge", &[*of, *lit], text),
        Step::Para {
            from,
            from_lit,
            side,
            into,
            into_lit,
            path,
        } => {
            numbered_step("para", &[*from, *from_lit], text)?;
            text.push(b' ')?;
            into_words(*side, &[*into, *into_lit], path.as_slice(), text)
        }
        Step::Flip { of, lit } => numbered_step("flip", &[*of, *lit], text),
    }
}

/// Number, step, colon and clause, a full stop and the end of the line.
pub fn line(sig: &Signature, k: u64, l: &Line, text: &mut Vec<u8>) -> Mem<()>
    ensures { OnOk result (text.new.items ≡ text.old.items ++ line_text sig.now k l.now) }
{
    number(k, text)?;
    text.push(b' ')?;
    step(sig, &l.step, text)?;
    text.extend_from_slice(b" : ")?;
    clause(sig, &l.clause, text)?;
    text.extend_from_slice(b".\n")?;
    Ok(())
}
