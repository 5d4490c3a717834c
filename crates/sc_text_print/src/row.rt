//! Rows of a word and numbers.

ghost use Rattle.std.specs.Prelude.{◌≡◌, ◌∷◌, ◌++◌, codes, decimal, map, OnOk};
ghost use Rattle.sc_text_rules.specs.ProofText.{words};
ghost use Rattle.sc_text_run_rules.specs.ModelText.{row};

use crate::append::number as append_number;
use sc_term::Mem;

/// A space and the number.
pub fn spaced_number(n: u64, text: &mut Vec<u8>) -> Mem<()>
    ensures { OnOk result (text.new.items ≡ text.old.items ++ codes " " ++ decimal n) }
{
    text.push(b' ')?;
    append_number(n, text)
}

/// A word and numbers, with a space between each two.
pub fn word_and_numbers(word: &str, numbers: &[u32], text: &mut Vec<u8>) -> Mem<()>
    ensures { OnOk result (text.new.items ≡ text.old.items ++ words (word.now ∷ map decimal numbers.now)) }
{
    text.extend_from_slice(word.as_bytes())?;
    for n in numbers {
        spaced_number(u64::from(*n), text)?;
    }
    Ok(())
}

/// A colon and entries, with a space between each two.
pub fn colon_and_entries(entries: &[u8], text: &mut Vec<u8>) -> Mem<()>
    ensures { OnOk result (text.new.items ≡ text.old.items ++ words (codes ":" ∷ map decimal entries.now)) }
{
    text.push(b':')?;
    for e in entries {
        spaced_number(u64::from(*e), text)?;
    }
    Ok(())
}

/// A row of a word and numbers.
pub fn numbers_row(word: &str, numbers: &[u32], text: &mut Vec<u8>) -> Mem<()>
    ensures { OnOk result (text.new.items ≡ text.old.items ++ row (word.now ∷ map decimal numbers.now)) }
{
    word_and_numbers(word, numbers, text)?;
    text.extend_from_slice(b".\n")?;
    Ok(())
}
