//! Names, numbers and what stands between texts.

ghost use Rattle.std.specs.Prelude.{◌≡◌, ◌==◌, [], ◌++◌, OnOk, decimal, if◌then◌else◌};
ghost use Rattle.sc_text_rules.specs.ClauseText.{name_of};

use itoa::Buffer;
use sc_term::{Mem, Signature, SymId};

/// Appends the decimal digits of the number.
pub fn number(n: u64, text: &mut Vec<u8>) -> Mem<()>
    ensures { OnOk result (text.new.items ≡ text.old.items ++ decimal n) }
{
    let mut buffer = Buffer::new();
    text.extend_from_slice(buffer.format(n).as_bytes())?;
    Ok(())
}

/// The name of the symbol, nothing where the signature doesn't have it.
pub fn name(sig: &Signature, id: SymId, text: &mut Vec<u8>) -> Mem<()>
    ensures { OnOk result (text.new.items ≡ text.old.items ++ name_of sig.now id) }
{
    if id.0 < sig.len() {
        text.extend_from_slice(sig.symbol(id).name.as_slice())?;
    }
    Ok(())
}

/// What stands before the text of this index, from 0, in a row.
pub fn separator(index: usize, between: &[u8], text: &mut Vec<u8>) -> Mem<()>
    ensures { OnOk result (text.new.items ≡ text.old.items ++ (if index == 0 then [] else between.now)) }
{
    if index != 0 {
        text.extend_from_slice(between)?;
    }
    Ok(())
}
