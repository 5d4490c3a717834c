//! Tables.

ghost use Rattle.std.specs.Prelude.{◌≡◌, ◌+◌, ◌++◌, map, slice_get, IfOk, OnOk};
ghost use Rattle.sc_interp.specs.declared.table.Table.{Table as ATable};
ghost use Rattle.sc_text_run_rules.specs.ModelText.{table_row, table_rows, without_equality, model_text};
ghost use Rattle.sc_text_run_rules.specs.RunValue.{entries_of};
ghost use Rattle.sc_text_print.specs.TableAt.{row_of};

use crate::row::{colon_and_entries, spaced_number};
use crate::words::role_word;
use sc_interp::{Table, Tables};
use sc_term::{Mem, Signature, SymId, Symbol};
use std::alloc::Global;

/// Role, name and arity of the symbol, a colon and the entries.
fn table_row(symbol: &Symbol, entries: &[u8], text: &mut Vec<u8>) -> Mem<()>
    ensures { OnOk result (text.new.items ≡ text.old.items ++ table_row symbol.now entries.now) }
{
    text.extend_from_slice(role_word(symbol.role).as_bytes())?;
    text.push(b' ')?;
    text.extend_from_slice(symbol.name.as_slice())?;
    spaced_number(u64::from(symbol.arity), text)?;
    text.push(b' ')?;
    colon_and_entries(entries, text)?;
    text.extend_from_slice(b".\n")?;
    Ok(())
}

/// The row of the table at this index, from 0; nothing where the signature has no symbol for it.
fn row_at(sig: &Signature, index: usize, entries: &[u8], text: &mut Vec<u8>) -> Mem<()>
    ensures { OnOk result (text.new.items ≡ text.old.items ++ row_of (slice_get sig.now (index + 1)) entries.now) }
{
    if index >= sig.len() as usize - 1 {
        return Ok(());
    }
    table_row(sig.symbol(SymId(index as u32 + 1)), entries, text)
}

/// The rows of the tables, symbol 1 first.
pub fn table_rows(sig: &Signature, tables: &[Table], text: &mut Vec<u8>) -> Mem<()>
    ensures { OnOk result (text.new.items ≡ text.old.items ++ table_rows (without_equality sig.now) (map (λ (table : ATable). table.entries) tables.now)) }
{
    for (i, table) in tables.iter().enumerate() {
        row_at(sig, i, table.entries.as_slice(), text)?;
    }
    Ok(())
}

/// The tables as bytes (`model_text`): the row of their size, a row for each symbol of the signature but `=`, with its
/// role, name, arity and entries, and `end_of_model.`, each with the end of its line.
pub fn print_model(alloc: Global, sig: &Signature, tables: &Tables) -> Mem<Vec<u8>>
    ensures { IfOk result (λ text. text.items ≡ model_text sig.now tables.now.size (entries_of tables.now)) }
{
    let mut text = Vec::from_slice(alloc, b"model")?;
    spaced_number(u64::from(tables.size()), &mut text)?;
    text.extend_from_slice(b".\n")?;
    table_rows(sig, tables.tables(), &mut text)?;
    text.extend_from_slice(b"end_of_model.\n")?;
    Ok(text)
}
