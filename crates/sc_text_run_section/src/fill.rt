//! Tables with entries that were read.

ghost use Rattle.std.specs.Prelude.{◌≡◌, ◌<◌, ◌-◌, ◌^◌, All, length, IsSomeAnd};
ghost use Rattle.sc_term.specs.Numbering.{numbered};
ghost use Rattle.sc_text_run_section.specs.Filling.{MayFill, MayFillAll, with_entries, filled};

use sc_interp::Tables;
use sc_term::{List, SymId};

/// Puts the entries into the symbol's table.
fn fill_table(tables: &mut Tables, symbol: SymId, entries: &[u8])
    requires there { IsSomeAnd (numbered tables.old.tables symbol.0) (λ table. MayFill tables.old.size table entries.now) }
    requires few { length entries.now < 2 ^ 32 }
    ensures { tables.new ≡ with_entries tables.old symbol entries.now }
{
    for (place, entry) in entries.iter().enumerate() {
        tables.set(symbol, place as u32, *entry);
    }
}

/// Puts the entries of each row into the table at its place.
pub fn fill(tables: &mut Tables, rows: &[List<u8>])
    requires rows { MayFillAll tables.old.size tables.old.tables rows.now }
    requires few { length rows.now < 2 ^ 32 - 1 }
    requires short { All (λ row. length row < 2 ^ 32) rows.now }
    ensures { tables.new ≡ record tables.old { tables = filled tables.old.tables rows.now } }
{
    for (i, row) in rows.iter().enumerate() {
        fill_table(tables, SymId(i as u32 + 1), row.as_slice());
    }
}
