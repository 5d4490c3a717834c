//! Tables over a signature.

ghost use Rattle.std.specs.Prelude.{◌≡◌, ◌≤◌, ◌<◌, ◌^◌, map, drop, replicate, List as AList, length, slice_get, IsSomeAnd, IfOk, OnOk, IfErr};
ghost use Rattle.sc_interp.specs.Structure.{zero_table, zeros, entry_count, entry_at, with_entry_in, with_entry, HasPlace, MayHold, IsStructure, AreTablesOf};
ghost use Rattle.sc_term.specs.declared.symbol.Symbol.{Symbol as ASymbol};
ghost use Rattle.sc_interp.specs.Tables.{IsCauseOfTables};

use crate::copies::copy_tables;
use crate::evaluate::entry;
use crate::table::Table;
use sc_term::{List, MAX_ENTRIES, Mem, OutOfMemory, Signature, SymId};
use std::alloc::Global;
use std::marker::Model;
use thiserror::Error;

/// Why tables weren't made.
#[derive(Clone, Copy, Debug, PartialEq, Eq, Error)]
pub enum TablesError {
    /// They would have so many entries.
    #[error("{count} entries are more than 1048576")]
    TooWide { count: u64 },
    #[error("out of memory")]
    OutOfMemory,
}

/// A finite interpretation. Contracts see its size and the table of each symbol other than `=`, symbol 1 first;
/// `IsStructure` says what it keeps.
#[derive(Debug, Drop)]
pub struct Tables {
    size: u8,
    tables: Vec<Table>,
}

impl Model for Tables {
    ghost use Rattle.sc_interp.specs.Structure.{Structure, IsStructure};

    ghost Value = { Structure };

    ghost view = { λ t. record { size = t.size; tables = t.tables.items } };

    ghost invariant = { λ t. IsStructure (record { size = t.size; tables = t.tables.items }) };
}

/// How many entries the table of a symbol has.
fn table_len(size: u8, arity: u8) -> usize
    requires size { size ≤ 8 }
    requires arity { arity ≤ 8 }
    ensures value { result ≡ size ^ arity }
    ensures bound { result ≤ 16777216 }
{
    usize::from(size).pow(u32::from(arity))
}

fn count_entries(sig: &Signature, size: u8) -> u64
    requires { size ≤ 8 }
    ensures { result ≡ entry_count sig.now size }
{
    let len = sig.len();
    let mut count: u64 = 0;
    for number in 1..len {
        let symbol = sig.symbol(SymId(number));
        count += table_len(size, symbol.arity) as u64;
    }
    count
}

fn zero_entries(alloc: Global, len: usize) -> Mem<List<u8>>
    ensures { IfOk result (λ entries. entries ≡ replicate len 0) }
{
    let entries = vec![in alloc; 0u8; len]?;
    Ok(List::from_vec(entries))
}

fn zero_tables(alloc: Global, sig: &Signature, size: u8) -> Mem<Vec<Table>>
    requires { size ≤ 8 }
    ensures { IfOk result (λ tables. tables.items ≡ map (zero_table size) (drop 1 sig.now)) }
{
    let len = sig.len();
    let mut tables = Vec::new(alloc);
    for number in 1..len {
        let symbol = sig.symbol(SymId(number));
        tables.push(Table {
            role: symbol.role,
            arity: symbol.arity,
            entries: zero_entries(alloc, table_len(size, symbol.arity))?,
        })?;
    }
    Ok(tables)
}

/// Another entry at a place of the table at a place in the list.
fn set_entry(tables: &mut [Table], at: usize, place: usize, value: u8)
    requires { IsSomeAnd (slice_get tables.old at) (λ table. place < length table.entries) }
    ensures { tables.new ≡ with_entry_in tables.old at (slice_get tables.old at) place value }
{
    let table = &mut tables[at];
    table.entries.set(place, value);
}

impl Tables {
    /// Tables over a signature, of any width, every entry 0.
    pub(crate) fn zeros(alloc: Global, sig: &Signature, size: u8) -> Mem<Tables>
        requires not_empty { 1 ≤ size }
        requires small { size ≤ 8 }
        ensures value { IfOk result (λ t. t ≡ zeros sig.now size) }
        ensures over { IfOk result (AreTablesOf sig.now) }
    {
        let tables = zero_tables(alloc, sig, size)?;
        Ok(Tables { size, tables })
    }

    /// Tables over a signature, every entry 0. The size is 1 to 8. `TooWide` comes exactly where they would have more
    /// than 1,048,576 entries, and tells how many.
    pub fn new(alloc: Global, sig: &Signature, size: u8) -> Result<Tables, TablesError>
        requires not_empty { 1 ≤ size }
        requires small { size ≤ 8 }
        ensures value { IfOk result (λ t. t ≡ zeros sig.now size) }
        ensures over { IfOk result (AreTablesOf sig.now) }
        ensures within { OnOk result (entry_count sig.now size ≤ 1048576) }
        ensures refused { IfErr result (IsCauseOfTables (entry_count sig.now size)) }
    {
        let count = count_entries(sig, size);
        if count > MAX_ENTRIES {
            return Err(TablesError::TooWide { count });
        }
        match Tables::zeros(alloc, sig, size) {
            Ok(tables) => Ok(tables),
            Err(_) => Err(TablesError::OutOfMemory),
        }
    }

    /// How many elements there are: they are the numbers below it.
    pub fn size(&self) -> u8
        ensures value { result ≡ self.now.size }
        ensures kept { IsStructure self.now }
    {
        self.size
    }

    /// The table of each symbol other than `=`, symbol 1 first.
    pub fn tables(&self) -> &[Table]
        ensures { result.now ≡ self.now.tables }
    {
        self.tables.as_slice()
    }

    pub fn copy(&self, alloc: Global) -> Mem<Tables>
        ensures { IfOk result (λ t. t ≡ self.now) }
    {
        let tables = copy_tables(alloc, self.tables.as_slice())?;
        Ok(Tables {
            size: self.size,
            tables,
        })
    }

    /// The entry at a place of a symbol's table.
    pub fn get(&self, sym: SymId, place: u32) -> u8
        requires { HasPlace self.now sym place }
        ensures { result ≡ entry_at self.now sym place }
    {
        entry(self.tables.as_slice(), sym, place as usize)
    }

    /// Puts another entry at a place of a symbol's table. An entry of a function is an element, one of a predicate 0
    /// (false) or 1 (true).
    pub fn set(&mut self, sym: SymId, place: u32, value: u8)
        requires there { HasPlace self.old sym place }
        requires in_range { MayHold self.old sym value }
        ensures value { self.new ≡ with_entry self.old sym place value }
        ensures over { (symbols : AList ASymbol) → AreTablesOf symbols self.old → AreTablesOf symbols self.new }
    {
        set_entry(
            self.tables.as_mut_slice(),
            sym.0 as usize - 1,
            place as usize,
            value,
        );
    }
}
