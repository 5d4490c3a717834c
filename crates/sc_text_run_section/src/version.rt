//! Reading versions.

ghost use Rattle.std.specs.Prelude.{◌≡◌, ◌≤◌, ◌<◌, ◌-◌, ◌^◌, ◌==◌, if◌then◌else◌, List as AList, length, map, replicate, [], IfOk, IfErr, OnOk};
ghost use Rattle.sc_interp.specs.Structure.{zeros};
ghost use Rattle.sc_input_scan.specs.Told.{Gives};
ghost use Rattle.sc_input_scan.specs.declared.stop.Stop.TheVariants.{Memory};
ghost use Rattle.sc_text_run_rules.specs.RunValue.{version_value};
ghost use Rattle.sc_text_run_rules.specs.VersionGrammar as of;
ghost use Rattle.sc_text_run_rules.specs.RunSection as whole;
ghost use Rattle.sc_term.specs.declared.symbol.Symbol.{Symbol as ASymbol};
ghost use Rattle.sc_text_run_section.specs.OverSymbols.{HasTables, HaveTables};
ghost use Rattle.sc_text_run_section.specs.Seen.{next_of, row_of, placed_of, with_version};

use crate::fill::fill;
use crate::number::{Expected, number_from, number_in};
use crate::table::read_tables;
use crate::words::numbers;
use sc_input_rules::{InputKind, Sign, Token};
use sc_input_scan::{Rest, Stop, next_is_word, the_sign, the_word};
use sc_interp::{Tables, TablesError};
use sc_term::{List, Signature};
use sc_text_run_rules::VersionText;
use std::alloc::Global;

/// The finder whose versions are told, and the place of its next one.
#[derive(Clone, Copy, Debug, PartialEq, Eq)]
pub struct Next {
    pub finder: u32,
    pub place: u64,
}

/// Which version it is, and tables of its size, every entry 0.
#[derive(Debug, Drop)]
pub struct VersionRow {
    pub finder: u32,
    pub place: u32,
    pub tables: Tables,
}

/// A version, and which it is.
#[derive(Debug, Drop)]
pub struct PlacedVersion {
    pub finder: u32,
    pub place: u32,
    pub version: VersionText,
}

/// Tables of the size that is written, every entry 0. They are too many where they would have more than 1,048,576
/// entries: none is made then.
fn read_size<'t, 'a>(
    alloc: Global,
    sig: &Signature,
    tokens: &'t [Token<'a>],
) -> Result<(Tables, &'t [Token<'a>]), Stop>
    ensures value { Gives (λ x. (x.0.size, x.1.now)) result (of.a_size sig.now tokens.now) }
    ensures empty { IfOk result (λ x. x.0 ≡ zeros sig.now x.0.size) }
{
    let (size, rest) = number_from(1, 8, tokens)?;
    match Tables::new(alloc, sig, size as u8) {
        Ok(tables) => Ok((tables, rest)),
        Err(TablesError::TooWide { .. }) => Err(Stop::At(tokens.len(), InputKind::TooMany)),
        Err(TablesError::OutOfMemory) => Err(Stop::Memory),
    }
}

/// The place that a version of the finder has.
fn place_of(next: Next, finder: u32) -> u64
    ensures { result ≡ if finder == next.finder then next.place else 0 }
{
    if finder == next.finder { next.place } else { 0 }
}

/// The row of the next version of the finder, or of the first of a later one.
fn version_row<'t, 'a>(
    alloc: Global,
    sig: &Signature,
    lists: u32,
    next: Next,
    tokens: &'t [Token<'a>],
) -> Result<(VersionRow, &'t [Token<'a>]), Stop>
    requires { next.place ≤ 2 ^ 32 }
    ensures finder { IfOk result (λ x. (next.finder ≤ x.0.finder) × (x.0.finder ≤ lists)) }
    ensures place { IfOk result (λ x. x.0.place < 2 ^ 32) }
    ensures value { Gives (λ x. (row_of x.0, x.1.now)) result (of.a_version_row sig.now lists (next_of next) tokens.now) }
    ensures empty { IfOk result (λ x. x.0.tables ≡ zeros sig.now x.0.tables.size) }
{
    let rest = the_word(b"version".as_slice(), tokens)?;
    let expected = Expected::Between(u64::from(next.finder), u64::from(lists));
    let (finder, rest) = number_in(expected, 0, u32::MAX, rest)?;
    let expected = Expected::Exactly(place_of(next, finder));
    let (place, rest) = number_in(expected, 0, u32::MAX, rest)?;
    let (tables, rest) = read_size(alloc, sig, rest)?;
    let rest = the_sign(Sign::Stop, rest)?;
    let row = VersionRow {
        finder,
        place,
        tables,
    };
    Ok((row, rest))
}

/// The numbers of the input clauses that a version makes true.
fn claims<'t, 'a>(
    alloc: Global,
    tokens: &'t [Token<'a>],
) -> Result<(List<u32>, &'t [Token<'a>]), Stop>
    ensures { Gives (λ x. (x.0, x.1.now)) result (of.claims tokens.now) }
{
    let rest = the_word(b"claims".as_slice(), tokens)?;
    numbers(alloc, rest)
}

/// What stands behind the row of a version.
fn version_behind<'t, 'a>(
    alloc: Global,
    sig: &Signature,
    tables: Tables,
    tokens: &'t [Token<'a>],
) -> Result<(VersionText, &'t [Token<'a>]), Stop>
    requires { tables ≡ zeros sig.now tables.size }
    ensures value { Gives (λ x. (version_value x.0, x.1.now)) result (of.version_behind sig.now tables.size tokens.now) }
    ensures tables { IfOk result (λ x. HasTables sig.now x.0) }
{
    let mut tables = tables;
    let size = tables.size();
    let (entries, rest) = read_tables(alloc, sig, size, tokens)?;
    fill(&mut tables, entries.as_slice());
    let (claims, rest) = claims(alloc, rest)?;
    let version = VersionText {
        size,
        tables,
        claims,
    };
    Ok((version, rest))
}

/// A version.
fn version<'t, 'a>(
    alloc: Global,
    sig: &Signature,
    lists: u32,
    next: Next,
    tokens: &'t [Token<'a>],
) -> Result<(PlacedVersion, &'t [Token<'a>]), Stop>
    requires { next.place ≤ 2 ^ 32 }
    ensures finder { IfOk result (λ x. (next.finder ≤ x.0.finder) × (x.0.finder ≤ lists)) }
    ensures place { IfOk result (λ x. x.0.place < 2 ^ 32) }
    ensures value { Gives (λ x. (placed_of x.0, x.1.now)) result (of.a_version sig.now lists (next_of next) tokens.now) }
    ensures tables { IfOk result (λ x. HasTables sig.now x.0.version) }
{
    let (row, rest) = version_row(alloc, sig, lists, next, tokens)?;
    let VersionRow {
        finder,
        place,
        tables,
    } = row;
    let (version, rest) = version_behind(alloc, sig, tables, rest)?;
    let placed = PlacedVersion {
        finder,
        place,
        version,
    };
    Ok((placed, rest))
}

/// Puts the version behind those of its finder.
fn put(lists: &mut [List<VersionText>], placed: PlacedVersion) -> Result<(), Stop>
    requires first { 1 ≤ placed.finder }
    requires there { placed.finder ≤ length lists.old }
    ensures value { OnOk result (map (map version_value) lists.new ≡ with_version (placed.finder - 1) (version_value placed.version) (map (map version_value) lists.old)) }
    ensures many { length lists.new ≡ length lists.old }
    ensures tables { OnOk result ((symbols : AList ASymbol) → HasTables symbols placed.version → HaveTables symbols lists.old → HaveTables symbols lists.new) }
    ensures memory { IfErr result (λ e. e ≡ Memory) }
{
    let at = placed.finder as usize - 1;
    lists[at].push(placed.version)?;
    Ok(())
}

/// So many lists, each empty.
fn empty_lists(alloc: Global, count: u32) -> Result<Vec<List<VersionText>>, Stop>
    ensures empty { IfOk result (λ lists. map (map version_value) lists.items ≡ replicate count []) }
    ensures many { IfOk result (λ lists. length lists.items ≡ count) }
    ensures memory { IfErr result (λ e. e ≡ Memory) }
{
    let mut lists = Vec::new(alloc);
    for _ in 0..count {
        lists.push(List::new(alloc))?;
    }
    Ok(lists)
}

/// The versions of each of so many finders.
pub fn read_lists<'t, 'a>(
    alloc: Global,
    sig: &Signature,
    count: u32,
    tokens: &'t [Token<'a>],
) -> Result<(List<List<VersionText>>, &'t [Token<'a>]), Stop>
    requires { count ≤ 8 }
    ensures value { Gives (λ x. (map (map version_value) x.0, x.1.now)) result (whole.version_lists sig.now count tokens.now) }
    ensures tables { IfOk result (λ x. HaveTables sig.now x.0) }
{
    let mut lists = empty_lists(alloc, count)?;
    let mut next = Next {
        finder: 1,
        place: 0,
    };
    let mut rest = Rest::new(tokens);
    for _ in 0..tokens.len() {
        let left = rest.tokens();
        if !next_is_word(b"version".as_slice(), left) {
            return Ok((List::from_vec(lists), left));
        }
        let (placed, after) = version(alloc, sig, count, next, left)?;
        next = Next {
            finder: placed.finder,
            place: u64::from(placed.place) + 1,
        };
        put(lists.as_mut_slice(), placed)?;
        rest = Rest::new(after);
    }
    Ok((List::from_vec(lists), rest.tokens()))
}
