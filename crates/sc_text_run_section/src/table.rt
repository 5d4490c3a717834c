//! Reading the tables of a version.

ghost use Rattle.std.specs.Prelude.{◌≡◌, ◌≤◌, ◌<◌, ◌^◌, ◌-◌, All, drop, length, IfOk};
ghost use Rattle.sc_interp.specs.Structure.{values_below};
ghost use Rattle.sc_input_rules.specs.Reader as spec;
ghost use Rattle.sc_input_scan.specs.Told.{Gives};
ghost use Rattle.sc_text_run_rules.specs.ModelText.{role_word, without_equality};
ghost use Rattle.sc_text_run_rules.specs.RowWords.{counted};
ghost use Rattle.sc_text_run_rules.specs.VersionGrammar as of;
ghost use Rattle.sc_text_run_section.specs.Entries.{AreEntries, AreEntriesOf};

use crate::number::{number_from, the_row_number};
use sc_input_rules::{Sign, Token};
use sc_input_scan::{Rest, Stop, stop_at, the_sign, the_word};
use sc_term::{List, Role, Signature, SymId, Symbol};
use std::alloc::Global;

/// `function` or `predicate`, as the role is.
fn the_role<'t, 'a>(role: Role, tokens: &'t [Token<'a>]) -> Result<&'t [Token<'a>], Stop>
    ensures { Gives (λ x. (tt, x.now)) result (spec.the_word (role_word role) tokens.now) }
{
    match role {
        Role::Function => the_word(b"function".as_slice(), tokens),
        Role::Predicate => the_word(b"predicate".as_slice(), tokens),
    }
}

/// The greatest entry.
fn greatest_entry(role: Role, size: u8) -> u32
    ensures { result ≡ values_below role size - 1 }
{
    match role {
        Role::Function => u32::from(size.saturating_sub(1)),
        Role::Predicate => 1,
    }
}

fn an_entry<'t, 'a>(
    role: Role,
    size: u8,
    tokens: &'t [Token<'a>],
) -> Result<(u8, &'t [Token<'a>]), Stop>
    requires { 1 ≤ size }
    ensures value { Gives (λ x. (x.0, x.1.now)) result (of.an_entry role size tokens.now) }
    ensures below { IfOk result (λ x. x.0 < values_below role size) }
{
    let (entry, rest) = number_from(0, greatest_entry(role, size), tokens)?;
    Ok((entry as u8, rest))
}

/// So many entries.
fn entries<'t, 'a>(
    alloc: Global,
    role: Role,
    size: u8,
    count: usize,
    tokens: &'t [Token<'a>],
) -> Result<(List<u8>, &'t [Token<'a>]), Stop>
    requires { 1 ≤ size }
    ensures value { Gives (λ x. (x.0, x.1.now)) result (counted (λ i. of.an_entry role size) (length tokens.now) 0 count tokens.now) }
    ensures many { IfOk result (λ x. length x.0 ≡ count) }
    ensures below { IfOk result (λ x. All (λ e. e < values_below role size) x.0) }
{
    let mut front = List::new(alloc);
    let mut rest = Rest::new(tokens);
    for read in 0..tokens.len() {
        let left = rest.tokens();
        if read == count {
            return Ok((front, left));
        }
        let (entry, after) = an_entry(role, size, left)?;
        front.push(entry)?;
        rest = Rest::new(after);
    }
    let left = rest.tokens();
    if tokens.len() == count {
        Ok((front, left))
    } else {
        Err(stop_at(left))
    }
}

/// How many entries the table of a symbol has.
fn entry_number(size: u8, arity: u8) -> usize
    requires size { size ≤ 8 }
    requires arity { arity ≤ 8 }
    ensures value { result ≡ size ^ arity }
    ensures few { result < 2 ^ 32 }
{
    usize::from(size).pow(u32::from(arity))
}

/// The table of a symbol, for as many elements.
fn table<'t, 'a>(
    alloc: Global,
    size: u8,
    symbol: &Symbol,
    tokens: &'t [Token<'a>],
) -> Result<(List<u8>, &'t [Token<'a>]), Stop>
    requires not_empty { 1 ≤ size }
    requires small { size ≤ 8 }
    requires arity { symbol.now.arity ≤ 8 }
    ensures value { Gives (λ x. (x.0, x.1.now)) result (of.a_table size symbol.now tokens.now) }
    ensures whole { IfOk result (λ x. AreEntries size symbol.now x.0) }
{
    let rest = the_role(symbol.role, tokens)?;
    let rest = the_word(symbol.name.as_slice(), rest)?;
    let (_, rest) = the_row_number(u64::from(symbol.arity), rest)?;
    let rest = the_sign(Sign::Colon, rest)?;
    let count = entry_number(size, symbol.arity);
    let (entries, rest) = entries(alloc, symbol.role, size, count, rest)?;
    let rest = the_sign(Sign::Stop, rest)?;
    Ok((entries, rest))
}

/// The table of each symbol other than `=`, in order.
pub fn read_tables<'t, 'a>(
    alloc: Global,
    sig: &Signature,
    size: u8,
    tokens: &'t [Token<'a>],
) -> Result<(List<List<u8>>, &'t [Token<'a>]), Stop>
    requires not_empty { 1 ≤ size }
    requires small { size ≤ 8 }
    ensures value { Gives (λ x. (x.0, x.1.now)) result (of.tables size (without_equality sig.now) tokens.now) }
    ensures whole { IfOk result (λ x. AreEntriesOf size (without_equality sig.now) x.0) }
    ensures few { IfOk result (λ x. length x.0 < 2 ^ 32 - 1) }
{
    let mut front = List::new(alloc);
    let mut rest = Rest::new(tokens);
    for number in 1..sig.len() {
        let (entries, after) = table(alloc, size, sig.symbol(SymId(number)), rest.tokens())?;
        front.push(entries)?;
        rest = Rest::new(after);
    }
    Ok((front, rest.tokens()))
}
