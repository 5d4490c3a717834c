//! The versions that finders published.

ghost use Rattle.std.specs.Prelude.{◌≡◌, ◌∷◌, [], ◌++◌, codes, decimal, map, OnOk};
ghost use Rattle.sc_text_run_rules.specs.ModelText.{row};
ghost use Rattle.sc_text_run_rules.specs.RunText.{version_rows, list_rows, lists_rows};
ghost use Rattle.sc_text_run_rules.specs.RunValue.{version_value};

use crate::model::table_rows;
use crate::row::{numbers_row, spaced_number};
use sc_term::{List, Mem, Signature};
use sc_text_run_rules::VersionText;

/// Finder, place and size.
fn heading(finder: u64, place: u64, size: u8, text: &mut Vec<u8>) -> Mem<()>
    ensures { OnOk result (text.new.items ≡ text.old.items ++ row (codes "version" ∷ decimal finder ∷ decimal place ∷ decimal size ∷ [])) }
{
    text.extend_from_slice(b"version")?;
    spaced_number(finder, text)?;
    spaced_number(place, text)?;
    spaced_number(u64::from(size), text)?;
    text.extend_from_slice(b".\n")?;
    Ok(())
}

/// The heading, the tables and the claims.
fn version(sig: &Signature, finder: u64, place: u64, v: &VersionText, text: &mut Vec<u8>) -> Mem<()>
    ensures { OnOk result (text.new.items ≡ text.old.items ++ version_rows sig.now finder place (version_value v.now)) }
{
    heading(finder, place, v.size, text)?;
    table_rows(sig, v.tables.tables(), text)?;
    numbers_row("claims", v.claims.as_slice(), text)
}

/// The versions of a finder, by place.
fn versions(sig: &Signature, finder: u64, list: &[VersionText], text: &mut Vec<u8>) -> Mem<()>
    ensures { OnOk result (text.new.items ≡ text.old.items ++ list_rows sig.now finder 0 (map version_value list.now)) }
{
    for (i, v) in list.iter().enumerate() {
        version(sig, finder, i as u64, v, text)?;
    }
    Ok(())
}

/// The versions of all finders, finder 1 first.
pub fn lists(sig: &Signature, lists: &[List<VersionText>], text: &mut Vec<u8>) -> Mem<()>
    ensures { OnOk result (text.new.items ≡ text.old.items ++ lists_rows sig.now 1 (map (map version_value) lists.now)) }
{
    for (i, list) in lists.iter().enumerate() {
        versions(sig, i as u64 + 1, list.as_slice(), text)?;
    }
    Ok(())
}
