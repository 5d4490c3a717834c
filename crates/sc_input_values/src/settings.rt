//! What the items of a problem set: the last item of a name holds.

ghost use Rattle.std.specs.Prelude.{◌≡◌, [], ◌∷◌};
ghost use Rattle.sc_input_rules.specs.Problem as spec;
ghost use Rattle.sc_input_rules.specs.Problem.{flags_of, params_of, home_of};
ghost use Rattle.sc_input_rules.specs.WellFormed.{AreParams};
ghost use Rattle.sc_input_grammar.specs.Items.{item_of, items_of};

use sc_input_grammar::Item;
use sc_input_rules::{Flags, Home, Params};

/// Whether the flag is set behind one more item.
fn setting_after(name: &str, before: bool, item: &Item) -> bool
    ensures { result ≡ spec.last_setting name.now before (item_of item.now ∷ []) }
{
    match item {
        Item::Setting(word, positive) => {
            if name.as_bytes() == word.text.as_slice() {
                *positive
            } else {
                before
            }
        }
        Item::Assignment(..) | Item::Listing(..) => before,
    }
}

/// Whether the last item that sets or clears the flag sets it.
fn last_setting(items: &[Item], name: &str, default: bool) -> bool
    ensures { result ≡ spec.last_setting name.now default (items_of items.now) }
{
    let mut setting = default;
    for item in items {
        setting = setting_after(name, setting, item);
    }
    setting
}

/// The value of the parameter behind one more item, without its sign.
fn value_after(name: &str, before: u64, item: &Item) -> u64
    ensures { result ≡ spec.last_value name.now before (item_of item.now ∷ []) }
{
    match item {
        Item::Assignment(word, value) => {
            if name.as_bytes() == word.text.as_slice() {
                value.unsigned_abs()
            } else {
                before
            }
        }
        Item::Setting(..) | Item::Listing(..) => before,
    }
}

/// The value of the last item that assigns the parameter one, without its sign.
fn last_value(items: &[Item], name: &str, default: u64) -> u64
    ensures { result ≡ spec.last_value name.now default (items_of items.now) }
{
    let mut value = default;
    for item in items {
        value = value_after(name, value, item);
    }
    value
}

/// The flags that items set, with what holds where none does.
pub fn flags_from(items: &[Item]) -> Flags
    ensures { result ≡ flags_of (items_of items.now) }
{
    Flags {
        binary_res: last_setting(items, "binary_res", false),
        factor: last_setting(items, "factor", false),
        hyper_res: last_setting(items, "hyper_res", false),
        ur_res: last_setting(items, "ur_res", false),
        para_from: last_setting(items, "para_from", false),
        para_into: last_setting(items, "para_into", false),
        unit_deletion: last_setting(items, "unit_deletion", false),
        dynamic_demod: last_setting(items, "dynamic_demod", false),
        back_demod: last_setting(items, "back_demod", false),
        for_sub: last_setting(items, "for_sub", true),
        back_sub: last_setting(items, "back_sub", true),
    }
}

/// The parameters that items assign, with what holds where none does.
pub fn params_from(items: &[Item]) -> Params
    requires { AreParams (params_of (items_of items.now)) }
    ensures { result ≡ params_of (items_of items.now) }
{
    Params {
        pick_given_ratio: last_value(items, "pick_given_ratio", 4) as u32,
        max_weight: last_value(items, "max_weight", 100) as u32,
        max_literals: last_value(items, "max_literals", 64) as u32,
        max_given: last_value(items, "max_given", 10_000) as u32,
        max_kept: last_value(items, "max_kept", 20_000) as u32,
        demod_limit: last_value(items, "demod_limit", 1000) as u32,
        max_proofs: last_value(items, "max_proofs", 1) as u32,
    }
}

/// The list of that name.
pub fn home_of(name: &[u8]) -> Home
    ensures { result ≡ home_of name.now }
{
    if name == "usable".as_bytes() {
        Home::Usable
    } else if name == "sos".as_bytes() {
        Home::Sos
    } else if name == "passive".as_bytes() {
        Home::Passive
    } else if name == "demodulators".as_bytes() {
        Home::Demodulators
    } else {
        Home::Sos
    }
}
