//! Which list a sentence opens or closes, and its tokens.

ghost use Rattle.std.specs.Prelude.{◌≡◌, ◌≤◌, length, take, drop};
ghost use Rattle.sc_input_rules.specs.Position as spec;

use sc_input_rules::{Home, Token};
use sc_input_scan::is_word;

fn home_named(name: &Token) -> Option<Home>
    ensures { result ≡ spec.home_named name.now }
{
    if is_word(b"usable", name) {
        Some(Home::Usable)
    } else if is_word(b"sos", name) {
        Some(Home::Sos)
    } else if is_word(b"passive", name) {
        Some(Home::Passive)
    } else if is_word(b"demodulators", name) {
        Some(Home::Demodulators)
    } else {
        None
    }
}

/// The list that the sentence opens.
pub fn opened(sentence: &[Token]) -> Option<Home>
    ensures { result ≡ spec.opened sentence.now }
{
    match sentence {
        [item, _, name, ..] => {
            if is_word(b"list", item) {
                home_named(name)
            } else {
                None
            }
        }
        _ => None,
    }
}

/// Whether the sentence closes a list.
pub fn closes(sentence: &[Token]) -> bool
    ensures { result ≡ spec.closes sentence.now }
{
    match sentence {
        [token] => is_word(b"end_of_list", token),
        _ => false,
    }
}

/// The tokens from one to another.
pub fn between<'t, 'a>(tokens: &'t [Token<'a>], from: usize, to: usize) -> &'t [Token<'a>]
    requires ordered { from ≤ to }
    requires within { to ≤ length tokens.now }
    ensures { result.now ≡ drop from (take to tokens.now) }
{
    &tokens[from..to]
}
