//! The options of the command line: their names, and the values that they take.

ghost use Rattle.std.specs.Prelude.{◌≡◌, ◌≢◌, ◌↔◌, ◌<◌, ◌++◌, ℕ, List as AList, IsTrue, IfSome, MatchOption, ◌∷◌, string_bytes, length};
ghost use Rattle.sc_top_words.specs.declared.options.OptionName.{OptionName as AName};
ghost use Rattle.sc_top_words.specs.Options.{spelling, row_of, IsValue, Given, in_one, IsFirst};
ghost use Rattle.sc_top_words.specs.Words.{texts};

use sc_input_scan::numeral_value;

/// The names of options.
#[derive(Clone, Copy)]
pub enum OptionName {
    Finders,
    Size,
    Upto,
    Nodes,
    Candidates,
    Workers,
}

/// The numbers that an option takes, and the one that is taken where it isn't given; nothing rests on that of `Upto`.
#[derive(Clone, Copy)]
pub struct Row {
    pub low: u64,
    pub high: u64,
    pub usual: u64,
}

/// The numbers of rungs of a ladder; there is no usual one.
pub const RUNGS: Row = Row {
    low: 1,
    high: 1000,
    usual: 1,
};

pub fn row_of(name: OptionName) -> Row
    ensures { result ≡ row_of name }
{
    let (low, high, usual) = match name {
        OptionName::Finders => (0, 8, 2),
        OptionName::Size => (1, 8, 2),
        OptionName::Upto => (1, 8, 8),
        OptionName::Nodes => (1, 10_000_000, 100_000),
        OptionName::Candidates => (0, 128, 128),
        OptionName::Workers => (1, 8, 1),
    };
    Row { low, high, usual }
}

/// The number that the bytes spell in at most 10 digits, where it is in the range.
pub fn value_in(row: Row, digits: &[u8]) -> Option<u64>
    requires { row.high < 18446744073709551615 }
    ensures { MatchOption result ((n : ℕ) → ¬ IsValue row.low row.high digits.now n) (IsValue row.low row.high digits.now) }
{
    if digits.is_empty() || 10 < digits.len() {
        return None;
    }
    match numeral_value(digits) {
        Some(n) if row.low <= n && n <= row.high => Some(n),
        _ => None,
    }
}

fn is_text(word: &[u8], text: &[u8]) -> bool
    ensures { IsTrue result ↔ (word.now ≡ text.now) }
{
    word == text
}

/// The name that the word spells.
fn name_of(word: &[u8]) -> Option<OptionName>
    ensures { MatchOption result ((name : AName) → word.now ≢ spelling name) (λ name. word.now ≡ spelling name) }
{
    if is_text(word, b"--finders") {
        return Some(OptionName::Finders);
    }
    if is_text(word, b"--size") {
        return Some(OptionName::Size);
    }
    if is_text(word, b"--upto") {
        return Some(OptionName::Upto);
    }
    if is_text(word, b"--nodes") {
        return Some(OptionName::Nodes);
    }
    if is_text(word, b"--candidates") {
        return Some(OptionName::Candidates);
    }
    if is_text(word, b"--workers") {
        return Some(OptionName::Workers);
    }
    None
}

/// What stands behind the front in the word.
fn behind<'a>(word: &'a [u8], front: &[u8]) -> Option<&'a [u8]>
    ensures { MatchOption result ((rest : AList ℕ) → word.now ≢ front.now ++ rest) (λ rest. word.now ≡ front.now ++ rest.now) }
{
    word.strip_prefix(front)
}

/// The name and the value that the word spells, with `=` between them.
fn option_in_one(word: &[u8]) -> Option<(OptionName, &[u8])>
    ensures { MatchOption result ((option : Given) → word.now ≢ in_one option) (λ r. word.now ≡ in_one (record { name = r.0; value = r.1.now })) }
{
    if let Some(value) = behind(word, b"--finders=") {
        return Some((OptionName::Finders, value));
    }
    if let Some(value) = behind(word, b"--size=") {
        return Some((OptionName::Size, value));
    }
    if let Some(value) = behind(word, b"--upto=") {
        return Some((OptionName::Upto, value));
    }
    if let Some(value) = behind(word, b"--nodes=") {
        return Some((OptionName::Nodes, value));
    }
    if let Some(value) = behind(word, b"--candidates=") {
        return Some((OptionName::Candidates, value));
    }
    if let Some(value) = behind(word, b"--workers=") {
        return Some((OptionName::Workers, value));
    }
    None
}

/// An option, and the words behind it.
#[derive(Drop)]
pub struct Found<'a> {
    pub name: OptionName,
    pub value: &'a [u8],
    pub behind: &'a [String],
}

/// The option whose name is the first word, and whose value is the next one.
fn option_in_two<'a>(word: &'a String, rest: &'a [String]) -> Option<Found<'a>>
    ensures { MatchOption result ((option : Given) (behind : AList (AList ℕ)) → ¬ ((string_bytes word.now ≡ spelling option.name) × (texts rest.now ≡ option.value ∷ behind))) (λ r. (string_bytes word.now ≡ spelling r.name) × (texts rest.now ≡ r.value.now ∷ texts r.behind.now) × (length r.behind.now < length rest.now)) }
{
    let name = name_of(word.as_bytes())?;
    match rest {
        [value, behind @ ..] => Some(Found {
            name,
            value: value.as_bytes(),
            behind,
        }),
        [] => None,
    }
}

/// The option that stands first among the words.
pub fn next_option(words: &[String]) -> Option<Found<'_>>
    ensures first { MatchOption result ((option : Given) (behind : AList (AList ℕ)) → ¬ IsFirst (texts words.now) option behind) (λ r. IsFirst (texts words.now) (record { name = r.name; value = r.value.now }) (texts r.behind.now)) }
    ensures shorter { IfSome result (λ r. length r.behind.now < length words.now) }
{
    match words {
        [word, behind @ ..] => match option_in_one(word.as_bytes()) {
            Some((name, value)) => Some(Found {
                name,
                value,
                behind,
            }),
            None => option_in_two(word, behind),
        },
        [] => None,
    }
}
