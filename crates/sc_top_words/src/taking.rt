//! The values that words give for the names of options.

ghost use Rattle.std.specs.Prelude.{◌≡◌, ◌↔◌, ◌≤◌, ℕ, IfSome, IsTrue, MatchOption};
ghost use Rattle.sc_top_words.specs.Options.{row_of};
ghost use Rattle.sc_top_words.specs.Words.{texts};
ghost use Rattle.sc_top_words.specs.Taking.{kept_for, with_kept, AreTaken, AreFit, MayBeTaken, IsTakenIn, IsIn, AreInRange, chosen_for, AreInOrder};

use crate::options::{OptionName, next_option, row_of, value_in};

/// The numbers that were given, each for its name.
#[derive(Clone, Copy)]
pub struct Taken {
    pub finders: Option<u64>,
    pub size: Option<u64>,
    pub upto: Option<u64>,
    pub nodes: Option<u64>,
    pub candidates: Option<u64>,
    pub workers: Option<u64>,
}

const NOTHING: Taken = Taken {
    finders: None,
    size: None,
    upto: None,
    nodes: None,
    candidates: None,
    workers: None,
};

fn kept_for(name: OptionName, taken: Taken) -> Option<u64>
    ensures { result ≡ kept_for name taken }
{
    match name {
        OptionName::Finders => taken.finders,
        OptionName::Size => taken.size,
        OptionName::Upto => taken.upto,
        OptionName::Nodes => taken.nodes,
        OptionName::Candidates => taken.candidates,
        OptionName::Workers => taken.workers,
    }
}

fn with_kept(name: OptionName, n: u64, taken: Taken) -> Taken
    ensures { result ≡ with_kept name n taken }
{
    let mut taken = taken;
    match name {
        OptionName::Finders => taken.finders = Some(n),
        OptionName::Size => taken.size = Some(n),
        OptionName::Upto => taken.upto = Some(n),
        OptionName::Nodes => taken.nodes = Some(n),
        OptionName::Candidates => taken.candidates = Some(n),
        OptionName::Workers => taken.workers = Some(n),
    }
    taken
}

/// The option is taken too, where its name wasn't given before and the value is in its range.
fn take_option(taken: Taken, name: OptionName, value: &[u8]) -> Option<Taken>
    ensures { MatchOption result (¬ MayBeTaken taken (record { name = name; value = value.now })) (λ now. IsTakenIn taken now (record { name = name; value = value.now })) }
{
    match kept_for(name, taken) {
        Some(_) => None,
        None => match value_in(row_of(name), value) {
            Some(n) => Some(with_kept(name, n, taken)),
            None => None,
        },
    }
}

/// The numbers that the words give, None exactly where they aren't options that fit.
pub fn read_options(words: &[String]) -> Option<Taken>
    ensures taken { MatchOption result (¬ AreFit (texts words.now)) (AreTaken (texts words.now)) }
    ensures in_range { IfSome result AreInRange }
{
    let mut taken = NOTHING;
    let mut rest = words;
    while !rest.is_empty() {
        let found = next_option(rest)?;
        taken = take_option(taken, found.name, found.value)?;
        rest = found.behind;
    }
    Some(taken)
}

/// The number for the name, which is the usual one where none was given.
pub fn chosen(name: OptionName, taken: Taken) -> u64
    requires { AreInRange taken }
    ensures is { result ≡ chosen_for name taken }
    ensures in_range { IsIn (row_of name) result }
{
    match kept_for(name, taken) {
        Some(n) => n,
        None => row_of(name).usual,
    }
}

/// Whether the last size, where one was given, isn't below the first.
pub fn are_in_order(taken: Taken) -> bool
    requires { AreInRange taken }
    ensures { IsTrue result ↔ AreInOrder taken }
{
    match taken.upto {
        Some(last) => chosen(OptionName::Size, taken) <= last,
        None => true,
    }
}
