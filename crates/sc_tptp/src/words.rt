//! The words of items and their roles, and readers of them.

ghost use Rattle.std.specs.Prelude.{◌≡◌, [], ◌∷◌, codes};
ghost use Rattle.std.specs.List.{list_any};
ghost use Rattle.sc_input_rules.specs.Token.{same_text};
ghost use Rattle.sc_input_rules.specs.Reader as spec;
ghost use Rattle.sc_input_scan.specs.Told.{Gives};
ghost use Rattle.sc_tptp.specs.Words.{known_words, unsupported_words};

use sc_input_rules::{InputKind, Token};
use sc_input_scan::{Stop, a_word};

/// The role of the clauses that a proof starts from.
pub const GOAL: &str = "negated_conjecture";

const FORMS: &[&str] = &["cnf"];

const UNSUPPORTED_FORMS: &[&str] = &["fof", "tff", "tcf", "thf", "include"];

const ROLES: &[&str] = &[
    GOAL,
    "axiom",
    "hypothesis",
    "definition",
    "assumption",
    "lemma",
    "theorem",
    "corollary",
    "plain",
];

const UNSUPPORTED_ROLES: &[&str] = &["conjecture"];

/// What a word names: the form of an item, or the role of its formula.
#[derive(Clone, Copy, Debug, PartialEq, Eq)]
pub enum Vocabulary {
    Forms,
    Roles,
}

fn is_any(words: &[&str], word: &[u8]) -> bool
    ensures { result ≡ list_any (λ w. same_text word.now w.now) words.now }
{
    for w in words {
        if word == w.as_bytes() {
            return true;
        }
    }
    false
}

fn is_known(vocabulary: Vocabulary, word: &[u8]) -> bool
    ensures { result ≡ list_any (same_text word.now) (known_words vocabulary) }
{
    match vocabulary {
        Vocabulary::Forms => is_any(FORMS, word),
        Vocabulary::Roles => is_any(ROLES, word),
    }
}

fn is_unsupported(vocabulary: Vocabulary, word: &[u8]) -> bool
    ensures { result ≡ list_any (same_text word.now) (unsupported_words vocabulary) }
{
    match vocabulary {
        Vocabulary::Forms => is_any(UNSUPPORTED_FORMS, word),
        Vocabulary::Roles => is_any(UNSUPPORTED_ROLES, word),
    }
}

/// A word of the vocabulary, where it begins, and what stands behind it. A word that is known and not supported is
/// refused as such, each other as unknown.
pub fn a_listed_name<'t, 'a>(
    vocabulary: Vocabulary,
    tokens: &'t [Token<'a>],
) -> Result<(u64, &'a [u8], &'t [Token<'a>]), Stop>
    ensures { Gives (λ x. (record { at = x.0; text = x.1.now }, x.2.now)) result (spec.a_listed_name (known_words vocabulary) (unsupported_words vocabulary) tokens.now) }
{
    let (at, word, rest) = a_word(tokens)?;
    if is_known(vocabulary, word) {
        return Ok((at, word, rest));
    }
    let kind = if is_unsupported(vocabulary, word) {
        InputKind::Unsupported
    } else {
        InputKind::UnknownName
    };
    Err(Stop::At(tokens.len(), kind))
}
