//! The words that name items, lists, flags and parameters, and readers of them.

ghost use Rattle.std.specs.Prelude.{◌≡◌, ◌++◌, [], ◌∷◌, codes};
ghost use Rattle.std.specs.List.{list_any};
ghost use Rattle.sc_input_rules.specs.Token.{same_text};
ghost use Rattle.sc_input_rules.specs.Reader as spec;
ghost use Rattle.sc_input_scan.specs.Told.{Gives};
ghost use Rattle.sc_input_grammar.specs.Words.{known_words, unsupported_words};

use sc_input_rules::{InputKind, Token};
use sc_input_scan::{Stop, a_word};

pub const SET: &str = "set";

pub const CLEAR: &str = "clear";

pub const ASSIGN: &str = "assign";

const LIST: &str = "list";

pub const END_OF_LIST: &str = "end_of_list";

pub const PROOF: &str = "proof";

pub const RUN: &str = "run";

const ITEMS: &[&str] = &[SET, CLEAR, ASSIGN, LIST];

const UNSUPPORTED_ITEMS: &[&str] = &[
    "formula_list",
    "weight_list",
    "op",
    "lex",
    "skolem",
    "include",
    "make_evaluable",
    "special_unary",
];

const LISTS: &[&str] = &["usable", "sos", "passive", "demodulators"];

const UNSUPPORTED_LISTS: &[&str] = &["hints", "hints2", "hot"];

// First those with an effect, then those that are accepted without one.
const FLAGS: &[&str] = &[
    "binary_res",
    "factor",
    "hyper_res",
    "ur_res",
    "para_from",
    "para_into",
    "unit_deletion",
    "dynamic_demod",
    "back_demod",
    "for_sub",
    "back_sub",
    "print_given",
    "print_kept",
    "print_proofs",
    "print_lists_at_end",
    "print_back_sub",
    "print_back_demod",
    "print_new_demod",
    "very_verbose",
];

const UNSUPPORTED_FLAGS: &[&str] = &[
    "auto",
    "auto2",
    "knuth_bendix",
    "order_eq",
    "lrpo",
    "prolog_style_variables",
    "process_input",
    "sos_queue",
    "sos_stack",
    "input_sos_first",
    "interactive_given",
    "neg_hyper_res",
    "para_all",
    "para_from_left",
    "para_from_right",
    "para_from_vars",
    "para_into_left",
    "para_into_right",
    "para_into_vars",
    "dynamic_demod_all",
    "demod_out_in",
    "eq_units_both_ways",
];

// First those with an effect, then those that are accepted without one.
const PARAMETERS: &[&str] = &[
    "pick_given_ratio",
    "max_weight",
    "max_literals",
    "max_given",
    "max_kept",
    "demod_limit",
    "max_proofs",
    "max_seconds",
    "max_mem",
    "stats_level",
];

const UNSUPPORTED_PARAMETERS: &[&str] = &[
    "max_distinct_vars",
    "change_limit_after",
    "new_max_weight",
    "neg_weight",
];

/// What a word names.
#[derive(Clone, Copy, Debug, PartialEq, Eq)]
pub enum Vocabulary {
    Items,
    Lists,
    Flags,
    Parameters,
}

fn is_any(words: &[&str], word: &[u8]) -> bool
    ensures { result ≡ list_any (λ w. same_text word.now w.now) words.now }
{
    for w in words {
        if word == w.as_bytes() {
            return true;
        }
    }
    false
}

fn is_known(vocabulary: Vocabulary, word: &[u8]) -> bool
    ensures { result ≡ list_any (same_text word.now) (known_words vocabulary) }
{
    match vocabulary {
        Vocabulary::Items => is_any(ITEMS, word),
        Vocabulary::Lists => is_any(LISTS, word),
        Vocabulary::Flags => is_any(FLAGS, word),
        Vocabulary::Parameters => is_any(PARAMETERS, word),
    }
}

fn is_unsupported(vocabulary: Vocabulary, word: &[u8]) -> bool
    ensures { result ≡ list_any (same_text word.now) (unsupported_words vocabulary) }
{
    match vocabulary {
        Vocabulary::Items => is_any(UNSUPPORTED_ITEMS, word),
        Vocabulary::Lists => is_any(UNSUPPORTED_LISTS, word),
        Vocabulary::Flags => is_any(UNSUPPORTED_FLAGS, word),
        Vocabulary::Parameters => is_any(UNSUPPORTED_PARAMETERS, word),
    }
}

/// A word of the vocabulary, where it begins, and what stands behind it. A word that is known and not supported is
/// refused as such, each other as unknown.
pub fn a_listed_name<'t, 'a>(
    vocabulary: Vocabulary,
    tokens: &'t [Token<'a>],
) -> Result<(u64, &'a [u8], &'t [Token<'a>]), Stop>
    ensures { Gives (λ x. (record { at = x.0; text = x.1.now }, x.2.now)) result (spec.a_listed_name (known_words vocabulary) (unsupported_words vocabulary) tokens.now) }
{
    let (at, word, rest) = a_word(tokens)?;
    if is_known(vocabulary, word) {
        return Ok((at, word, rest));
    }
    let kind = if is_unsupported(vocabulary, word) {
        InputKind::Unsupported
    } else {
        InputKind::UnknownName
    };
    Err(Stop::At(tokens.len(), kind))
}
