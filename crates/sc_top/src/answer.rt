//! What the program answers: each answer has a status and a text.

ghost use Rattle.std.specs.Prelude.{◌≡◌, ◌++◌, IfOk, OnOk, IfSome, IfNone, codes, decimal, string_bytes};
ghost use Rattle.sc_top.specs.Answers.{answer_to, outcome_status, outcome_word, bench_text, modelled_status, modelled_text, status_of, text_of, MakesModelledText, MakesText, kind_text};

use sc_core_rules::Outcome;
use sc_input::{InputError, InputKind, Place};
use sc_term::{List, Mem};
use std::alloc::Global;

/// What became of a search for a model.
#[derive(Debug, Drop)]
pub enum Modelled {
    /// The text of the first model.
    Found { text: List<u8> },
    /// There is none of this size.
    NoModel { size: u8 },
    /// The budget of nodes was spent in this piece, from 1.
    Spent { piece: u32 },
    /// The size has so many entries, more than may be searched.
    TooManyCells { count: u64 },
    /// The clauses have so many instances, more than may be searched.
    TooManyInstances { count: u64 },
    /// There is none of any of these sizes.
    NoModelOfSizes { from: u8, to: u8 },
    /// The budget of nodes was spent in this piece, from 1, of this size, and no smaller one has a model.
    SpentSize { size: u8, piece: u32 },
}

/// How the run of a ladder ended.
#[derive(Debug, Drop)]
pub struct BenchRun {
    pub rungs: u32,
    pub outcome: Outcome,
    /// How many clauses were given, and how many kept.
    pub given: u64,
    pub kept: u64,
    /// How many versions the finder published.
    pub versions: u64,
    /// How many lines the proof has.
    pub lines: u64,
}

/// An answer, before it is written.
#[derive(Debug, Drop)]
pub enum Answer {
    /// The lines are a proof of the clauses.
    ProofChecked { lines: u32 },
    /// This line, from 1, is the first at fault.
    NotAProof { line: u32 },
    /// The run of this text ended so.
    Ran { outcome: Outcome, text: List<u8> },
    /// A model was sought.
    Model(Modelled),
    /// The run of a ladder ended so.
    Benched(BenchRun),
    /// The bytes are refused at this one, for this kind of fault.
    InputRefused(Place),
    WordsRefused,
    ReadFault,
    OutOfMemory,
}

pub const MEMORY_TEXT: &str = "out of memory\n";

pub const WORDS_TEXT: &str = "words refused\n";

const READ_FAULT_TEXT: &str = "read fault\n";

fn kind_text(kind: InputKind) -> &'static str
    ensures { result.now ≡ kind_text kind }
{
    match kind {
        InputKind::NotText => "not text",
        InputKind::Unexpected => "unexpected",
        InputKind::Truncated => "truncated",
        InputKind::UnknownName => "unknown name",
        InputKind::Unsupported => "unsupported",
        InputKind::OutOfRange => "out of range",
        InputKind::TooMany => "too many",
        InputKind::TooHeavy => "too heavy",
        InputKind::TooDeep => "too deep",
        InputKind::BadDemodulator => "bad demodulator",
        InputKind::TooLong => "too long",
    }
}

fn refused_text(alloc: Global, at: u64, kind: &str) -> Mem<String>
    ensures { IfOk result (λ text. string_bytes text ≡ codes "input refused at byte " ++ decimal at ++ codes ": " ++ kind.now ++ codes "\n") }
{
    let mut text = format!(in alloc; "input refused at byte {at}: ")?;
    text.push_str(kind)?;
    text.push_str("\n")?;
    Ok(text)
}

/// The exit status of a run that ended so.
fn outcome_status(outcome: Outcome) -> u8
    ensures { result ≡ outcome_status outcome }
{
    match outcome {
        Outcome::Proof => 0,
        Outcome::SosEmpty => 1,
        Outcome::GivenLimit(_) => 2,
        Outcome::KeptLimit(_) => 2,
        Outcome::WorkLimit(_) => 2,
    }
}

/// The exit status of a search for a model.
fn modelled_status(modelled: &Modelled) -> u8
    ensures { result ≡ modelled_status modelled.now }
{
    match modelled {
        Modelled::Found { .. } => 0,
        Modelled::NoModel { .. } => 1,
        Modelled::Spent { .. } => 2,
        Modelled::TooManyCells { .. } => 2,
        Modelled::TooManyInstances { .. } => 2,
        Modelled::NoModelOfSizes { .. } => 1,
        Modelled::SpentSize { .. } => 2,
    }
}

/// The text of a search for a model, where that came with it.
fn found_text(modelled: &Modelled) -> Option<&[u8]>
    ensures some { IfSome result (λ text. text.now ≡ modelled_text modelled.now) }
    ensures none { IfNone result (MakesModelledText modelled.now) }
{
    match modelled {
        Modelled::Found { text } => Some(text.as_slice()),
        Modelled::NoModel { .. } => None,
        Modelled::Spent { .. } => None,
        Modelled::TooManyCells { .. } => None,
        Modelled::TooManyInstances { .. } => None,
        Modelled::NoModelOfSizes { .. } => None,
        Modelled::SpentSize { .. } => None,
    }
}

/// Adds the label, and the number behind it.
fn add_count(alloc: Global, label: &str, n: u64, text: &mut String) -> Mem<()>
    ensures { OnOk result (string_bytes text.new ≡ string_bytes text.old ++ label.now ++ decimal n) }
{
    let number = format!(in alloc; "{n}")?;
    text.push_str(label)?;
    text.push_str(number.as_str())?;
    Ok(())
}

/// The text where no size from the first to the last has a model.
fn sizes_text(alloc: Global, from: u8, to: u8) -> Mem<String>
    ensures { IfOk result (λ text. string_bytes text ≡ codes "no model of sizes " ++ decimal from ++ codes " to " ++ decimal to ++ codes "\n") }
{
    let mut text = format!(in alloc; "no model of sizes {from}")?;
    add_count(alloc, " to ", to as u64, &mut text)?;
    text.push_str("\n")?;
    Ok(text)
}

/// The text where the budget was spent in a piece of a size.
fn spent_text(alloc: Global, size: u8, piece: u32) -> Mem<String>
    ensures { IfOk result (λ text. string_bytes text ≡ codes "spent size " ++ decimal size ++ codes " piece " ++ decimal piece ++ codes "\n") }
{
    let mut text = format!(in alloc; "spent size {size}")?;
    add_count(alloc, " piece ", piece as u64, &mut text)?;
    text.push_str("\n")?;
    Ok(text)
}

/// The text of a search for a model, where that is made when it is written.
fn modelled_text(alloc: Global, modelled: &Modelled) -> Mem<String>
    requires { MakesModelledText modelled.now }
    ensures { IfOk result (λ text. string_bytes text ≡ modelled_text modelled.now) }
{
    Ok(match modelled {
        Modelled::Found { .. } => unreachable!(),
        Modelled::NoModel { size } => format!(in alloc; "no model of size {size}\n")?,
        Modelled::Spent { piece } => format!(in alloc; "spent piece {piece}\n")?,
        Modelled::TooManyCells { count } => format!(in alloc; "too wide: {count} cells\n")?,
        Modelled::TooManyInstances { count } => {
            format!(in alloc; "too wide: {count} instances\n")?
        }
        Modelled::NoModelOfSizes { from, to } => sizes_text(alloc, *from, *to)?,
        Modelled::SpentSize { size, piece } => spent_text(alloc, *size, *piece)?,
    })
}

/// How a run ended, without a number.
fn outcome_word(outcome: Outcome) -> &'static str
    ensures { result.now ≡ outcome_word outcome }
{
    match outcome {
        Outcome::Proof => "proof",
        Outcome::SosEmpty => "sos_empty",
        Outcome::GivenLimit(_) => "given_limit",
        Outcome::KeptLimit(_) => "kept_limit",
        Outcome::WorkLimit(_) => "work_limit",
    }
}

/// The text of the run of a ladder.
fn bench_text(alloc: Global, run: &BenchRun) -> Mem<String>
    ensures { IfOk result (λ text. string_bytes text ≡ bench_text run.now) }
{
    let rungs = run.rungs;
    let mut text = format!(in alloc; "bench {rungs}: ")?;
    text.push_str(outcome_word(run.outcome))?;
    add_count(alloc, ", given ", run.given, &mut text)?;
    add_count(alloc, ", kept ", run.kept, &mut text)?;
    add_count(alloc, ", versions ", run.versions, &mut text)?;
    add_count(alloc, ", lines ", run.lines, &mut text)?;
    text.push_str("\n")?;
    Ok(text)
}

/// The answer where an input isn't read.
pub fn refusal(error: InputError) -> Answer
    ensures { result ≡ answer_to error }
{
    match error {
        InputError::Refused(place) => Answer::InputRefused(place),
        InputError::OutOfMemory => Answer::OutOfMemory,
    }
}

impl Answer {
    /// The exit status.
    pub fn status(&self) -> u8
        ensures { result ≡ status_of self.now }
    {
        match self {
            Answer::ProofChecked { .. } => 0,
            Answer::NotAProof { .. } => 1,
            Answer::Ran { outcome, .. } => outcome_status(*outcome),
            Answer::Model(modelled) => modelled_status(modelled),
            Answer::Benched(run) => outcome_status(run.outcome),
            Answer::InputRefused(_) => 3,
            Answer::WordsRefused => 4,
            Answer::ReadFault => 5,
            Answer::OutOfMemory => 7,
        }
    }

    /// The text, where it is there already: it came with the answer, or is always the same.
    pub fn ready_text(&self) -> Option<&[u8]>
        ensures some { IfSome result (λ text. text.now ≡ text_of self.now) }
        ensures none { IfNone result (MakesText self.now) }
    {
        match self {
            Answer::ProofChecked { .. } => None,
            Answer::NotAProof { .. } => None,
            Answer::Ran { text, .. } => Some(text.as_slice()),
            Answer::Model(modelled) => found_text(modelled),
            Answer::Benched(_) => None,
            Answer::InputRefused(_) => None,
            Answer::WordsRefused => Some(WORDS_TEXT.as_bytes()),
            Answer::ReadFault => Some(READ_FAULT_TEXT.as_bytes()),
            Answer::OutOfMemory => Some(MEMORY_TEXT.as_bytes()),
        }
    }

    /// The text, where it has to be made.
    pub fn made_text(&self, alloc: Global) -> Mem<String>
        requires { MakesText self.now }
        ensures { IfOk result (λ text. string_bytes text ≡ text_of self.now) }
    {
        Ok(match self {
            Answer::ProofChecked { lines } => format!(in alloc; "proof checked: {lines} lines\n")?,
            Answer::NotAProof { line } => format!(in alloc; "not a proof: line {line}\n")?,
            Answer::Model(modelled) => modelled_text(alloc, modelled)?,
            Answer::Benched(run) => bench_text(alloc, run)?,
            Answer::InputRefused(place) => refused_text(alloc, place.at, kind_text(place.kind))?,
            Answer::Ran { .. } => unreachable!(),
            Answer::WordsRefused => unreachable!(),
            Answer::ReadFault => unreachable!(),
            Answer::OutOfMemory => unreachable!(),
        })
    }
}
