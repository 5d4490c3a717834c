//! Reading a whole run text.

ghost use Rattle.std.specs.Prelude.{◌≡◌, ◌≤◌, codes, IfOk};
ghost use Rattle.sc_input_scan.specs.Told.{Gives};
ghost use Rattle.sc_text_section.specs.Clipped.{seen_by};
ghost use Rattle.sc_text_rules.specs.ProofGrammar as grammar;
ghost use Rattle.sc_text_run_rules.specs.RunValue.{run_value};
ghost use Rattle.sc_text_run_rules.specs.RunSection as of;
ghost use Rattle.sc_text_run_section.specs.OverSymbols.{HaveTables};
ghost use Rattle.sc_text_run_section.specs.Seen.{heading_of, proof_of, clipped_proof, clipped_run};

use crate::number::number_from;
use crate::turns::{mark_rows, read_turns};
use crate::version::read_lists;
use sc_core_rules::Outcome;
use sc_input_rules::{Sign, Token};
use sc_input_scan::{Stop, stop_at, the_sign, the_word};
use sc_term::{Line, List, Signature};
use sc_text_run_rules::{MarkRow, RunText};
use sc_text_section::{proof_section, the_heading};
use std::alloc::Global;

/// The number of lists, and in every how many turns the oldest clause is given.
#[derive(Clone, Copy, Debug, PartialEq, Eq)]
pub struct Heading {
    pub lists: u32,
    pub ratio: u32,
}

/// The lines of a proof and their marks.
#[derive(Debug, Drop)]
pub struct MarkedProof {
    pub lines: List<Line>,
    pub marks: List<MarkRow>,
}

/// A word, a number from `low` to `high`, and a full stop.
fn counted_row<'t, 'a>(
    name: &[u8],
    low: u32,
    high: u32,
    tokens: &'t [Token<'a>],
) -> Result<(u32, &'t [Token<'a>]), Stop>
    ensures value { Gives (λ x. (x.0, x.1.now)) result (of.a_counted_row name.now low high tokens.now) }
    ensures range { IfOk result (λ x. (low ≤ x.0) × (x.0 ≤ high)) }
{
    let rest = the_word(name, tokens)?;
    let (number, rest) = number_from(low, high, rest)?;
    let rest = the_sign(Sign::Stop, rest)?;
    Ok((number, rest))
}

/// `run.`, the number of lists and the ratio.
fn run_heading<'t, 'a>(tokens: &'t [Token<'a>]) -> Result<(Heading, &'t [Token<'a>]), Stop>
    ensures value { Gives (λ x. (heading_of x.0, x.1.now)) result (of.a_run_heading tokens.now) }
    ensures few { IfOk result (λ x. x.0.lists ≤ 8) }
{
    let rest = the_heading(b"run".as_slice(), tokens)?;
    let (lists, rest) = counted_row(b"lists".as_slice(), 1, 8, rest)?;
    let (ratio, rest) = counted_row(b"ratio".as_slice(), 1, 1001, rest)?;
    Ok((Heading { lists, ratio }, rest))
}

/// A proof section and a mark for each of its lines.
fn marked_proof<'t, 'a>(
    alloc: Global,
    sig: &Signature,
    tokens: &'t [Token<'a>],
) -> Result<(MarkedProof, &'t [Token<'a>]), Stop>
    ensures { Gives (λ x. (proof_of x.0, x.1.now)) result (seen_by clipped_proof (of.marked_proof sig.now tokens.now)) }
{
    let (lines, rest) = proof_section(alloc, sig, tokens)?;
    let (marks, rest) = mark_rows(alloc, lines.len(), rest)?;
    Ok((MarkedProof { lines, marks }, rest))
}

/// A marked proof behind the outcome of a proof, nothing behind another.
fn proof_behind<'t, 'a>(
    alloc: Global,
    sig: &Signature,
    outcome: Outcome,
    tokens: &'t [Token<'a>],
) -> Result<(MarkedProof, &'t [Token<'a>]), Stop>
    ensures { Gives (λ x. (proof_of x.0, x.1.now)) result (seen_by clipped_proof (of.proof_behind outcome sig.now tokens.now)) }
{
    match outcome {
        Outcome::Proof => marked_proof(alloc, sig, tokens),
        _ => {
            let none = MarkedProof {
                lines: List::new(alloc),
                marks: List::new(alloc),
            };
            Ok((none, tokens))
        }
    }
}

/// All rows in their order, and what stands behind them.
fn run_section<'t, 'a>(
    alloc: Global,
    sig: &Signature,
    tokens: &'t [Token<'a>],
) -> Result<(RunText, &'t [Token<'a>]), Stop>
    ensures value { Gives (λ x. (run_value x.0, x.1.now)) result (seen_by clipped_run (of.run_section sig.now tokens.now)) }
    ensures tables { IfOk result (λ x. HaveTables sig.now x.0.lists) }
{
    let (heading, rest) = run_heading(tokens)?;
    let (lists, rest) = read_lists(alloc, sig, heading.lists, rest)?;
    let (turns, rest) = read_turns(alloc, sig, heading.lists as usize, rest)?;
    let (proof, rest) = proof_behind(alloc, sig, turns.outcome, rest)?;
    let rest = the_heading(b"end_of_run".as_slice(), rest)?;
    let run = RunText {
        ratio: heading.ratio,
        lists,
        given: turns.given,
        kept: turns.kept,
        ends: turns.ends,
        outcome: turns.outcome,
        proof: proof.lines,
        marks: proof.marks,
    };
    Ok((run, rest))
}

/// The run of a run text over these symbols, behind which nothing stands, and no tokens. The number of a step, of a path
/// or of a variable that is greater than 4,294,967,295 is answered as that number. It stops for want of memory, or at
/// the first token that `run_section` doesn't allow, or that stands behind it. The tables of each version are those of its
/// size over the symbols (`HaveTables`).
pub fn read_run_section<'t, 'a>(
    alloc: Global,
    sig: &Signature,
    tokens: &'t [Token<'a>],
) -> Result<(RunText, &'t [Token<'a>]), Stop>
    ensures value { Gives (λ x. (run_value x.0, x.1.now)) result (seen_by clipped_run (grammar.alone (of.run_section sig.now tokens.now))) }
    ensures tables { IfOk result (λ x. HaveTables sig.now x.0.lists) }
{
    let (run, rest) = run_section(alloc, sig, tokens)?;
    if rest.is_empty() {
        Ok((run, rest))
    } else {
        Err(stop_at(rest))
    }
}
