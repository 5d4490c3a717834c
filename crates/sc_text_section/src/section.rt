//! Reading the lines of a section.

ghost use Rattle.std.specs.Prelude.{◌≡◌, ◌<◌, ◌-◌, ◌^◌, length, codes};
ghost use Rattle.sc_input_rules.specs.ProblemGrammar.{next_is_word};
ghost use Rattle.sc_input_scan.specs.Told.{Gives};
ghost use Rattle.sc_text_rules.specs.ProofGrammar as of;
ghost use Rattle.sc_text_section.specs.Clipped.{clipped_line, clipped_lines, seen_by};

use crate::clause::read_text_clause;
use crate::number::the_number;
use crate::step::read_step;
use sc_input_rules::{Sign, Token};
use sc_input_scan::{Rest, Stop, next_is_word, stop_at, the_sign, the_word};
use sc_term::{Line, List, Signature};
use std::alloc::Global;

const PROOF: &str = "proof";

const END_OF_PROOF: &str = "end_of_proof";

/// The line of this number: the number, a step, `:`, a clause and a full stop.
fn read_line<'t, 'a>(
    alloc: Global,
    sig: &Signature,
    number: u64,
    tokens: &'t [Token<'a>],
) -> Result<(Line, &'t [Token<'a>]), Stop>
    requires { number < 2 ^ 64 - 1 }
    ensures { Gives (λ x. (x.0, x.1.now)) result (seen_by clipped_line (of.a_line sig.now number tokens.now)) }
{
    let rest = the_number(number, tokens)?;
    let (step, rest) = read_step(alloc, sig, rest)?;
    let rest = the_sign(Sign::Colon, rest)?;
    let (clause, rest) = read_text_clause(alloc, sig, rest)?;
    Ok((Line { step, clause }, rest))
}

fn at_end_of_proof(tokens: &[Token]) -> bool
    ensures { result ≡ next_is_word (codes "end_of_proof") tokens.now }
{
    next_is_word(END_OF_PROOF.as_bytes(), tokens)
}

/// The lines up to `end_of_proof`, numbered from 1.
fn read_lines<'t, 'a>(
    alloc: Global,
    sig: &Signature,
    tokens: &'t [Token<'a>],
) -> Result<(List<Line>, &'t [Token<'a>]), Stop>
    ensures { Gives (λ x. (x.0, x.1.now)) result (clipped_lines (of.lines_within (length tokens.now) sig.now 1 tokens.now)) }
{
    let mut front = List::new(alloc);
    let mut rest = Rest::new(tokens);
    for earlier in 0..tokens.len() {
        let left = rest.tokens();
        if at_end_of_proof(left) {
            return Ok((front, left));
        }
        let (line, after) = read_line(alloc, sig, earlier as u64 + 1, left)?;
        front.push(line)?;
        rest = Rest::new(after);
    }
    Err(stop_at(rest.tokens()))
}

/// A word and a full stop.
pub fn the_heading<'t, 'a>(name: &[u8], tokens: &'t [Token<'a>]) -> Result<&'t [Token<'a>], Stop>
    ensures { Gives (λ x. (tt, x.now)) result (of.the_heading name.now tokens.now) }
{
    let rest = the_word(name, tokens)?;
    the_sign(Sign::Stop, rest)
}

/// `proof.`, the lines and `end_of_proof.`, and what stands behind. Numbers are answered as in `read_section`.
pub fn proof_section<'t, 'a>(
    alloc: Global,
    sig: &Signature,
    tokens: &'t [Token<'a>],
) -> Result<(List<Line>, &'t [Token<'a>]), Stop>
    ensures { Gives (λ x. (x.0, x.1.now)) result (clipped_lines (of.proof_section sig.now tokens.now)) }
{
    let rest = the_heading(PROOF.as_bytes(), tokens)?;
    let (lines, rest) = read_lines(alloc, sig, rest)?;
    let rest = the_heading(END_OF_PROOF.as_bytes(), rest)?;
    Ok((lines, rest))
}

/// The lines of a proof section over these symbols, behind which nothing stands, and no tokens. A number of a step, of
/// a path or of a variable that is greater than 4,294,967,295 is answered as that number. It stops for want of memory,
/// or at the first token that `proof_section` doesn't allow, or that stands behind it.
pub fn read_section<'t, 'a>(
    alloc: Global,
    sig: &Signature,
    tokens: &'t [Token<'a>],
) -> Result<(List<Line>, &'t [Token<'a>]), Stop>
    ensures { Gives (λ x. (x.0, x.1.now)) result (clipped_lines (of.alone (of.proof_section sig.now tokens.now))) }
{
    let (lines, rest) = proof_section(alloc, sig, tokens)?;
    if rest.is_empty() {
        Ok((lines, rest))
    } else {
        Err(stop_at(rest))
    }
}
