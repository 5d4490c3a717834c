//! The reader of proof sections.

ghost use Rattle.std.specs.Prelude.{◌≡◌, Ok, IfOk, IfErr};
ghost use Rattle.sc_input_rules.specs.Tokens as spec;
ghost use Rattle.sc_input_scan.specs.Told.{Fails};
ghost use Rattle.sc_input.specs.Refusal.{Refuses};
ghost use Rattle.sc_input.specs.Answer.{read_at, answer, Tells};
ghost use Rattle.sc_text_rules.specs.ProofReading.{proof_of};
ghost use Rattle.sc_text.specs.Answer.{clipped_section, judged_tokens};

use sc_input::{InputError, fault_at, first_byte, last_tokens};
use sc_input_rules::{Place, Token};
use sc_input_scan::{Stop, scan};
use sc_term::{Line, List, Mem, Signature};
use sc_text_limits::first_limit;
use sc_text_section::read_section;
use std::alloc::Global;

/// The tokens of the bytes from one on, none where no byte is left.
#[tactic(auto, using(crate::proofs::Laws::same_tokens))]
pub fn tokens_behind<'a>(alloc: Global, bytes: &'a [u8], from: u64) -> Mem<List<Token<'a>>>
    ensures { IfOk result (λ ts. ts ≡ spec.tokens_behind from bytes.now) }
{
    scan(alloc, bytes, (from as usize).min(bytes.len()))
}

fn lines_at(lines: List<Line>, at: Result<u64, Place>) -> Result<(List<Line>, u64), InputError>
    ensures { Tells (λ x. (x.0, x.1)) result (read_at lines at) }
{
    match at {
        Ok(at) => Ok((lines, at)),
        Err(place) => Err(InputError::Refused(place)),
    }
}

/// The lines that the tokens spell, and where the first token left begins, or what stands behind all.
fn lines_up_to(
    alloc: Global,
    sig: &Signature,
    behind: Result<u64, Place>,
    tokens: &[Token],
) -> Result<(List<Line>, Result<u64, Place>), Stop>
    ensures ok { IfOk result (λ x. answer behind (clipped_section sig.now tokens.now) ≡ read_at x.0 x.1) }
    ensures err { IfErr result (λ e. Fails e (clipped_section sig.now tokens.now)) }
{
    let (lines, left) = read_section(alloc, sig, tokens)?;
    Ok((lines, first_byte(behind, left)))
}

/// What is read of tokens that pass no limit, or only with the last of them. Behind them stands the byte at which the
/// text ends, or that limit: it is the answer where they are read to their end.
#[tactic(auto, using(crate::proofs::Laws::up_to))]
fn read_up_to(
    alloc: Global,
    sig: &Signature,
    behind: Result<u64, Place>,
    tokens: &[Token],
) -> Result<(List<Line>, u64), InputError>
    ensures { Tells (λ x. (x.0, x.1)) result (answer behind (clipped_section sig.now tokens.now)) }
{
    match lines_up_to(alloc, sig, behind, tokens) {
        Ok((lines, at)) => lines_at(lines, at),
        Err(Stop::At(left, kind)) => {
            let at = first_byte(behind, last_tokens(tokens, left));
            Err(fault_at(kind, at))
        }
        Err(Stop::Memory) => Err(InputError::OutOfMemory),
    }
}

/// What is read of all tokens: those behind the first that passes a limit are never looked at.
#[tactic(auto, using(crate::proofs::Laws::within))]
fn read_tokens(
    alloc: Global,
    sig: &Signature,
    end: u64,
    tokens: &[Token],
) -> Result<(List<Line>, u64), InputError>
    ensures { Tells (λ x. (x.0, x.1)) result (judged_tokens sig.now end tokens.now) }
{
    match first_limit(alloc, sig, tokens)? {
        None => read_up_to(alloc, sig, Ok(end), tokens),
        Some(passed) => {
            let (front, _) = tokens.split_at(passed.token + 1);
            read_up_to(alloc, sig, Err(passed.place), front)
        }
    }
}

/// The lines of the proof section that the bytes from one on spell over the symbols of the signature, as `proof_of`
/// defines them; behind the last byte stands no section. Time and memory are in proportion to the bytes.
///
/// # Errors
/// The first fault: the byte at which the section is refused, and why; or want of memory.
#[tactic(auto, using(crate::proofs::Laws::proofs))]
pub fn read_proof(
    alloc: Global,
    sig: &Signature,
    bytes: &[u8],
    from: u64,
) -> Result<List<Line>, InputError>
    ensures ok { IfOk result (λ lines. proof_of sig.now bytes.now from ≡ Ok lines) }
    ensures refused { IfErr result (λ e. Refuses e (proof_of sig.now bytes.now from)) }
{
    let tokens = tokens_behind(alloc, bytes, from)?;
    let (lines, _) = read_tokens(alloc, sig, bytes.len() as u64, tokens.as_slice())?;
    Ok(lines)
}
