//! The reader of run texts.

ghost use Rattle.std.specs.Prelude.{◌≡◌, Ok, IfOk, IfErr};
ghost use Rattle.sc_input_scan.specs.Told.{Fails};
ghost use Rattle.sc_input.specs.Refusal.{Refuses};
ghost use Rattle.sc_input.specs.Answer.{read_at, answer, Tells};
ghost use Rattle.sc_text_run_rules.specs.RunValue.{run_value};
ghost use Rattle.sc_text_run_rules.specs.RunReading.{run_of};
ghost use Rattle.sc_text_run_section.specs.OverSymbols.{HaveTables};
ghost use Rattle.sc_text.specs.RunAnswer.{clipped_section, judged_tokens};

use crate::read::tokens_behind;
use sc_input::{InputError, fault_at, first_byte, last_tokens};
use sc_input_rules::{Place, Token};
use sc_input_scan::Stop;
use sc_term::Signature;
use sc_text_limits::first_limit;
use sc_text_run_rules::RunText;
use sc_text_run_section::read_run_section;
use std::alloc::Global;

fn run_at(run: RunText, at: Result<u64, Place>) -> Result<(RunText, u64), InputError>
    ensures value { Tells (λ x. (run_value x.0, x.1)) result (read_at (run_value run) at) }
    ensures run { IfOk result (λ x. x.0 ≡ run) }
{
    match at {
        Ok(at) => Ok((run, at)),
        Err(place) => Err(InputError::Refused(place)),
    }
}

/// The run that the tokens spell, and where the first token left begins, or what stands behind all.
fn run_up_to(
    alloc: Global,
    sig: &Signature,
    behind: Result<u64, Place>,
    tokens: &[Token],
) -> Result<(RunText, Result<u64, Place>), Stop>
    ensures ok { IfOk result (λ x. answer behind (clipped_section sig.now tokens.now) ≡ read_at (run_value x.0) x.1) }
    ensures err { IfErr result (λ e. Fails e (clipped_section sig.now tokens.now)) }
    ensures tables { IfOk result (λ x. HaveTables sig.now x.0.lists) }
{
    let (run, left) = read_run_section(alloc, sig, tokens)?;
    Ok((run, first_byte(behind, left)))
}

/// What is read of tokens that pass no limit, or only with the last of them. Behind them stands the byte at which the
/// text ends, or that limit: it is the answer where they are read to their end.
#[tactic(auto, using(crate::proofs::RunLaws::up_to))]
fn read_up_to(
    alloc: Global,
    sig: &Signature,
    behind: Result<u64, Place>,
    tokens: &[Token],
) -> Result<(RunText, u64), InputError>
    ensures value { Tells (λ x. (run_value x.0, x.1)) result (answer behind (clipped_section sig.now tokens.now)) }
    ensures tables { IfOk result (λ x. HaveTables sig.now x.0.lists) }
{
    match run_up_to(alloc, sig, behind, tokens) {
        Ok((run, at)) => run_at(run, at),
        Err(Stop::At(left, kind)) => {
            let at = first_byte(behind, last_tokens(tokens, left));
            Err(fault_at(kind, at))
        }
        Err(Stop::Memory) => Err(InputError::OutOfMemory),
    }
}

/// What is read of all tokens: those behind the first that passes a limit are never looked at.
#[tactic(auto, using(crate::proofs::RunLaws::within))]
fn read_tokens(
    alloc: Global,
    sig: &Signature,
    end: u64,
    tokens: &[Token],
) -> Result<(RunText, u64), InputError>
    ensures value { Tells (λ x. (run_value x.0, x.1)) result (judged_tokens sig.now end tokens.now) }
    ensures tables { IfOk result (λ x. HaveTables sig.now x.0.lists) }
{
    match first_limit(alloc, sig, tokens)? {
        None => read_up_to(alloc, sig, Ok(end), tokens),
        Some(passed) => {
            let (front, _) = tokens.split_at(passed.token + 1);
            read_up_to(alloc, sig, Err(passed.place), front)
        }
    }
}

/// The run that the bytes from one on spell over the symbols of the signature, as `run_of` defines it; behind the last
/// byte stands no run. The tables of each version are those of its size over the symbols (`HaveTables`). Time is in
/// proportion to the bytes.
///
/// # Errors
/// The first fault: the byte at which the text is refused, and why; or want of memory.
#[tactic(auto, using(crate::proofs::RunLaws::runs))]
pub fn read_run(
    alloc: Global,
    sig: &Signature,
    bytes: &[u8],
    from: u64,
) -> Result<RunText, InputError>
    ensures ok { IfOk result (λ run. run_of sig.now bytes.now from ≡ Ok (run_value run)) }
    ensures tables { IfOk result (λ run. HaveTables sig.now run.lists) }
    ensures refused { IfErr result (λ e. Refuses e (run_of sig.now bytes.now from)) }
{
    let tokens = tokens_behind(alloc, bytes, from)?;
    let (run, _) = read_tokens(alloc, sig, bytes.len() as u64, tokens.as_slice())?;
    Ok(run)
}
