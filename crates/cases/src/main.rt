//! Answers a table of texts as `scott` would under the words of each, and counts those whose answer isn't the one wanted.
//!
//! The table is standard input. Each row is four parts, of which each goes up to the next line that begins with `==` and a
//! space, or is such a line:
//!
//! ```text
//! == check : a remark
//! the text
//! == 1
//! what is wanted, without its last line feed
//! ```
//!
//! The first line has the words, with one space between each two, then ` : ` and a remark. The text goes up to the line
//! feed before the line with the status that is wanted, and what is wanted up to the line feed before the next row.
//! `== end` ends the table. Where the status is 3, the first `@` of the text marks the byte that must be told: it is left out
//! before the text is read, and what is wanted is the kind of the fault alone. All else is bytes as they stand.
//!
//! The word `reprint` is of this table alone: it reads a problem, and behind it a run text where the word `run` follows, else
//! a proof section, and prints what it has read of that again.
//!
//! Where the first word is `gated`, which is of this table alone too, the words behind it are the program's. The row runs
//! twenty times, each with a gate that holds the prover and two finders at their points (`waits.rt`), so that each turn sees
//! what the row tells. All other rows run with a gate that is open.
#![tactic(auto)]

mod waits;

use sc_base::{Sink, SoundSink, SoundSource, StdSink, StdSource, read_all, write_all};
use sc_input::{InputError, read_items};
use sc_term::{Mem, OutOfMemory};
use sc_text::{print_proof, print_run, read_proof, read_run};
use sc_top::{Answer, Gate, Open, scott_over_sound};
use std::alloc::Global;
use std::io;
use std::process::ExitCode;
use std::sync::Wait;
use std::thread::Threads;
use waits::Gated;

const MOST_BYTES: u64 = 1_000_000;

/// A longer answer is not the one wanted.
const MOST_ANSWER: usize = 32_768;

/// What stands before each row.
const HEAD: &[u8] = b"== ";

/// The same behind a text or what is wanted.
const NEXT: &[u8] = b"\n== ";

const END: &[u8] = b"end";

/// What stands between the words and the remark.
const BEHIND_WORDS: &[u8] = b" : ";

const REPRINT: &[u8] = b"reprint";

/// What stands before the program's words where a row runs with the gate.
const GATED: &[u8] = b"gated ";

/// How often such a row runs: threads may take turns otherwise from run to run.
const RUNS: u32 = 20;

/// The status of a text that is refused.
const REFUSED: &[u8] = b"3";

const MARK: u8 = b'@';

/// The words, the text, and the status and the answer that are wanted.
#[derive(Clone, Copy)]
struct Row<'a> {
    words: &'a [u8],
    text: &'a [u8],
    status: &'a [u8],
    wanted: &'a [u8],
}

/// What stands before the first occurrence of the pattern, and behind it.
fn cut<'a>(bytes: &'a [u8], pattern: &[u8]) -> Option<(&'a [u8], &'a [u8])> {
    for at in 0..bytes.len() {
        let (front, rest) = bytes.split_at(at);
        if let Some(behind) = rest.strip_prefix(pattern) {
            return Some((front, behind));
        }
    }
    None
}

/// The first row of what stands behind a head, and what stands behind the next one.
fn next_row(table: &[u8]) -> Option<(Row<'_>, &[u8])> {
    let (words, rest) = cut(table, BEHIND_WORDS)?;
    let (_remark, rest) = cut(rest, b"\n")?;
    let (text, rest) = cut(rest, NEXT)?;
    let (status, rest) = cut(rest, b"\n")?;
    let (wanted, rest) = cut(rest, NEXT)?;
    let row = Row {
        words,
        text,
        status,
        wanted,
    };
    Some((row, rest))
}

fn words(alloc: Global, line: &[u8]) -> Mem<Vec<String>> {
    let mut words = Vec::new(alloc);
    let mut rest = line;
    // A word takes a byte at least.
    for _ in 0..line.len() {
        let (word, behind) = cut(rest, b" ").unwrap_or((rest, b""));
        words.push(String::from_utf8_lossy(alloc, word)?)?;
        if behind.is_empty() {
            break;
        }
        rest = behind;
    }
    Ok(words)
}

/// A status and an answer, as they are told.
fn told(alloc: Global, status: &[u8], answer: &[u8]) -> Mem<Vec<u8>> {
    let mut told = Vec::from_slice(alloc, status)?;
    told.push(b'\n')?;
    told.extend_from_slice(answer)?;
    Ok(told)
}

/// A text that is to be refused, without its mark, and the line that is wanted, with the byte where the mark stood.
fn refused_case(alloc: Global, row: Row) -> Mem<(Vec<u8>, Vec<u8>)> {
    let (front, behind) = cut(row.text, &[MARK]).unwrap_or((row.text, b""));
    let mut bytes = Vec::from_slice(alloc, front)?;
    bytes.extend_from_slice(behind)?;
    let at = front.len();
    let mut wanted = told(
        alloc,
        row.status,
        format!(in alloc; "input refused at byte {at}: ")?.as_bytes(),
    )?;
    wanted.extend_from_slice(row.wanted)?;
    wanted.push(b'\n')?;
    Ok((bytes, wanted))
}

/// The text as it is read, and the status and the answer that are wanted, as they are told.
fn case(alloc: Global, row: Row) -> Mem<(Vec<u8>, Vec<u8>)> {
    if row.status == REFUSED {
        return refused_case(alloc, row);
    }
    let bytes = Vec::from_slice(alloc, row.text)?;
    let mut wanted = told(alloc, row.status, row.wanted)?;
    wanted.push(b'\n')?;
    Ok((bytes, wanted))
}

/// What is read behind a problem, printed again.
fn printed_again(alloc: Global, bytes: &[u8]) -> Result<Vec<u8>, InputError> {
    let items = read_items(alloc, bytes)?;
    let sig = items.problem.sig();
    // What follows the items is a word `proof` or `run`, or nothing.
    if bytes.get(items.rest as usize) == Some(&b'r') {
        let run = read_run(alloc, sig, bytes, items.rest)?;
        return Ok(print_run(alloc, sig, &run)?);
    }
    let lines = read_proof(alloc, sig, bytes, items.rest)?;
    Ok(print_proof(alloc, sig, &lines)?)
}

fn reprint(alloc: Global, bytes: &[u8]) -> Mem<Vec<u8>> {
    match printed_again(alloc, bytes) {
        Ok(text) => told(alloc, b"0", &text),
        Err(InputError::Refused(place)) => {
            let answer = Answer::InputRefused(place);
            let text = answer.made_text(alloc)?;
            told(alloc, REFUSED, text.as_bytes())
        }
        Err(InputError::OutOfMemory) => Err(OutOfMemory),
    }
}

/// The status and the answer of the program.
fn answer<R: Threads + Wait + Sync, G: Gate>(
    rt: &R,
    alloc: Global,
    line: &[u8],
    bytes: &[u8],
    gate: &G,
) -> Mem<Vec<u8>> {
    let words = words(alloc, line)?;
    let mut source = SoundSource::new(Vec::from_slice(alloc, bytes)?);
    let mut sink = SoundSink::new(alloc, MOST_ANSWER)?;
    let status = scott_over_sound(rt, alloc, &words, &mut source, &mut sink, gate);
    told(
        alloc,
        format!(in alloc; "{status}")?.as_bytes(),
        sink.bytes().unwrap_or(b""),
    )
}

fn answer_to<R: Threads + Wait + Sync>(
    rt: &R,
    alloc: Global,
    row: Row,
    bytes: &[u8],
) -> Mem<Vec<u8>> {
    if row.words == REPRINT {
        return reprint(alloc, bytes);
    }
    match row.words.strip_prefix(GATED) {
        Some(words) => answer(rt, alloc, words, bytes, &Gated::new()),
        None => answer(rt, alloc, row.words, bytes, &Open),
    }
}

/// Tells a text that is answered otherwise. What the sink can't take is lost, and the count tells all the same.
fn tell<K: Sink>(sink: &mut K, row: Row, wanted: &[u8], answered: &[u8]) {
    let _ = write_all(sink, row.words);
    let _ = write_all(sink, b"\n");
    let _ = write_all(sink, row.text);
    let _ = write_all(sink, b"\nwanted ");
    let _ = write_all(sink, wanted);
    let _ = write_all(sink, b"answered ");
    let _ = write_all(sink, answered);
}

/// Whether each answer is the one wanted; the first other is told.
fn is_as_wanted<R: Threads + Wait + Sync, K: Sink>(
    rt: &R,
    alloc: Global,
    row: Row,
    sink: &mut K,
) -> Mem<bool> {
    let (bytes, wanted) = case(alloc, row)?;
    let runs = if row.words.starts_with(GATED) {
        RUNS
    } else {
        1
    };
    for _ in 0..runs {
        let answered = answer_to(rt, alloc, row, &bytes)?;
        if answered.as_slice() != wanted.as_slice() {
            tell(sink, row, &wanted, &answered);
            return Ok(false);
        }
    }
    Ok(true)
}

/// How many rows there are, and how many of them are answered otherwise.
fn count<R: Threads + Wait + Sync, K: Sink>(
    rt: &R,
    alloc: Global,
    table: &[u8],
    sink: &mut K,
) -> Mem<(u64, u64)> {
    let mut rest = table.strip_prefix(HEAD).unwrap_or(b"");
    let (mut rows, mut others): (u64, u64) = (0, 0);
    // A row takes a byte at least.
    for _ in 0..table.len() {
        let Some((row, behind)) = next_row(rest) else {
            break;
        };
        rows = rows.saturating_add(1);
        if !is_as_wanted(rt, alloc, row, sink)? {
            others = others.saturating_add(1);
        }
        if behind.starts_with(END) {
            break;
        }
        rest = behind;
    }
    Ok((rows, others))
}

fn run<R: Threads + Wait + Sync, K: Sink>(
    rt: &R,
    alloc: Global,
    table: &[u8],
    sink: &mut K,
) -> Mem<u8> {
    let (rows, others) = count(rt, alloc, table, sink)?;
    let line = format!(in alloc; "{rows} rows, {others} answered otherwise\n")?;
    let _ = write_all(sink, line.as_bytes());
    Ok(if others == 0 { 0 } else { 1 })
}

fn main(rt: HostRuntime) -> ExitCode {
    let alloc = rt.alloc();
    let mut source = StdSource::new(rt.reader());
    let mut sink = StdSink::new(io::writer(&rt));
    let Ok(table) = read_all(alloc, &mut source, MOST_BYTES) else {
        return ExitCode::from(5);
    };
    ExitCode::from(run(&rt, alloc, &table, &mut sink).unwrap_or(7))
}
