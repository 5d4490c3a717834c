//! All tokens of a text.

ghost use Rattle.std.specs.Prelude.{◌≡◌, ◌≤◌, length, map, IfOk};
ghost use Rattle.sc_input_rules.specs.Tokens.{tokens_behind};
ghost use Rattle.sc_input_rules.specs.Reading.{problem_tokens, without_colon};
ghost use Rattle.sc_input_scan.specs.Rest.{token_as};

use crate::pieces::next_token;
use sc_input_rules::{InputKind, Sign, Token};
use sc_term::{List, Mem};
use std::alloc::Global;

/// The token, refused where it is a `:` and that is none here.
fn allowed<'a>(has_colon: bool, token: Token<'a>) -> Token<'a>
    ensures { result ≡ token_as has_colon token.entry }
{
    match token {
        Token::Punctuation(at, Sign::Colon) if !has_colon => {
            Token::Refused(at, InputKind::Unsupported)
        }
        token => token,
    }
}

#[tactic(auto, using(crate::proofs::Scanning::turns))]
fn scan_with<'a>(
    alloc: Global,
    has_colon: bool,
    bytes: &'a [u8],
    from: usize,
) -> Mem<List<Token<'a>>>
    requires { from ≤ length bytes.now }
    ensures { IfOk result (λ ts. ts ≡ map (token_as has_colon) (tokens_behind from bytes.now)) }
{
    let total = bytes.len();
    let (_, mut rest) = bytes.split_at(from);
    // Room for a token a byte, which is the most there can be: only what is filled takes up memory, and nothing is
    // moved when it grows.
    let mut tokens = List::from_vec(Vec::with_capacity(alloc, rest.len())?);
    while !rest.is_empty() {
        let (found, behind) = next_token(total, rest);
        if let Some(token) = found {
            tokens.push(allowed(has_colon, token))?;
        }
        rest = behind;
    }
    Ok(tokens)
}

/// The tokens of the bytes from one on, white space and comments left out, each with its byte. What makes no token
/// stands as one that is refused, with the kind of that fault. Time and memory are in proportion to the bytes.
pub fn scan<'a>(alloc: Global, bytes: &'a [u8], from: usize) -> Mem<List<Token<'a>>>
    requires { from ≤ length bytes.now }
    ensures { IfOk result (λ ts. ts ≡ tokens_behind from bytes.now) }
{
    scan_with(alloc, true, bytes, from)
}

/// The tokens of a problem, where `:` is none and refused.
pub fn scan_problem<'a>(alloc: Global, bytes: &'a [u8]) -> Mem<List<Token<'a>>>
    ensures { IfOk result (λ ts. ts ≡ problem_tokens bytes.now) }
{
    scan_with(alloc, false, bytes, 0)
}
