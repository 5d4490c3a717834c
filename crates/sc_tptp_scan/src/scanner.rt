//! All tokens of a text.

ghost use Rattle.std.specs.Prelude.{◌≡◌, ◌<◌, ◌++◌, IfOk};
ghost use Rattle.sc_tptp_rules.specs.CnfTokens.{tokens_at_end};
ghost use Rattle.sc_tptp_rules.specs.Placing.{cnf_tokens};
ghost use Rattle.sc_tptp_scan.specs.Left.{region_of};
ghost use Rattle.sc_tptp_scan.specs.Standing.{found_at, standing_found};

use crate::pieces::next_piece;
use crate::placing::token_at;
use crate::region::Region;
use crate::standing::{Standing, standing_behind, start};
use sc_input_rules::{InputKind, Token};
use sc_term::{List, Mem};
use std::alloc::Global;

/// Puts the token that was found, if one was, behind the others as it may stand there, and answers where the next stands.
fn take_found<'a>(
    standing: Standing,
    found: Option<Token<'a>>,
    tokens: &mut List<Token<'a>>,
) -> Mem<Standing>
    requires count { standing.count < usize.MAX }
    requires around { standing.around < usize.MAX }
    ensures tokens { IfOk result (λ s. tokens.new ≡ tokens.old ++ found_at standing found.entry) }
    ensures standing { IfOk result (λ s. s ≡ standing_found standing found.entry) }
{
    match found {
        None => Ok(standing),
        Some(token) => {
            let next = standing_behind(standing, &token);
            tokens.push(token_at(standing, token))?;
            Ok(next)
        }
    }
}

/// Puts the fault of a text that ends in a comment or a quoted name behind its tokens.
fn take_end<'a>(region: Region, total: usize, tokens: &mut List<Token<'a>>) -> Mem<()>
    ensures { IfOk result (λ _. tokens.new ≡ tokens.old ++ tokens_at_end (region_of region) total) }
{
    match region {
        Region::Outside | Region::InLine | Region::AtClosing => Ok(()),
        Region::AtOpening | Region::InComment | Region::InQuotes => {
            tokens.push(Token::Refused(total as u64, InputKind::Truncated))?;
            Ok(())
        }
    }
}

/// The tokens of the bytes, white space and comments left out, each with its byte. What makes no token, or may not stand
/// where it does, stands as one that is refused, with the kind of that fault. Time and memory are in proportion to the
/// bytes.
pub fn scan_cnf<'a>(alloc: Global, bytes: &'a [u8]) -> Mem<List<Token<'a>>>
    ensures { IfOk result (λ ts. ts ≡ cnf_tokens bytes.now) }
{
    let total = bytes.len();
    let mut rest = bytes;
    let mut region = Region::Outside;
    let mut standing = start();
    // Room for a token a byte, which is about the most there can be: only what is filled takes up memory, and nothing is
    // moved when it grows.
    let mut tokens = List::from_vec(Vec::with_capacity(alloc, total)?);
    while !rest.is_empty() {
        let (found, next, behind) = next_piece(total, region, rest);
        standing = take_found(standing, found, &mut tokens)?;
        region = next;
        rest = behind;
    }
    take_end(region, total, &mut tokens)?;
    Ok(tokens)
}
