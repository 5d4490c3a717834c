//! Where a byte of a text stands.

ghost use Rattle.std.specs.Prelude.{◌≡◌, ◌==◌};
ghost use Rattle.sc_input_rules.specs.Tokens.{begins};
ghost use Rattle.sc_tptp_rules.specs.CnfTokens as spec;
ghost use Rattle.sc_tptp_scan.specs.Left.{region_of};

/// Where a byte stands: among tokens, in a comment up to the end of its line, at the `*` of `/*`, in such a comment, at
/// the `/` of `*/`, or in a quoted name.
#[derive(Clone, Copy, Debug, PartialEq, Eq)]
pub enum Region {
    Outside,
    InLine,
    AtOpening,
    InComment,
    AtClosing,
    InQuotes,
}

/// Whether the bytes begin with this one.
pub fn begins_with(byte: u8, bytes: &[u8]) -> bool
    ensures { result ≡ begins (λ b. b == byte) bytes.now }
{
    match bytes {
        [] => false,
        [first, ..] => *first == byte,
    }
}

/// Where the byte behind one that stands among tokens stands.
fn region_outside(byte: u8, next: &[u8]) -> Region
    ensures { region_of result ≡ spec.region_outside byte next.now }
{
    if byte == b'%' {
        Region::InLine
    } else if byte == b'\'' {
        Region::InQuotes
    } else if byte == b'/' && begins_with(b'*', next) {
        Region::AtOpening
    } else {
        Region::Outside
    }
}

/// Where the byte behind one stands, which is followed by these.
pub fn region_behind(region: Region, byte: u8, next: &[u8]) -> Region
    ensures { region_of result ≡ spec.region_behind (region_of region) byte next.now }
{
    match region {
        Region::Outside => region_outside(byte, next),
        Region::InLine => {
            if byte == b'\n' {
                Region::Outside
            } else {
                Region::InLine
            }
        }
        Region::AtOpening => Region::InComment,
        Region::InComment => {
            if byte == b'*' && begins_with(b'/', next) {
                Region::AtClosing
            } else {
                Region::InComment
            }
        }
        Region::AtClosing => Region::Outside,
        Region::InQuotes => {
            if byte == b'\'' {
                Region::Outside
            } else {
                Region::InQuotes
            }
        }
    }
}
