//! The number that digits write.

ghost use Rattle.std.specs.Prelude.{◌≡◌, ◌≤◌, true, false, MatchOption};
ghost use Rattle.std.specs.Char.{digit_value};
ghost use Rattle.sc_input_rules.specs.Tokens.{is_digit};
ghost use Rattle.sc_input_scan.specs.Numeral.{numeral_value};

fn digit_of(byte: u8) -> Option<u64>
    ensures { MatchOption result (is_digit byte ≡ false) (λ d. (is_digit byte ≡ true) × (d ≡ digit_value byte) × (d ≤ 9)) }
{
    if b'0' <= byte && byte <= b'9' {
        Some(u64::from(byte - b'0'))
    } else {
        None
    }
}

/// The number that digits write, at most the greatest u64; none where another byte is among them.
pub fn numeral_value(text: &[u8]) -> Option<u64>
    ensures { result ≡ numeral_value text.now }
{
    let mut value: u64 = 0;
    for byte in text {
        match digit_of(*byte) {
            Some(digit) => value = value.saturating_mul(10).saturating_add(digit),
            None => return None,
        }
    }
    Some(value)
}
