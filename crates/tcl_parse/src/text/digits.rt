// Decimal numbers.

ghost use Rattle.std.specs.Prelude.{◌≡◌, ◌≤◌, ◌+◌, ◌-◌, ◌*◌, ◌^◌, ◌∷◌, length, nat_lt, pos, if◌then◌else◌};
ghost use Rattle.std.specs.Prelude.{MatchOption, None, Some};
ghost use Rattle.std.specs.List.{prefix_len};
ghost use Rattle.tcl_text.specs.Tokens as tokens;

/// A byte from `0` to `9`.
pub(crate) fn is_digit(byte: u8) -> bool
    ensures { result ≡ tokens.is_digit byte }
{
    b'0' <= byte && byte <= b'9'
}

/// How many digits stand at the front.
pub(crate) fn digit_count(bytes: &[u8]) -> usize
    ensures count { result ≡ prefix_len tokens.is_digit bytes.now }
    ensures within { result ≤ length bytes.now }
{
    let mut count = 0;
    for byte in bytes {
        if !is_digit(*byte) {
            return count;
        }
        count += 1;
    }
    count
}

/// The number with these digits, up to `2^127 - 1`.
pub(crate) fn number_of(first: u8, digits: &[u8]) -> Option<i128>
    ensures { result ≡ (if nat_lt (tokens.value_of (first ∷ digits.now)) (2 ^ 127)
        then Some (pos (tokens.value_of (first ∷ digits.now))) else None) }
{
    let mut value = u128::from(first.saturating_sub(b'0'));
    for digit in digits {
        match with_digit(value, *digit) {
            Some(longer) => value = longer,
            None => return None,
        }
    }
    match i128::try_from(value) {
        Ok(number) => Some(number),
        Err(_) => None,
    }
}

/// The number with one digit more, below `2^128`.
fn with_digit(value: u128, digit: u8) -> Option<u128>
    ensures { MatchOption result (2 ^ 128 ≤ 10 * value + (digit - 48)) (λ n. n ≡ 10 * value + (digit - 48)) }
{
    value
        .checked_mul(10)?
        .checked_add(u128::from(digit.saturating_sub(b'0')))
}
