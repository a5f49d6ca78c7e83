//! Numbers as a text writes them.
ghost use Rattle.std.specs.Prelude.{◌≡◌, ◌<◌, ℤ, IfSome, unsigned_abs};
ghost use Rattle.text.specs.Numbers.{number as number_in, signed as signed_in};

// The most digits of a number.
const MOST_DIGITS: usize = 5;

/// The number that the bytes write: 0, or a digit 1 to 9 and up to four more digits.
pub fn number(bytes: &[u8]) -> Option<usize>
    ensures value { result ≡ number_in bytes.now }
    ensures small { IfSome result (λ v. v < 100000) }
{
    if bytes.is_empty() || bytes.len() > MOST_DIGITS {
        return None;
    }
    if bytes[0] == b'0' {
        return if bytes.len() == 1 { Some(0) } else { None };
    }
    let mut value = 0;
    // Stays a for: nothing bounds the total of a try_fold, so it would need tests that cannot fail.
    for byte in bytes {
        if !byte.is_ascii_digit() {
            return None;
        }
        value = value * 10 + usize::from(*byte - b'0');
    }
    Some(value)
}

/// The signed number that the bytes write: one of the numbers above, or such a number above 0 with
/// a minus before it.
pub fn signed(bytes: &[u8]) -> Option<i32>
    ensures value { result ≡ signed_in bytes.now }
    ensures small { IfSome result (λ z. unsigned_abs z < 100000) }
{
    let [b'-', digits @ ..] = bytes else {
        return Some(number(bytes)? as i32);
    };
    let value = number(digits)?;
    if value == 0 {
        return None;
    }
    Some(-(value as i32))
}
