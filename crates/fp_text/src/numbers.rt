//! Numbers as tokens.

ghost use Rattle.std.specs.Prelude.{◌≡◌, ◌≤◌, ◌^◌};
ghost use Rattle.std.specs.List.{list_all};
ghost use Rattle.fp_text.specs.Numbers.{is_digit, value_of, at_most, number_of, signed_of};

use thiserror::Error;

/// Why a token is not a number in its range.
#[derive(Clone, Copy, Debug, PartialEq, Eq, Error)]
pub enum NumberFault {
    /// The token is empty or has a byte that is no digit.
    #[error("the token is no number")]
    NotDigits,
    /// The token is digits of a value above the greatest that is asked for.
    #[error("the number is too large")]
    TooLarge,
}

/// The number that the token stands for: one or more digits, leading zeros allowed.
///
/// `NotDigits` where the token is empty or has another byte, else `TooLarge` where the value is
/// above `most`.
pub fn number(token: &[u8], most: u64) -> Result<u64, NumberFault>
    requires { most ≤ 2 ^ 60 }
    ensures { result ≡ number_of most token.now }
{
    if token.is_empty() || !are_digits(token) {
        return Err(NumberFault::NotDigits);
    }
    digits_value(token, most)
}

/// The signed number that the token stands for: one `-` or none, and then as `number`, whose
/// `most` bounds the amount.
pub fn signed(token: &[u8], most: u64) -> Result<i64, NumberFault>
    requires { most ≤ 2 ^ 60 }
    ensures { result ≡ signed_of most token.now }
{
    match token {
        [b'-', digits @ ..] => Ok(-(number(digits, most)? as i64)),
        _ => Ok(number(token, most)? as i64),
    }
}

fn are_digits(token: &[u8]) -> bool
    ensures { result ≡ list_all is_digit token.now }
{
    token.iter().all(|byte| b'0' <= *byte && *byte <= b'9')
}

/// The value of digits; no more of them are read once it is above `most`, since they only raise it.
fn digits_value(digits: &[u8], most: u64) -> Result<u64, NumberFault>
    requires { most ≤ 2 ^ 60 }
    ensures { result ≡ at_most most (value_of digits.now) }
{
    let mut value = 0;
    for byte in digits {
        value = 10 * value + u64::from(byte.saturating_sub(b'0'));
        if value > most {
            return Err(NumberFault::TooLarge);
        }
    }
    Ok(value)
}
