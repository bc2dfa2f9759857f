//! Numbers in a line.

ghost use Rattle.std.specs.Prelude.{◌≡◌, ◌≤◌, ◌++◌, length, take, drop};
ghost use Rattle.std.specs.Str.Parse.{AllDigits, digits_value};
ghost use Rattle.journal.specs.Reading.{ReadsAs, EndsNumber, IsNumber};

/// How many digits a number has at most.
const DIGITS: usize = 20;

/// How many digits stand in front.
fn count_digits(text: &[u8]) -> usize
    ensures within { result ≤ length text.now }
    ensures digits { AllDigits 10 (take result text.now) }
    ensures ends { EndsNumber (drop result text.now) }
{
    for (i, byte) in text.iter().enumerate() {
        if !byte.is_ascii_digit() {
            return i;
        }
    }
    text.len()
}

/// The digits in front, and what stands behind them.
pub(crate) fn split_digits(text: &[u8]) -> (&[u8], &[u8])
    ensures whole { text.now ≡ result.0.now ++ result.1.now }
    ensures digits { AllDigits 10 result.0.now }
    ensures ends { EndsNumber result.1.now }
{
    text.split_at(count_digits(text))
}

/// The value of the digits.
fn value_of(digits: &[u8]) -> u128
    requires digits { AllDigits 10 digits.now }
    requires few { length digits.now ≤ 20 }
    ensures { result ≡ digits_value 10 digits.now }
{
    let mut value = 0u128;
    for digit in digits {
        value = value * 10 + u128::from(*digit - b'0');
    }
    value
}

/// The number that the digits spell in at most twenty digits, without a leading zero.
pub(crate) fn number(digits: &[u8]) -> Option<u128>
    requires { AllDigits 10 digits.now }
    ensures { ReadsAs (IsNumber digits.now) result }
{
    if digits.is_empty() || digits.len() > DIGITS {
        return None;
    }
    if digits[0] == b'0' && digits.len() > 1 {
        return None;
    }
    Some(value_of(digits))
}
