//! The integers that decimal digits write, read in one pass over the bytes.

ghost use Rattle.std.specs.Prelude.{◌≡◌, ◌<◌, ◌^◌, false, true, MatchOption};
ghost use Rattle.std.specs.Str.Parse.{IsNumeral, digits_value};
ghost use Rattle.cqa_value.specs.Literals.{has_minus, int_of};

/// The greatest number that a digit can follow: with one more, any greater is over 2^63.
const MOST_BEFORE_DIGIT: u64 = 922_337_203_685_477_580;

/// The number that one or more digits write. `None` only where the bytes are no digits, or the number is over 2^63.
fn read_digits(digits: &[u8]) -> Option<u64>
    ensures { MatchOption result (IsNumeral 10 digits.now → 2 ^ 63 < digits_value 10 digits.now) (λ number. IsNumeral 10 digits.now × (number ≡ digits_value 10 digits.now)) }
{
    if digits.is_empty() {
        return None;
    }
    let mut number = 0;
    for &digit in digits {
        if digit < b'0' || digit > b'9' {
            return None;
        }
        if number > MOST_BEFORE_DIGIT {
            return None;
        }
        number = number * 10 + (digit - b'0') as u64;
    }
    Some(number)
}

/// Whether a `-` stands first.
pub fn begins_with_minus(bytes: &[u8]) -> bool
    ensures { result ≡ has_minus bytes.now }
{
    !bytes.is_empty() && bytes[0] == b'-'
}

/// The integer that a text with no `-` in front writes.
pub fn read_plain(bytes: &[u8]) -> Option<i64>
    requires { has_minus bytes.now ≡ false }
    ensures { result ≡ int_of bytes.now }
{
    let number = read_digits(bytes)?;
    0_i64.checked_add_unsigned(number)
}

/// The integer that a text with a `-` in front writes.
pub fn read_minus(bytes: &[u8]) -> Option<i64>
    requires { has_minus bytes.now ≡ true }
    ensures { result ≡ int_of bytes.now }
{
    let number = read_digits(&bytes[1..])?;
    0_i64.checked_sub_unsigned(number)
}
