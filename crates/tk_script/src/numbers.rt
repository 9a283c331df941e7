ghost use Rattle.std.specs.Prelude.{◌≡◌, ◌≤◌, ◌<◌, ◌-◌, ◌^◌, ◌++◌, ℕ, List, length, take, slice_index, Some, IfSome, true, false};
ghost use Rattle.std.specs.List.{list_all};
ghost use Rattle.std.specs.Char.{is_ascii_digit};
ghost use Rattle.std.specs.Str.Parse.{digits_value};
ghost use Rattle.tk_script.specs.Number.{is_numeral, number_up_to, number_of, number8_of, number32_of, signed_of};

/// The most digits that always fit in 64 bits.
const SURE_DIGITS: usize = 19;

/// Parses a field as an unsigned 64-bit number: one or more ASCII digits. Leading zeros are
/// allowed.
///
/// `None` means that the field is empty, that it contains another byte, such as a space or a sign,
/// or that the number needs more than 64 bits.
pub fn number(field: &[u8]) -> Option<u64>
    ensures { result ≡ number_of field.now }
{
    number_at_most(field, u64::MAX)
}

/// Parses a field as an unsigned 8-bit number.
pub(crate) fn number8(field: &[u8]) -> Option<u8>
    ensures { result ≡ number8_of field.now }
{
    let value = number_at_most(field, 0xff)?;
    Some(value as u8)
}

/// Parses a field as an unsigned 32-bit number.
pub(crate) fn number32(field: &[u8]) -> Option<u32>
    ensures { result ≡ number32_of field.now }
{
    let value = number_at_most(field, 0xffff_ffff)?;
    Some(value as u32)
}

/// Parses a field as a signed 64-bit number. A negative number begins with one `-`.
pub(crate) fn signed(field: &[u8]) -> Option<i64>
    ensures { result ≡ signed_of field.now }
{
    match field {
        [b'-', digits @ ..] => {
            let magnitude = number_at_most(digits, 1 << 63)?;
            if magnitude == 1 << 63 {
                Some(i64::MIN)
            } else {
                Some(-(magnitude as i64))
            }
        }
        _ => {
            let magnitude = number_at_most(field, i64::MAX as u64)?;
            Some(magnitude as i64)
        }
    }
}

/// Parses a field as a number of at most `most`. Most fields are so short that they need no test of
/// the sum.
fn number_at_most(field: &[u8], most: u64) -> Option<u64>
    ensures { result ≡ number_up_to most field.now }
{
    if field.len() > SURE_DIGITS {
        return long_number(field, most);
    }
    short_number(field).filter(|value| *value <= most)
}

/// Parses a field of at most nineteen bytes.
fn short_number(field: &[u8]) -> Option<u64>
    requires { length field.now ≤ 19 }
    ensures { result ≡ number_up_to (2 ^ 64 - 1) field.now }
{
    let (value, len) = leading_digits(field);
    (len == field.len() && !field.is_empty()).then_some(value)
}

/// Parses the digits at the beginning of a text, and returns the number and the rest. `None` means
/// that there is no digit. It reads only the first nineteen digits.
#[inline(always)]
pub(crate) fn leading_number(text: &[u8]) -> Option<(u64, &[u8])>
    ensures { IfSome result (λ found. (digits : List ℕ) × (text.now ≡ digits ++ found.1.now)
        × (number_of digits ≡ Some found.0)) }
{
    if text.len() < SURE_DIGITS {
        number_within(text, text.len())
    } else {
        // The compiler unrolls a loop over a fixed number of bytes.
        number_within(text, SURE_DIGITS)
    }
}

/// Parses the digits at the beginning of a text as `leading_number` does, within its first `most`
/// bytes.
#[inline(always)]
fn number_within(text: &[u8], most: usize) -> Option<(u64, &[u8])>
    requires sure { most ≤ 19 }
    requires within { most ≤ length text.now }
    ensures { IfSome result (λ found. (digits : List ℕ) × (text.now ≡ digits ++ found.1.now)
        × (number_of digits ≡ Some found.0)) }
{
    let (value, len) = leading_digits(&text[..most]);
    if len == 0 {
        return None;
    }
    Some((value, &text[len..]))
}

/// Parses the digits at the beginning of at most nineteen bytes, and returns the number and the
/// number of digits.
#[inline(always)]
fn leading_digits(text: &[u8]) -> (u64, usize)
    requires { length text.now ≤ 19 }
    ensures fits { result.0 < 2 ^ 64 }
    ensures len { result.1 ≤ length text.now }
    ensures value { result.0 ≡ digits_value 10 (take result.1 text.now) }
    ensures digits { list_all is_ascii_digit (take result.1 text.now) ≡ true }
    ensures stops { result.1 < length text.now →
        is_ascii_digit (slice_index text.now result.1) ≡ false }
{
    let mut value = 0u64;
    for i in 0..text.len() {
        let digit = u64::from(text[i]).wrapping_sub(u64::from(b'0'));
        if digit > 9 {
            return (value, i);
        }
        value = value * 10 + digit;
    }
    (value, text.len())
}

/// Parses a field of any length as a number of at most `most`.
fn long_number(field: &[u8], most: u64) -> Option<u64>
    ensures { result ≡ number_up_to most field.now }
{
    if !has_digits_only(field) {
        return None;
    }
    let mut value = 0u64;
    for digit in field {
        let longer = u128::from(value) * 10 + u128::from(digit.wrapping_sub(b'0'));
        if longer > u128::from(most) {
            return None;
        }
        value = longer as u64;
    }
    Some(value)
}

/// Returns whether the field consists of one or more digits.
fn has_digits_only(field: &[u8]) -> bool
    ensures { result ≡ is_numeral field.now }
{
    if field.is_empty() {
        return false;
    }
    for digit in field {
        if !digit.is_ascii_digit() {
            return false;
        }
    }
    true
}
