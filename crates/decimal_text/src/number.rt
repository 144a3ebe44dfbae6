//! Numbers read from a slice, and written to the end of a buffer.
ghost use Rattle.std.specs.Prelude.{◌≡◌, ◌^◌, ◌<◌, ◌≤◌, ◌++◌, true, false, IfOk, OnOk, OnErr, MatchOption, length};
ghost use Rattle.std.specs.List.{list_all};
ghost use Rattle.std.specs.Char.{is_ascii_digit};
ghost use Rattle.std.specs.Str.Parse.{digits_value, starts_with_minus};
ghost use Rattle.decimal_text.specs.Number.{has_leading_zero, is_unsigned, unsigned_within, signed_within, decimal, signed_decimal};

use itoa::Buffer;
use plain_list::List;
use std::alloc::AllocError;
use thiserror::Error;

/// Why a text is not a number in the range.
#[derive(Clone, Copy, Debug, PartialEq, Eq, Error)]
pub enum NumberFault {
    #[error("bad number")]
    Misspelt,
    #[error("out of range")]
    OutOfRange,
}

const MAX_DIGITS: usize = 20;

/// The unsigned number that the whole text spells, if it is at most `most`.
pub fn parse_unsigned(text: &[u8], most: u64) -> Result<u64, NumberFault>
    ensures value { result ≡ unsigned_within most text.now }
    ensures range { IfOk result (λ n. n ≤ most) }
{
    match value_of(text) {
        None => Err(NumberFault::Misspelt),
        Some(value) => {
            if value <= most as u128 {
                Ok(value as u64)
            } else {
                Err(NumberFault::OutOfRange)
            }
        }
    }
}

/// The signed number that the whole text spells, if it is in `-most..=most`.
pub fn parse_signed(text: &[u8], most: u32) -> Result<i32, NumberFault>
    requires { most < 2 ^ 31 }
    ensures value { result ≡ signed_within most text.now }
{
    let is_negative = starts_with_minus(text);
    let digits = &text[usize::from(is_negative)..];
    let magnitude = parse_unsigned(digits, most as u64)? as i32;
    Ok(if is_negative { -magnitude } else { magnitude })
}

/// Whether the first of several digits is a 0.
pub fn has_leading_zero(digits: &[u8]) -> bool
    ensures { result ≡ has_leading_zero digits.now }
{
    matches!(digits, [b'0', _, ..])
}

pub(crate) fn starts_with_minus(text: &[u8]) -> bool
    ensures { result ≡ starts_with_minus text.now }
{
    !text.is_empty() && text[0] == b'-'
}

/// The number that at most 19 digits spell.
fn narrow_value(text: &[u8]) -> Option<u64>
    requires { length text.now ≤ 19 }
    ensures { MatchOption result (list_all is_ascii_digit text.now ≡ false)
        (λ n. (list_all is_ascii_digit text.now ≡ true) × (n ≡ digits_value 10 text.now)) }
{
    let mut value: u64 = 0;
    for byte in text {
        if !byte.is_ascii_digit() {
            return None;
        }
        value = value * 10 + u64::from(*byte - b'0');
    }
    Some(value)
}

/// The number that 1 to 20 digits spell. 20 digits do not fit 64 bits, so the last digit is added in
/// 128 bits.
fn value_of(text: &[u8]) -> Option<u128>
    ensures { MatchOption result (is_unsigned text.now ≡ false)
        (λ n. (is_unsigned text.now ≡ true) × (n ≡ digits_value 10 text.now)) }
{
    if text.len() < MAX_DIGITS {
        if text.is_empty() {
            return None;
        }
        return Some(u128::from(narrow_value(text)?));
    }
    let [head @ .., last] = text else {
        return None;
    };
    if text.len() > MAX_DIGITS || !last.is_ascii_digit() {
        return None;
    }
    Some(u128::from(narrow_value(head)?) * 10 + u128::from(*last - b'0'))
}

/// Appends the digits of the number.
pub fn write_unsigned(n: u64, into: &mut List<u8>) -> Result<(), AllocError>
    ensures ok { OnOk result (into.new ≡ into.old ++ decimal n) }
    ensures err { OnErr result (into.new ≡ into.old) }
{
    into.extend_from_slice(Buffer::new().format(n).as_bytes())
}

/// Appends the digits of the number, after a `-` if it is negative.
pub fn write_signed(number: i32, into: &mut List<u8>) -> Result<(), AllocError>
    ensures ok { OnOk result (into.new ≡ into.old ++ signed_decimal number) }
    ensures err { OnErr result (into.new ≡ into.old) }
{
    into.extend_from_slice(Buffer::new().format(number).as_bytes())
}
