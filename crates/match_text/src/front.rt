//! What is at the front of a text, and the rest of the text. Serves the readers of lines, of this text
//! and of others; decided by `number_at` and `after_bytes`.
ghost use Rattle.std.specs.Prelude.{◌≡◌, ◌-◌, ◌^◌, ◌≤◌, length, IfSome};
ghost use Rattle.std.specs.Option.{option_copied};
ghost use Rattle.std.specs.List.{prefix_len};
ghost use Rattle.std.specs.Char.{is_ascii_digit};
ghost use Rattle.match_text.specs.Reading.{seen, after_bytes, number_at, number_after};

use decimal_text::{has_leading_zero, parse_unsigned};

/// The text after these bytes, if it begins with them.
pub fn after<'a>(text: &'a [u8], bytes: &[u8]) -> Option<&'a [u8]>
    ensures { option_copied result ≡ after_bytes bytes.now text.now }
{
    if text.starts_with(bytes) {
        Some(&text[bytes.len()..])
    } else {
        None
    }
}

/// The number of at most `most` at the front, without leading zeros, and the text after it.
#[tactic(auto, unfolding(crate::specs::Reading::number_at))]
pub fn number(text: &[u8], most: u64) -> Option<(u64, &[u8])>
    ensures value { seen result ≡ number_at most text.now }
    ensures range { IfSome result (λ x. x.0 ≤ most) }
{
    let (digits, rest) = text.split_at(digit_count(text));
    if has_leading_zero(digits) {
        return None;
    }
    let number = parse_unsigned(digits, most).ok()?;
    Some((number, rest))
}

// The number of digits at the front.
fn digit_count(text: &[u8]) -> usize
    ensures value { result ≡ prefix_len is_ascii_digit text.now }
    ensures within { result ≤ length text.now }
{
    text.iter().take_while(|byte| byte.is_ascii_digit()).count()
}

/// The number of at most `most` after these bytes at the front, and the text after it.
#[tactic(auto, unfolding(crate::specs::Reading::number_after))]
pub fn number_after<'a>(text: &'a [u8], bytes: &[u8], most: u64) -> Option<(u64, &'a [u8])>
    ensures value { seen result ≡ number_after bytes.now most text.now }
    ensures range { IfSome result (λ x. x.0 ≤ most) }
{
    number(after(text, bytes)?, most)
}

/// The 32-bit number after these bytes at the front, and the text after it.
pub fn short_number_after<'a>(text: &'a [u8], bytes: &[u8]) -> Option<(u32, &'a [u8])>
    ensures { seen result ≡ number_after bytes.now (2 ^ 32 - 1) text.now }
{
    let (number, rest) = number_after(text, bytes, u64::from(u32::MAX))?;
    Some((number as u32, rest))
}
