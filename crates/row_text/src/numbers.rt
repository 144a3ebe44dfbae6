//! Numbers at the front of a text, read in one pass. Serves `read_row`; decided by `number_after`.
ghost use Rattle.std.specs.Prelude.{◌≡◌, ◌∷◌, []};
ghost use Rattle.match_text.specs.Reading.{most32, number_after, number_at, seen};

use decimal_text::{digits_at_front, has_leading_zero};
use match_text::front::number;

// Numbers with fewer digits are read here, others by `number`.
const MANY_DIGITS: usize = 9;

/// The 32-bit number after this byte at the front, without leading zeros, and the text after it.
#[tactic(auto, unfolding(match_text::specs::Reading::number_after))]
pub fn number_behind(text: &[u8], mark: u8) -> Option<(u32, &[u8])>
    ensures { seen result ≡ number_after (mark ∷ []) most32 text.now }
{
    if text.is_empty() || text[0] != mark {
        return None;
    }
    short_number(&text[1..])
}

// The 32-bit number at the front, without leading zeros, and the text after it.
fn short_number(text: &[u8]) -> Option<(u32, &[u8])>
    ensures { seen result ≡ number_at most32 text.now }
{
    let (number, count) = digits_at_front(text);
    if count == MANY_DIGITS {
        return long_number(text);
    }
    let (digits, rest) = text.split_at(count);
    if digits.is_empty() {
        return None;
    }
    if has_leading_zero(digits) {
        return None;
    }
    Some((number, rest))
}

fn long_number(text: &[u8]) -> Option<(u32, &[u8])>
    ensures { seen result ≡ number_at most32 text.now }
{
    let (number, rest) = number(text, u64::from(u32::MAX))?;
    Some((number as u32, rest))
}
