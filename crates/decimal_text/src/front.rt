//! Short numbers at the front of a text, read eight digits at a time.
ghost use Rattle.std.specs.Prelude.{◌≡◌, ◌<◌, ◌≤◌, ℕ, Ok, IfSome, MatchOption, drop, get_or, if◌then◌else◌, false, true, length, take};
ghost use Rattle.std.specs.List.{list_all, prefix_len};
ghost use Rattle.std.specs.Char.{is_ascii_digit};
ghost use Rattle.std.specs.Str.Parse.{digits_value, starts_with_minus};
ghost use Rattle.decimal_text.specs.Number.{signed_within};
ghost use Rattle.decimal_text.specs.AtFront.{behind_minus};

use crate::number::starts_with_minus;
use crate::words::digits_of_eight;

/// The number that the digits at the front spell, and how many digits there are. Reads at most 9
/// digits, the first eight at once.
pub fn digits_at_front(text: &[u8]) -> (u32, usize)
    ensures few { (result.1 ≤ length text.now) × (result.1 ≤ 9) }
    ensures digits { list_all is_ascii_digit (take result.1 text.now) ≡ true }
    ensures value { result.0 ≡ digits_value 10 (take result.1 text.now) }
    ensures small { result.0 < 1_000_000_000 }
    ensures all { result.1 < 9 → prefix_len is_ascii_digit text.now ≡ result.1 }
{
    let Some(front) = text.first_chunk::<8>() else {
        return digits_one_by_one(text);
    };
    let (number, count) = digits_of_eight(front);
    if count == 8 && text.len() > 8 && text[8].is_ascii_digit() {
        return (number * 10 + u32::from(text[8] - b'0'), 9);
    }
    (number, count)
}

/// The signed number of 1 to 9 digits at the front, and how many bytes it has. Further digits are
/// left unread.
pub fn signed_at_front(text: &[u8]) -> Option<(i32, usize)>
    ensures few { IfSome result (λ read. read.1 ≤ length text.now) }
    ensures value { MatchOption result (prefix_len is_ascii_digit (behind_minus text.now) ≡ 0)
        (λ read. (most : ℕ) → 999_999_999 ≤ most → signed_within most (take read.1 text.now) ≡ Ok read.0) }
    ensures all { IfSome result
        (λ read. read.1 < 9 → is_ascii_digit (get_or text.now read.1 0) ≡ false) }
{
    if starts_with_minus(text) {
        let (number, count) = digits_at_front(&text[1..]);
        if count == 0 {
            return None;
        }
        return Some((-(number as i32), count + 1));
    }
    let (number, count) = digits_at_front(text);
    if count == 0 {
        return None;
    }
    Some((number as i32, count))
}

// The result of `digits_at_front` for a text of fewer than 8 bytes.
fn digits_one_by_one(text: &[u8]) -> (u32, usize)
    requires { length text.now < 8 }
    ensures count { result.1 ≡ prefix_len is_ascii_digit text.now }
    ensures value { result.0 ≡ digits_value 10 (take result.1 text.now) }
    ensures small { result.0 < 1_000_000_000 }
{
    let mut number: u32 = 0;
    let mut count = 0;
    while count < text.len() && text[count].is_ascii_digit() {
        number = number * 10 + u32::from(text[count] - b'0');
        count += 1;
    }
    (number, count)
}
