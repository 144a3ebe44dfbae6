//! One field of a row. A short number without blanks is read in one pass; any other field is
//! delimited first.
ghost use Rattle.std.specs.Prelude.{◌≡◌, ◌≤◌, ◌∷◌, [], true, Ok, length, take, IfSome, MatchOption};
ghost use Rattle.std.specs.List.{list_all};
ghost use Rattle.trace_reader.specs.inside.FirstField.{first_of, is_within_field};
ghost use Rattle.trace_reader.specs.Row.{fields_of, u32_of, coordinate_of};

use decimal_text::{
    NumberFault, digits_at_front, parse_signed, parse_unsigned, signed_at_front, trim,
};
use memchr::memchr;

const COORDINATE_LIMIT: u32 = 1_000_000_000;

/// The 32-bit number in the first field, and the text after its comma if there is one.
pub fn unsigned_field(text: &[u8]) -> (Result<u32, NumberFault>, Option<&[u8]>)
    ensures number { result.0 ≡ u32_of (first_of text.now) }
    ensures rest { MatchOption result.1 (fields_of text.now ≡ first_of text.now ∷ [])
        (λ rest. fields_of text.now ≡ first_of text.now ∷ fields_of rest.now) }
{
    let (number, count) = digits_at_front(text);
    if count > 0 {
        if let Some(rest) = behind_field(text, count) {
            return (Ok(number), rest);
        }
    }
    let (field, rest) = first_field(text);
    (read_u32(field), rest)
}

/// The coordinate in the first field, and the text after its comma if there is one.
pub fn coordinate_field(text: &[u8]) -> (Result<i32, NumberFault>, Option<&[u8]>)
    ensures number { result.0 ≡ coordinate_of (first_of text.now) }
    ensures rest { MatchOption result.1 (fields_of text.now ≡ first_of text.now ∷ [])
        (λ rest. fields_of text.now ≡ first_of text.now ∷ fields_of rest.now) }
{
    if let Some((number, count)) = signed_at_front(text) {
        if let Some(rest) = behind_field(text, count) {
            return (Ok(number), rest);
        }
    }
    let (field, rest) = first_field(text);
    (parse_signed(trim(field), COORDINATE_LIMIT), rest)
}

fn read_u32(field: &[u8]) -> Result<u32, NumberFault>
    ensures { result ≡ u32_of field.now }
{
    match parse_unsigned(trim(field), u32::MAX as u64) {
        Ok(n) => Ok(n as u32),
        Err(fault) => Err(fault),
    }
}

// The text before the first comma, and the text after it if there is one.
fn first_field(text: &[u8]) -> (&[u8], Option<&[u8]>)
    ensures field { result.0.now ≡ first_of text.now }
    ensures rest { MatchOption result.1 (fields_of text.now ≡ first_of text.now ∷ [])
        (λ rest. fields_of text.now ≡ first_of text.now ∷ fields_of rest.now) }
{
    match memchr(b',', text) {
        Some(place) => (&text[..place], Some(&text[place + 1..])),
        None => (text, None),
    }
}

// The text after the comma, if the first field has this many bytes and a comma or the end follows.
fn behind_field(text: &[u8], count: usize) -> Option<Option<&[u8]>>
    requires few { count ≤ length text.now }
    requires within { list_all is_within_field (take count text.now) ≡ true }
    ensures field { IfSome result (λ _. first_of text.now ≡ take count text.now) }
    ensures rest { IfSome result (λ rest. MatchOption rest (fields_of text.now ≡ first_of text.now ∷ [])
        (λ rest. fields_of text.now ≡ first_of text.now ∷ fields_of rest.now)) }
{
    if count == text.len() {
        return Some(None);
    }
    if text[count] == b',' {
        return Some(Some(&text[count + 1..]));
    }
    None
}
