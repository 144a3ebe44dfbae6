//! Digits in the bytes of a 64-bit word, the first byte lowest. Serves `digits_at_front`; decided by `digits_value`.
ghost use Rattle.std.specs.Prelude.{◌≡◌, ℕ, ◌-◌, ◌*◌, ◌%◌, ◌^◌, ◌<◌, List, map, take};
ghost use Rattle.std.specs.List.{prefix_len};
ghost use Rattle.std.specs.Char.{is_ascii_digit};
ghost use Rattle.std.specs.Str.Parse.{digits_value};
ghost use Rattle.std.specs.Int.Digits.{number_from_digits};
ghost use Rattle.std.specs.Simd.Lanes.{number_l};
ghost use Rattle.decimal_text.specs.inside.Words.{IsEight, flag_from_ten};

/// The number that the digits at the front of these bytes spell, and how many digits there are.
pub fn digits_of_eight(bytes: &[u8; 8]) -> (u32, usize)
    ensures count { result.1 ≡ prefix_len is_ascii_digit bytes.now }
    ensures value { result.0 ≡ digits_value 10 (take result.1 bytes.now) }
    ensures small { result.0 < 100_000_000 }
{
    let lanes = u64::from_le_bytes(*bytes) ^ 0x3030_3030_3030_3030;
    let others = flags_from_ten(lanes);
    if others == 0 {
        return (value_of_eight(lanes), 8);
    }
    let count = others.trailing_zeros() / 8;
    (value_of_eight(keep_first(lanes, count)), count as usize)
}

// The high bit of each byte that is 10 or more. No sum carries into the next byte.
fn flags_from_ten(word: u64) -> u64
    ensures { (xs : List ℕ) → IsEight 256 xs → word ≡ number_l 256 xs
        → result ≡ number_l 256 (map flag_from_ten xs) }
{
    ((word & 0x7f7f_7f7f_7f7f_7f7f) + 0x7676_7676_7676_7676 | word) & 0x8080_8080_8080_8080
}

// The word with its first `count` bytes moved to the top.
fn keep_first(word: u64, count: u32) -> u64
    requires { count < 8 }
    ensures { result ≡ word * 256 ^ (8 - count) % 2 ^ 64 }
{
    // Two shifts, since a shift by 64 is not defined.
    word << (56 - 8 * count) << 8
}

// The number that eight digits spell, the first of them in the lowest byte.
fn value_of_eight(word: u64) -> u32
    ensures { (ds : List ℕ) → IsEight 10 ds → word ≡ number_l 256 ds
        → result ≡ number_from_digits 10 ds }
{
    let pairs = word.wrapping_mul(10).wrapping_add(word >> 8);
    let first = (pairs & 0x0000_00ff_0000_00ff).wrapping_mul(100 + (1_000_000 << 32));
    let second = ((pairs >> 16) & 0x0000_00ff_0000_00ff).wrapping_mul(1 + (10_000 << 32));
    (first.wrapping_add(second) >> 32) as u32
}
