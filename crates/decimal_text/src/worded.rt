//! A word and a number after it, written as one piece. Serves the writers of lines; decided by
//! `decimal`.
ghost use Rattle.std.specs.Prelude.{◌≡◌, ◌+◌, ◌≤◌, ◌++◌, length, drop, take, OnOk, OnErr};
ghost use Rattle.decimal_text.specs.Number.{decimal};

use itoa::write_digits;
use plain_list::List;
use std::alloc::AllocError;

// Room for a word of 20 bytes and a number of 20 digits.
const ROOM: usize = 40;

/// Appends a word of at most 20 bytes and the digits of the number. On `Err`, `into` is unchanged.
pub fn write_worded(word: &[u8], number: u64, into: &mut List<u8>) -> Result<(), AllocError>
    requires { length word.now ≤ 20 }
    ensures ok { OnOk result (into.new ≡ into.old ++ (word.now ++ decimal number)) }
    ensures err { OnErr result (into.new ≡ into.old) }
{
    let mut part = [0; ROOM];
    let start = put_worded(word, number, &mut part, ROOM);
    into.extend_from_slice(&part[start..])
}

/// Writes a word and a number so that they end at `end`, and returns where they start. The bytes before
/// and after them are unchanged.
#[inline(always)]
pub fn put_worded(word: &[u8], number: u64, bytes: &mut [u8], end: usize) -> usize
    requires { (length word.now + 20 ≤ end) × (end ≤ length bytes.old) }
    ensures written { drop result bytes.new ≡ word.now ++ (decimal number ++ drop end bytes.old) }
    ensures front { take result bytes.new ≡ take result bytes.old }
    ensures near { end ≤ result + length word.now + 20 }
    ensures within { (result ≤ length bytes.new) × (length bytes.new ≡ length bytes.old) }
{
    let start = write_digits(number, bytes, end);
    let front = start - word.len();
    bytes[front..start].copy_from_slice(word);
    front
}
