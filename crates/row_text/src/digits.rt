//! Entries as bytes, written from the last byte to the first. Serves `write_row`; decided by
//! `entry_word`.
ghost use Rattle.std.specs.Prelude.{◌≡◌, ◌+◌, ◌≤◌, ◌∷◌, ◌++◌, drop, length, take};
ghost use Rattle.row_text.specs.RowLine.{entry_word, last_word};

use bounded_table::Entry;
use itoa::write_digits;
use road_network::EdgeId;

/// The most bytes of an entry with the space before it: three numbers of ten digits.
pub const ENTRY_BYTES: usize = 33;

/// Writes the entry and the space before it so that they end at `end`. Returns where they begin. The bytes
/// before and after them are unchanged.
#[tactic(auto, using(crate::proofs::FewDigits::few_digits))]
pub fn put_entry(bytes: &mut [u8], end: usize, x: &Entry) -> usize
    requires room { 33 ≤ end }
    requires end { end ≤ length bytes.old }
    ensures bytes { drop result bytes.new ≡ 32 ∷ (entry_word x.now ++ drop end bytes.old) }
    ensures front { take result bytes.new ≡ take result bytes.old }
{
    let at = put_last(bytes, end, x.last);
    let at = put_byte(bytes, at, b':');
    let at = write_digits(u64::from(x.distance), bytes, at);
    let at = put_byte(bytes, at, b':');
    let at = write_digits(u64::from(x.node.0), bytes, at);
    put_byte(bytes, at, b' ')
}

#[tactic(auto, using(crate::proofs::FewDigits::few_digits))]
fn put_last(bytes: &mut [u8], end: usize, last: Option<EdgeId>) -> usize
    requires room { 10 ≤ end }
    requires end { end ≤ length bytes.old }
    ensures bytes { drop result bytes.new ≡ last_word last ++ drop end bytes.old }
    ensures front { take result bytes.new ≡ take result bytes.old }
    ensures place { (end ≤ result + 10) × (result ≤ end) }
{
    match last {
        Some(edge) => write_digits(u64::from(edge.0), bytes, end),
        None => put_byte(bytes, end, b'-'),
    }
}

// Writes a byte before place `end`.
fn put_byte(bytes: &mut [u8], end: usize, byte: u8) -> usize
    requires room { 1 ≤ end }
    requires end { end ≤ length bytes.old }
    ensures bytes { drop result bytes.new ≡ byte ∷ drop end bytes.old }
    ensures front { take result bytes.new ≡ take result bytes.old }
    ensures place { result + 1 ≡ end }
{
    bytes[end - 1] = byte;
    end - 1
}
