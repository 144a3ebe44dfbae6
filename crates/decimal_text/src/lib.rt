//! How numbers are spelt in text: one rule for the network file, the trace file, the command line and
//! all output.
//!
//! An unsigned number is 1 to 20 decimal digits, leading zeros allowed; a signed number is the same
//! with an optional leading `-`. Any other spelling is misspelt, and a value outside the caller's
//! range is out of range. Numbers are written without leading zeros.
//!
//! [`parse_unsigned`] and [`parse_signed`] read a number from a slice, [`write_unsigned`] and
//! [`write_signed`] append one to a buffer, [`write_worded`] appends one after a word, and [`trim`]
//! strips the blanks at both ends of a field.
//! [`digits_at_front`] and [`signed_at_front`] read a short number at the front of a text, eight
//! digits at a time.
//! Read the clause of `parse_unsigned` first.
#![tactic(auto)]

mod blank;
mod front;
mod laws_of_numbers;
mod number;
mod worded;
mod words;

pub use blank::{is_blank, trim};
pub use front::{digits_at_front, signed_at_front};
pub use laws_of_numbers::{
    signed_has_one_spelling, signed_reads_back, unsigned_has_one_spelling, unsigned_reads_back,
};
pub use number::{
    NumberFault, has_leading_zero, parse_signed, parse_unsigned, write_signed, write_unsigned,
};
pub use worded::{put_worded, write_worded};
