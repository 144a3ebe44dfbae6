//! Numbers read and written.
use decimal_text::{
    NumberFault, digits_at_front, parse_signed, parse_unsigned, signed_at_front, write_signed,
    write_unsigned,
};
use plain_list::List;

#[test]
fn reads_at_the_front(rt: HostRuntime) {
    let digits = [
        digits_at_front(b"12345678,5"),
        digits_at_front(b"1234567890"),
        digits_at_front(b"0042 12345"),
    ];
    assert!(rt; digits == [(12_345_678, 8), (123_456_789, 9), (42, 4)]);
    let signed = [signed_at_front(b"-70;"), signed_at_front(b"--7")];
    assert!(rt; signed == [Some((-70, 3)), None]);
}

// Each text, the greatest number allowed, and the number.
static UNSIGNED: [(&[u8], u64, Result<u64, NumberFault>); 6] = [
    (b"0042", 42, Ok(42)),
    (b"43", 42, Err(NumberFault::OutOfRange)),
    (b"18446744073709551615", u64::MAX, Ok(u64::MAX)),
    (
        b"18446744073709551616",
        u64::MAX,
        Err(NumberFault::OutOfRange),
    ),
    (b"000000000000000000001", 9, Err(NumberFault::Misspelt)),
    (b"+1", 9, Err(NumberFault::Misspelt)),
];

#[test]
fn reads_numbers(rt: HostRuntime) {
    for (text, most, number) in &UNSIGNED {
        assert_eq!(rt; parse_unsigned(text, *most), *number);
    }
}

#[test]
fn reads_signed_numbers(rt: HostRuntime) {
    let read = [
        parse_signed(b"-1000", 1000),
        parse_signed(b"-1001", 1000),
        parse_signed(b"--1", 1000),
    ];
    let wanted = [
        Ok(-1000),
        Err(NumberFault::OutOfRange),
        Err(NumberFault::Misspelt),
    ];
    assert_eq!(rt; read, wanted);
}

fn writes_greatest_and_signed(text: &mut List<u8>) -> bool {
    write_unsigned(u64::MAX, &mut *text).is_ok()
        && write_signed(-70, &mut *text).is_ok()
        && text.as_slice() == b"18446744073709551615-70".as_slice()
}

#[test]
fn writes_numbers(rt: HostRuntime) {
    let mut text = List::new(rt.alloc());
    assert!(rt; writes_greatest_and_signed(&mut text));
}
