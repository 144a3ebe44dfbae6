//! The four fields of a record, read. Serves `read_records`; decided by `specs/NetworkFile.antt`.
ghost use Rattle.std.specs.Prelude.{◌≡◌, ◌≢◌, ◌+◌, ◌<◌, ◌≤◌, ◌∷◌, [], true, IfOk, IfErr, OnOk, IfSome, MatchOption, length, take};
ghost use Rattle.std.specs.List.{All, list_all, position_or_len};
ghost use Rattle.decimal_text.specs.Blank.{is_blank};
ghost use Rattle.csv.specs.Records.{field_at, fields_of};
ghost use Rattle.polyline_geometry.specs.Plane.{InRange};
ghost use Rattle.road_network.specs.NetworkFile.{both, field_faults, field_with, first_fault, is_fault, line_of, make_point, point_of, row_of, row_from, unless};
ghost use Rattle.road_network.specs.inside.Rows.{field_texts, is_within_part, onto_end, row_with, with_point, worse};
ghost use Rattle.decimal_text.specs.Number.{unsigned_within};

use crate::draft::RowHead;
use crate::fault::NetworkFault;
use crate::limits::COORDINATE_LIMIT;
use csv::ByteRecord;
use decimal_text::{NumberFault, is_blank, parse_signed, parse_unsigned, signed_at_front, trim};
use plain_list::List;
use polyline_geometry::Point;
use std::alloc::AllocError;

/// The fault of two readings: a misspelling takes precedence over a value out of range.
fn worse(earlier: Option<NumberFault>, later: NumberFault) -> NumberFault
    ensures { result ≡ worse earlier later }
{
    match earlier {
        Some(NumberFault::Misspelt) => NumberFault::Misspelt,
        Some(NumberFault::OutOfRange) | None => later,
    }
}

/// The point of two coordinates.
fn make_point(
    x: Result<i32, NumberFault>,
    y: Result<i32, NumberFault>,
) -> Result<Point, NumberFault>
    ensures { result ≡ both make_point x y }
{
    match (x, y) {
        (Ok(x), Ok(y)) => Ok(Point { x, y }),
        (Ok(_), Err(fault)) => Err(fault),
        (Err(fault), Ok(_)) => Err(fault),
        (Err(first), Err(second)) => Err(worse(Some(first), second)),
    }
}

/// The place of the first blank, or the length of the text if it has none.
fn first_blank(text: &[u8]) -> usize
    ensures place { result ≡ position_or_len is_blank text.now }
    ensures within { result ≤ length text.now }
{
    for (i, byte) in text.iter().enumerate() {
        if is_blank(*byte) {
            return i;
        }
    }
    text.len()
}

/// One part of a line: two coordinates separated by spaces or tabs.
fn read_point(part: &[u8]) -> Result<Point, NumberFault>
    ensures value { result ≡ point_of part.now }
    ensures within { IfOk result InRange }
{
    let text = trim(part);
    let blank = first_blank(text);
    let rest = trim(&text[text.len().min(blank + 1)..]);
    make_point(
        parse_signed(&text[..blank], COORDINATE_LIMIT),
        parse_signed(rest, COORDINATE_LIMIT),
    )
}

/// The first part of a line, and the text after its semicolon if there is one.
fn first_part(text: &[u8]) -> (&[u8], Option<&[u8]>)
    ensures line { MatchOption result.1 (line_of text.now ≡ with_point (point_of result.0.now) (Ok []))
        (λ rest. line_of text.now ≡ with_point (point_of result.0.now) (line_of rest.now)) }
    ensures shorter { IfSome result.1 (λ rest. length rest.now < length text.now) }
{
    for (i, byte) in text.iter().enumerate() {
        if *byte == b';' {
            return (&text[..i], Some(&text[i + 1..]));
        }
    }
    (text, None)
}

/// A point at the front with short coordinates and one space between them, and how many
/// bytes it has.
fn plain_point(text: &[u8]) -> Option<(Point, usize)>
    ensures few { IfSome result (λ read. read.1 ≤ length text.now) }
    ensures value { IfSome result (λ read. point_of (take read.1 text.now) ≡ Ok read.0) }
    ensures part { IfSome result (λ read. list_all is_within_part (take read.1 text.now) ≡ true) }
{
    let (x, count) = signed_at_front(text)?;
    if count == text.len() || text[count] != b' ' {
        return None;
    }
    let (y, more) = signed_at_front(&text[count + 1..])?;
    Some((Point { x, y }, count + 1 + more))
}

/// As `plain_point` for a whole part, with the text after its semicolon if there is one.
fn plain_part(text: &[u8]) -> Option<(Point, Option<&[u8]>)>
    ensures line { IfSome result (λ read. MatchOption read.1 (line_of text.now ≡ with_point (Ok read.0) (Ok []))
        (λ rest. line_of text.now ≡ with_point (Ok read.0) (line_of rest.now))) }
    ensures within { IfSome result (λ read. InRange read.0) }
    ensures shorter { IfSome result
        (λ read. IfSome read.1 (λ rest. length rest.now < length text.now)) }
{
    let (point, count) = plain_point(text)?;
    if count == text.len() {
        return Some((point, None));
    }
    if text[count] == b';' {
        return Some((point, Some(&text[count + 1..])));
    }
    None
}

/// The point of the first part of a line, and the text after its semicolon if there is one.
fn first_point(text: &[u8]) -> (Result<Point, NumberFault>, Option<&[u8]>)
    ensures line { MatchOption result.1 (line_of text.now ≡ with_point result.0 (Ok []))
        (λ rest. line_of text.now ≡ with_point result.0 (line_of rest.now)) }
    ensures within { IfOk result.0 InRange }
    ensures shorter { IfSome result.1 (λ rest. length rest.now < length text.now) }
{
    if let Some((point, rest)) = plain_part(text) {
        return (Ok(point), rest);
    }
    let (part, rest) = first_part(text);
    (read_point(part), rest)
}

/// Adds a point to a line, or its fault to the faults of the earlier points.
fn put_point(
    point: Result<Point, NumberFault>,
    fault: Option<NumberFault>,
    line: &mut List<Point>,
) -> Result<Option<NumberFault>, AllocError>
    ensures value { IfOk result (λ after. both onto_end (unless fault line.old) point ≡ unless after line.new) }
    ensures within { IfOk point InRange → All InRange line.old → OnOk result (All InRange line.new) }
{
    match point {
        Ok(point) => {
            line.push(point)?;
            Ok(fault)
        }
        Err(found) => Ok(Some(worse(fault, found))),
    }
}

/// Reads a line into `line`, replacing its points, and returns its fault.
fn read_line(field: &[u8], line: &mut List<Point>) -> Result<Option<NumberFault>, AllocError>
    ensures value { IfOk result (λ fault. line_of field.now ≡ unless fault line.new) }
    ensures within { OnOk result (All InRange line.new) }
{
    line.truncate(0);
    let mut fault = None;
    let mut rest = field;
    loop {
        let (point, behind) = first_point(rest);
        fault = put_point(point, fault, line)?;
        let Some(behind) = behind else {
            return Ok(fault);
        };
        rest = behind;
    }
}

/// Whether a reading has this fault.
fn is_fault(kind: NumberFault, reading: Option<NumberFault>) -> bool
    ensures { result ≡ is_fault kind reading }
{
    match (kind, reading) {
        (NumberFault::Misspelt, Some(NumberFault::Misspelt)) => true,
        (NumberFault::OutOfRange, Some(NumberFault::OutOfRange)) => true,
        _ => false,
    }
}

/// The number, from 1, of the first field whose reading has this fault.
fn field_with(kind: NumberFault, readings: &[Option<NumberFault>]) -> Option<u32>
    requires { length readings.now ≤ 4 }
    ensures { result ≡ field_with kind readings.now }
{
    for (i, reading) in readings.iter().enumerate() {
        if is_fault(kind, *reading) {
            return Some(i as u32 + 1);
        }
    }
    None
}

/// Whether all fields of a record were read. Any misspelling takes precedence over any value out of
/// range.
fn check_fields(rec: u32, readings: &[Option<NumberFault>]) -> Result<(), NetworkFault>
    requires { length readings.now ≤ 4 }
    ensures ok { OnOk result (first_fault (field_faults rec readings.now) ≡ None) }
    ensures fault { IfErr result (λ e. first_fault (field_faults rec readings.now) ≡ Some e) }
{
    if let Some(field) = field_with(NumberFault::Misspelt, readings) {
        return Err(NetworkFault::BadNumber(rec, field));
    }
    if let Some(field) = field_with(NumberFault::OutOfRange, readings) {
        return Err(NetworkFault::OutOfRange(rec, field));
    }
    Ok(())
}

/// The four fields of a record.
#[derive(Clone, Copy)]
struct RowFields<'a> {
    name: &'a [u8],
    from: &'a [u8],
    to: &'a [u8],
    points: &'a [u8],
}

/// Reads the four fields of record number `rec`, the points of the line into `line`.
fn read_fields(
    rec: u32,
    fields: RowFields<'_>,
    line: &mut List<Point>,
) -> Result<RowHead, NetworkFault>
    ensures row { IfOk result
        (λ head. row_of rec (field_texts fields.entry) ≡ Ok (row_with head line.new)) }
    ensures within { OnOk result (All InRange line.new) }
    ensures fault { IfErr result
        (λ e. e ≢ NetworkFault.Memory → row_of rec (field_texts fields.entry) ≡ Err e) }
{
    let name = parse_unsigned(fields.name, u64::from(u32::MAX));
    let from = parse_unsigned(fields.from, u64::MAX);
    let to = parse_unsigned(fields.to, u64::MAX);
    let fault = read_line(fields.points, line)?;
    check_fields(rec, &[name.err(), from.err(), to.err(), fault])?;
    Ok(RowHead {
        name: name.unwrap_or(0) as u32,
        from: from.unwrap_or(0),
        to: to.unwrap_or(0),
    })
}

/// The field at a place, from 0.
pub(crate) fn field_at(fields: &ByteRecord, place: usize) -> &[u8]
    requires { place < length (fields_of fields.now) }
    ensures { field_at (fields_of fields.now) place ≡ Some result.now }
{
    fields.get(place).unwrap()
}

/// Reads record number `rec`: its first three fields, and the points of its line into `line`.
pub(crate) fn read_row(
    rec: u32,
    fields: &ByteRecord,
    line: &mut List<Point>,
) -> Result<RowHead, NetworkFault>
    ensures row { IfOk result
        (λ head. row_of rec (fields_of fields.now) ≡ Ok (row_with head line.new)) }
    ensures within { OnOk result (All InRange line.new) }
    ensures fault { IfErr result
        (λ e. e ≢ NetworkFault.Memory → row_of rec (fields_of fields.now) ≡ Err e) }
{
    if fields.len() != 4 {
        return Err(NetworkFault::FieldCount(rec));
    }
    let name = field_at(fields, 0);
    let from = field_at(fields, 1);
    let to = field_at(fields, 2);
    let points = field_at(fields, 3);
    let texts = RowFields {
        name,
        from,
        to,
        points,
    };
    read_fields(rec, texts, line)
}
