//! Reads a network file, record by record.
ghost use Rattle.std.specs.Prelude.{◌≡◌, ◌≢◌, ◌<◌, ◌≤◌, [], true, false, IfOk, IfErr, OnOk, length};
ghost use Rattle.csv.specs.Records.{fields_of};
ghost use Rattle.road_network.specs.inside.Between.{IsBetween, IsNext, records_left};
ghost use Rattle.road_network.specs.inside.Drafted.{drafted, IsDraft};
ghost use Rattle.road_network.specs.Limits.{file_limit};
ghost use Rattle.road_network.specs.NetworkFile.{add_record, add_records, is_header, network_of, network_of_records, no_net};

use crate::Network;
use crate::draft::Draft;
use crate::fault::NetworkFault;
use crate::fields::{field_at, read_row};
use crate::limits::NetworkLimits;
use crate::text::Text;
use csv::{ByteRecord, Reader, ReaderBuilder};
use plain_list::List;
use polyline_geometry::Point;
use std::alloc::Global;

/// Reads the next record into `row`; false at the end of the file.
fn read_next(reader: &mut Reader<Text>, row: &mut ByteRecord) -> Result<bool, NetworkFault>
    requires { IsBetween reader.old }
    ensures next { IfOk result
        (λ found. found ≡ true → IsNext reader.old reader.new (fields_of row.new)) }
    ensures end { IfOk result (λ found. found ≡ false → records_left reader.old ≡ []) }
    ensures memory { IfErr result (λ e. e ≡ NetworkFault.Memory) }
{
    let Ok(found) = reader.read_byte_record(row) else {
        return Err(NetworkFault::Memory);
    };
    Ok(found)
}

/// Adds the edge of one record. `line` provides the memory for the points of the record.
fn add_record(
    limits: NetworkLimits,
    draft: &mut Draft,
    fields: &ByteRecord,
    line: &mut List<Point>,
) -> Result<(), NetworkFault>
    requires { IsDraft draft.old }
    ensures draft { OnOk result (IsDraft draft.new) }
    ensures network { OnOk result
        (add_record limits (drafted draft.old) (fields_of fields.now) ≡ Ok (drafted draft.new)) }
    ensures fault { IfErr result (λ e. e ≢ NetworkFault.Memory
        → add_record limits (drafted draft.old) (fields_of fields.now) ≡ Err e) }
{
    let head = read_row(draft.next_record(), fields, line)?;
    draft.add(limits, &head, line.as_slice())
}

/// The network of the remaining records, or the fault of the first faulty one.
fn read_edges(
    alloc: Global,
    limits: NetworkLimits,
    reader: &mut Reader<Text>,
    row: &mut ByteRecord,
) -> Result<Network, NetworkFault>
    requires { IsBetween reader.old }
    ensures network { IfOk result (λ n. add_records limits no_net (records_left reader.old) ≡ Ok n) }
    ensures fault { IfErr result (λ e. e ≢ NetworkFault.Memory
        → add_records limits no_net (records_left reader.old) ≡ Err e) }
{
    let mut draft = Draft::new(alloc);
    let mut line = List::new(alloc);
    while read_next(reader, row)? {
        add_record(limits, &mut draft, row, &mut line)?;
    }
    draft.finish(alloc)
}

/// Whether a record is the header of a network file.
fn is_header(row: &ByteRecord) -> bool
    ensures { result ≡ is_header (fields_of row.now) }
{
    if row.len() != 4 {
        return false;
    }
    let is_edge = field_at(row, 0) == b"edge".as_slice();
    let is_from = field_at(row, 1) == b"from".as_slice();
    let is_to = field_at(row, 2) == b"to".as_slice();
    let is_line = field_at(row, 3) == b"line".as_slice();
    is_edge & is_from & is_to & is_line
}

/// The network of the records of a file, the first of which is the header, or the first fault.
fn read_records(
    alloc: Global,
    limits: NetworkLimits,
    reader: &mut Reader<Text>,
    row: &mut ByteRecord,
) -> Result<Network, NetworkFault>
    requires { IsBetween reader.old }
    ensures network { IfOk result (λ n. network_of_records limits (records_left reader.old) ≡ Ok n) }
    ensures fault { IfErr result (λ e. e ≢ NetworkFault.Memory
        → network_of_records limits (records_left reader.old) ≡ Err e) }
{
    if !read_next(reader, row)? {
        return Err(NetworkFault::BadHeader);
    }
    if !is_header(row) {
        return Err(NetworkFault::BadHeader);
    }
    read_edges(alloc, limits, reader, row)
}

/// The network of a file within some limits, or its first fault, or `Memory` when out of memory. The
/// file is read once, a record at a time; only the ids and the points are kept. The memory of the
/// text is returned while it is read.
pub fn read_network_text(
    alloc: Global,
    limits: NetworkLimits,
    text: Vec<u8>,
) -> Result<Network, NetworkFault>
    ensures network { IfOk result (λ n. network_of limits text.items ≡ Ok n) }
    ensures fault { IfErr result
        (λ e. e ≢ NetworkFault.Memory → network_of limits text.items ≡ Err e) }
    ensures long { file_limit limits < length text.items → result ≡ Err NetworkFault.FileTooLong }
{
    if text.len() as u64 > limits.file_bytes() {
        return Err(NetworkFault::FileTooLong);
    }
    let mut reader = ReaderBuilder::new()
        .has_headers(false)
        .flexible(true)
        .from_reader(alloc, Text::new(text));
    let mut row = ByteRecord::new(alloc);
    read_records(alloc, limits, &mut reader, &mut row)
}

/// As [`read_network_text`], for a copy of the bytes. A file above the size limit is rejected without
/// allocating.
pub fn read_network_within(
    alloc: Global,
    limits: NetworkLimits,
    bytes: &[u8],
) -> Result<Network, NetworkFault>
    ensures network { IfOk result (λ n. network_of limits bytes.now ≡ Ok n) }
    ensures fault { IfErr result
        (λ e. e ≢ NetworkFault.Memory → network_of limits bytes.now ≡ Err e) }
    ensures long { file_limit limits < length bytes.now → result ≡ Err NetworkFault.FileTooLong }
{
    if bytes.len() as u64 > limits.file_bytes() {
        return Err(NetworkFault::FileTooLong);
    }
    read_network_text(alloc, limits, bytes.to_vec(alloc)?)
}

/// The network of a file within the standard limits; otherwise as [`read_network_within`].
pub fn read_network(alloc: Global, bytes: &[u8]) -> Result<Network, NetworkFault>
    ensures network { IfOk result (λ n. network_of NetworkLimits.Standard bytes.now ≡ Ok n) }
    ensures fault { IfErr result
        (λ e. e ≢ NetworkFault.Memory → network_of NetworkLimits.Standard bytes.now ≡ Err e) }
    ensures long { file_limit NetworkLimits.Standard < length bytes.now
        → result ≡ Err NetworkFault.FileTooLong }
{
    read_network_within(alloc, NetworkLimits::Standard, bytes)
}
