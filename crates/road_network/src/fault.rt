//! The faults of a network file, and the error line of each.
ghost use Rattle.std.specs.Prelude.{◌≡◌, ◌≢◌, ◌++◌, OnOk, OnErr};
ghost use Rattle.decimal_text.specs.Number.{decimal};
ghost use Rattle.road_network.specs.FaultLine.{fault_line, fault_text, record_line};

use decimal_text::write_unsigned;
use plain_list::List;
use std::alloc::{AllocError, AllocFailed, Global};
use thiserror::Error;

/// The first fault of a network file. Records, fields and places are numbered from 1; the
/// header is not counted as a record.
#[derive(Clone, Copy, Debug, Error)]
pub enum NetworkFault {
    /// The first record is missing or is not the header.
    #[error("bad header")]
    BadHeader,
    /// The record does not have four fields.
    #[error("record {0}: wrong number of fields")]
    FieldCount(u32),
    /// A field of the record is misspelt.
    #[error("record {0} field {1}: bad number")]
    BadNumber(u32, u32),
    /// A value of the record is out of range.
    #[error("record {0} field {1}: out of range")]
    OutOfRange(u32, u32),
    /// An earlier record has this edge id.
    #[error("record {0}: edge id repeated")]
    DuplicateEdge(u32),
    /// The line has one point.
    #[error("record {0}: line too short")]
    ShortLine(u32),
    /// The point at this place of the line equals the one before it.
    #[error("record {0} point {1}: point repeated")]
    RepeatedPoint(u32, u64),
    /// The edge is longer than 100,000,000 cm.
    #[error("record {0}: edge too long")]
    EdgeTooLong(u32),
    /// The file has more edges than the limits allow.
    #[error("record {0}: too many edges")]
    TooManyEdges(u32),
    /// The file has more nodes than the limits allow.
    #[error("record {0}: too many nodes")]
    TooManyNodes(u32),
    /// The lines have more points together than the limits allow, or the record's line has more
    /// than 1,000,000.
    #[error("record {0}: too many points")]
    TooManyPoints(u32),
    /// The file has more bytes than the limits allow.
    #[error("file too long")]
    FileTooLong,
    /// Out of memory.
    #[error("out of memory")]
    Memory,
}

impl From<AllocError> for NetworkFault {
    ghost use Rattle.road_network.specs.declared.fault.NetworkFault.{NetworkFault};

    ghost from_gives = { λ _ e. e ≡ NetworkFault.Memory };

    fn from(_: AllocError) -> NetworkFault {
        NetworkFault::Memory
    }
}

impl<T: Drop> From<AllocFailed<T>> for NetworkFault {
    ghost use Rattle.road_network.specs.declared.fault.NetworkFault.{NetworkFault};

    ghost from_gives = { λ _ e. e ≡ NetworkFault.Memory };

    fn from(_: AllocFailed<T>) -> NetworkFault {
        NetworkFault::Memory
    }
}

/// Appends the number of a record and the rest of the message.
fn write_record(line: &mut List<u8>, rec: u32, rest: &[u8]) -> Result<(), AllocError>
    ensures { OnOk result (line.new ≡ line.old ++ record_line rec rest.now) }
{
    line.extend_from_slice(b"network record ")?;
    write_unsigned(u64::from(rec), line)?;
    line.extend_from_slice(rest)
}

/// Appends the number of a record, the number of one of its parts, and the rest of the message.
fn write_part(
    line: &mut List<u8>,
    rec: u32,
    part: &[u8],
    place: u64,
    rest: &[u8],
) -> Result<(), AllocError>
    ensures { OnOk result
        (line.new ≡ line.old ++ record_line rec (part.now ++ decimal place ++ rest.now)) }
{
    write_record(line, rec, part)?;
    write_unsigned(place, line)?;
    line.extend_from_slice(rest)
}

impl NetworkFault {
    /// Appends the message of the fault, without its LF.
    fn write_text(&self, line: &mut List<u8>) -> Result<(), AllocError>
        ensures { OnOk result (line.new ≡ line.old ++ fault_text self.now) }
    {
        match *self {
            NetworkFault::BadHeader => line.extend_from_slice(b"network: bad header"),
            NetworkFault::FieldCount(rec) => write_record(line, rec, b": wrong number of fields"),
            NetworkFault::BadNumber(rec, field) => {
                write_part(line, rec, b" field ", u64::from(field), b": bad number")
            }
            NetworkFault::OutOfRange(rec, field) => {
                write_part(line, rec, b" field ", u64::from(field), b": out of range")
            }
            NetworkFault::DuplicateEdge(rec) => write_record(line, rec, b": edge id repeated"),
            NetworkFault::ShortLine(rec) => write_record(line, rec, b": line too short"),
            NetworkFault::RepeatedPoint(rec, place) => {
                write_part(line, rec, b" point ", place, b": point repeated")
            }
            NetworkFault::EdgeTooLong(rec) => write_record(line, rec, b": edge too long"),
            NetworkFault::TooManyEdges(rec) => write_record(line, rec, b": too many edges"),
            NetworkFault::TooManyNodes(rec) => write_record(line, rec, b": too many nodes"),
            NetworkFault::TooManyPoints(rec) => write_record(line, rec, b": too many points"),
            NetworkFault::FileTooLong => line.extend_from_slice(b"network: file too long"),
            NetworkFault::Memory => Ok(()),
        }
    }

    /// Appends the error line of the fault. Out of memory has no line.
    pub fn write_line(&self, alloc: Global, into: &mut List<u8>) -> Result<(), AllocError>
        requires { self.now ≢ NetworkFault.Memory }
        ensures ok { OnOk result (into.new ≡ into.old ++ fault_line self.now) }
        ensures err { OnErr result (into.new ≡ into.old) }
    {
        let mut line = List::new(alloc);
        self.write_text(&mut line)?;
        line.push(b'\n')?;
        into.extend_from_slice(line.as_slice())
    }
}
