//! The lines with which a certificate is refused. Serves `check`; decided by `finding_said`.
ghost use Rattle.std.specs.Prelude.{◌≡◌, ◌≢◌, ◌++◌, OnOk};
ghost use Rattle.program_frame.specs.inside.Refusing.{Accepts};
ghost use Rattle.check_work.specs.Check.{certificate_fault_line, condition_name, named, refused_point_line, refused_trace_line, refused_whole_line};
ghost use Rattle.check_work.specs.inside.CheckDone.{finding_said};

use cert_checker::{Condition, Finding, Verdict};
use decimal_text::write_unsigned;
use plain_list::List;
use potential_certificate::CertFault;
use program_frame::{FaultLine, Refusal, Stop, refuse_fault};
use std::alloc::{AllocError, Global};

// The name of a condition.
fn name_of(condition: Condition) -> &'static [u8]
    ensures { result.now ≡ condition_name condition }
{
    match condition {
        Condition::Candidates => b"Candidates",
        Condition::FirstCost => b"FirstCost",
        Condition::Relaxed => b"Relaxed",
        Condition::Tight => b"Tight",
        Condition::Pointer => b"Pointer",
        Condition::Chosen => b"Chosen",
        Condition::Break => b"Break",
        Condition::Row => b"Row",
        Condition::Route => b"Route",
        Condition::Trace => b"Trace",
    }
}

// Appends the end of the line of a refusal.
fn append_name(condition: Condition, line: &mut List<u8>) -> Result<(), AllocError>
    ensures { OnOk result (line.new ≡ line.old ++ named condition) }
{
    line.extend_from_slice(b": ")?;
    line.extend_from_slice(name_of(condition))?;
    line.extend_from_slice(b"\n")
}

// Appends the line of a condition that fails at an index of the rows or of the traces.
fn append_whole(
    subject: &[u8],
    place: u64,
    condition: Condition,
    line: &mut List<u8>,
) -> Result<(), AllocError>
    ensures { OnOk result
        (line.new ≡ line.old ++ refused_whole_line subject.now place condition) }
{
    line.extend_from_slice(b"refused ")?;
    line.extend_from_slice(subject)?;
    line.extend_from_slice(b" ")?;
    write_unsigned(place, line)?;
    append_name(condition, line)
}

// Appends the line of a condition that fails at a point of a trace.
fn append_point(
    trace: u64,
    point: u64,
    condition: Condition,
    line: &mut List<u8>,
) -> Result<(), AllocError>
    ensures { OnOk result (line.new ≡ line.old ++ refused_point_line trace point condition) }
{
    line.extend_from_slice(b"refused trace ")?;
    write_unsigned(trace, line)?;
    line.extend_from_slice(b" point ")?;
    write_unsigned(point, line)?;
    append_name(condition, line)
}

// Appends the line of a refusal where no row is bad.
fn append_refusal(
    condition: Condition,
    trace: u64,
    place: u64,
    line: &mut List<u8>,
) -> Result<(), AllocError>
    ensures { OnOk result (line.new ≡ line.old ++ refused_trace_line condition trace place) }
{
    match condition {
        Condition::Trace => append_whole(b"traces place", place, condition, line),
        _ => append_point(trace, place, condition, line),
    }
}

// Appends the error line of a fault of the text.
fn append_fault(fault: CertFault, line: &mut List<u8>) -> Result<(), AllocError>
    ensures some { OnOk result (fault ≢ CertFault.Memory) }
    ensures line { OnOk result (line.new ≡ line.old ++ certificate_fault_line fault) }
{
    match fault {
        CertFault::BadLine(number) => {
            line.extend_from_slice(b"certificate line ")?;
            write_unsigned(number, line)?;
            line.extend_from_slice(b": bad line\n")
        }
        CertFault::Cut => line.extend_from_slice(b"certificate: cut\n"),
        CertFault::TooLong => line.extend_from_slice(b"certificate: too long\n"),
        CertFault::Memory => Err(AllocError),
    }
}

/// Why a certificate is refused.
#[derive(Clone, Copy)]
pub enum CertificateFault {
    /// The text has this fault.
    Text(CertFault),
    /// The row at this index is bad.
    BadRow(u64),
    /// A condition fails at this place of a trace, or of all traces.
    Failed {
        condition: Condition,
        trace: u64,
        place: u64,
    },
}

impl FaultLine for CertificateFault {
    ghost use Rattle.check_work.specs.inside.CheckDone.{checked_fault_line, has_checked_fault_line};

    ghost has_line = { λ fault. has_checked_fault_line fault };

    ghost line = { λ fault. checked_fault_line fault };

    fn append_line(&self, _alloc: Global, into: &mut List<u8>) -> Result<(), AllocError> {
        match *self {
            CertificateFault::Text(fault) => append_fault(fault, into),
            CertificateFault::BadRow(place) => append_whole(b"row", place, Condition::Row, into),
            CertificateFault::Failed {
                condition,
                trace,
                place,
            } => append_refusal(condition, trace, place, into),
        }
    }
}

/// Accepts a proved certificate, and refuses any other.
pub fn accept_finding(alloc: Global, found: Finding) -> Result<(), Stop>
    ensures { Accepts Refusal.Certificate (finding_said found) result }
{
    match found {
        Finding::BadRow(place) => {
            let fault = CertificateFault::BadRow(place);
            Err(refuse_fault(alloc, Refusal::Certificate, &fault))
        }
        Finding::Judged(Verdict::Proved) => Ok(()),
        Finding::Judged(
            Verdict::Refused {
                condition,
                trace,
                place,
            },
        ) => {
            let fault = CertificateFault::Failed {
                condition,
                trace,
                place,
            };
            Err(refuse_fault(alloc, Refusal::Certificate, &fault))
        }
    }
}
