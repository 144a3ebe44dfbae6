//! Faults with a line, and the refusal for one. Serves the commands; decided by `RefusesFault`.
ghost use Rattle.std.specs.Prelude.{◌≡◌, ◌++◌, ℕ, List as ListOf, OnOk};
ghost use Rattle.program_frame.specs.Stops.{RefusesFault};

use crate::stop::{Refusal, Stop};
use command_line::WordsFault;
use plain_list::List;
use road_network::NetworkFault;
use std::alloc::{AllocError, Global};
use trace_reader::TraceFault;

/// A fault of the words or of a file. Out of memory has no line.
pub trait FaultLine {
    /// The fault has a line.
    ghost has_line: { Self → Type 0 };

    /// The error line, with its LF.
    ghost line: { Self → ListOf ℕ };

    /// Appends the line. `Err` if there is none, or out of memory.
    fn append_line(&self, alloc: Global, into: &mut List<u8>) -> Result<(), AllocError>
        ensures some { OnOk result (has_line self.now) }
        ensures line { OnOk result (into.new ≡ into.old ++ line self.now) };
}

/// The early end for a fault: this refusal with the line of the fault, or out of memory.
pub fn refuse_fault<F: FaultLine>(alloc: Global, refusal: Refusal, fault: &F) -> Stop
    ensures { RefusesFault refusal (F.has_line fault.now) (F.line fault.now) result }
{
    let mut line = List::new(alloc);
    match fault.append_line(alloc, &mut line) {
        Ok(()) => Stop::Refused(refusal, line),
        Err(_) => Stop::NoMemory,
    }
}

impl FaultLine for WordsFault {
    ghost use Rattle.std.specs.Prelude.{◌≢◌};
    ghost use Rattle.command_line.specs.FaultLine.{fault_line};
    ghost use Rattle.command_line.specs.declared.fault.WordsFault.TheVariants.{Memory};

    ghost has_line = { λ fault. fault ≢ Memory };

    ghost line = { λ fault. fault_line fault };

    fn append_line(&self, _alloc: Global, into: &mut List<u8>) -> Result<(), AllocError> {
        if let WordsFault::Memory = self {
            return Err(AllocError);
        }
        into.extend_from_slice(self.line().as_bytes())
    }
}

impl FaultLine for NetworkFault {
    ghost use Rattle.std.specs.Prelude.{◌≢◌};
    ghost use Rattle.road_network.specs.FaultLine.{fault_line};
    ghost use Rattle.road_network.specs.declared.fault.NetworkFault.TheVariants.{Memory};

    ghost has_line = { λ fault. fault ≢ Memory };

    ghost line = { λ fault. fault_line fault };

    fn append_line(&self, alloc: Global, into: &mut List<u8>) -> Result<(), AllocError> {
        if let NetworkFault::Memory = self {
            return Err(AllocError);
        }
        self.write_line(alloc, into)
    }
}

impl FaultLine for TraceFault {
    ghost use Rattle.std.specs.Prelude.{◌≢◌};
    ghost use Rattle.trace_reader.specs.Fault.{fault_line};
    ghost use Rattle.trace_reader.specs.declared.fault.TraceFault.TheVariants.{Memory};

    ghost has_line = { λ fault. fault ≢ Memory };

    ghost line = { λ fault. fault_line fault };

    fn append_line(&self, alloc: Global, into: &mut List<u8>) -> Result<(), AllocError> {
        if let TraceFault::Memory = self {
            return Err(AllocError);
        }
        self.write_line(alloc, into)
    }
}
