//! Laws of what the bytes of a trace file contain. Each function exists for its clause and does
//! nothing.
ghost use Rattle.std.specs.Prelude.{◌≡◌, ℕ, List as ListOf, Some};
ghost use Rattle.trace_reader.specs.LineByLine.{IsReadByLine, IsWithinLimits};
ghost use Rattle.trace_reader.specs.Reading.{fault_in};
ghost use Rattle.trace_reader.specs.ReadingLaws.{ClosedTracesStay, KnownFaultsStay, TracesAreLawful};
ghost use Rattle.trace_reader.specs.declared.fault.TraceFault.{TraceFault as Fault};

/// Traces that are closed in the beginning of a file stay, whatever follows.
pub fn closed_traces_stay()
    ensures { (bytes later : ListOf ℕ) → ClosedTracesStay bytes later }
{}

/// A fault that is known in the beginning of a file stays, whatever follows.
pub fn known_faults_stay()
    ensures { (bytes later : ListOf ℕ) (fault : Fault)
        → fault_in bytes ≡ Some fault → KnownFaultsStay bytes later fault }
{}

/// Each trace that is read has 1 to 100,000 positions, with coordinates in range.
pub fn traces_are_lawful()
    ensures { (bytes : ListOf ℕ) → TracesAreLawful bytes }
{}

/// A file within the limits is read by line: its traces and its fault are those of its lines, split at
/// LF and read one after the other.
pub fn files_are_read_by_line()
    ensures { (bytes : ListOf ℕ) → IsWithinLimits bytes → IsReadByLine bytes }
{}
