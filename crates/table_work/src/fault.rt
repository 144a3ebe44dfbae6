//! Why a table was not read or not written. Serves all calls; decided by `table_of`.
ghost use Rattle.std.specs.Prelude.{◌≡◌};

use std::alloc::AllocError;

/// Why a table text was rejected.
#[derive(Clone, Copy, Debug, PartialEq, Eq)]
pub enum TableFault {
    /// The number, from 1, of the first complete line that is not allowed at its place, or the
    /// number after that of the last line, if a byte follows it.
    BadLine(u64),
    /// Every complete line is allowed, and the last line is missing.
    Cut,
    /// The text has more than `TEXT_LIMIT` bytes.
    TooLong,
    /// Out of memory for the content of the text.
    Memory,
}

/// Why a row or the last line was not written.
#[derive(Clone, Copy, Debug, PartialEq, Eq)]
pub enum TableWriteFault {
    /// The text would have more than `TEXT_LIMIT` bytes.
    TooLong,
    /// Out of memory for the text.
    Memory,
}

impl From<AllocError> for TableFault {
    ghost use Rattle.table_work.specs.declared.fault.TableFault.{TableFault};

    ghost from_gives = { λ _ e. e ≡ TableFault.Memory };

    fn from(_: AllocError) -> TableFault {
        TableFault::Memory
    }
}

impl From<AllocError> for TableWriteFault {
    ghost use Rattle.table_work.specs.declared.fault.TableWriteFault.{TableWriteFault};

    ghost from_gives = { λ _ e. e ≡ TableWriteFault.Memory };

    fn from(_: AllocError) -> TableWriteFault {
        TableWriteFault::Memory
    }
}
