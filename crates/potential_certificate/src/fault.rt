//! Why a certificate was not read or not written. Serves all calls; decided by `certificate_of`.
ghost use Rattle.std.specs.Prelude.{◌≡◌};

use std::alloc::AllocError;

/// Why a certificate was rejected.
#[derive(Clone, Copy, Debug, PartialEq, Eq)]
pub enum CertFault {
    /// The number, from 1, of the first complete line that is not allowed at its place, or the
    /// number after that of the last line, if a byte follows it.
    BadLine(u64),
    /// Every complete line is allowed, and the last line is missing.
    Cut,
    /// The text has more than `TEXT_LIMIT` bytes.
    TooLong,
    /// Out of memory for the content of the text.
    Memory,
}

/// Why a certificate was not written.
#[derive(Clone, Copy, Debug, PartialEq, Eq)]
pub enum WriteFault {
    /// The text would have more than `TEXT_LIMIT` bytes.
    TooLong,
    /// Out of memory for the text.
    Memory,
}

impl From<AllocError> for CertFault {
    ghost use Rattle.potential_certificate.specs.declared.fault.CertFault.{CertFault};

    ghost from_gives = { λ _ e. e ≡ CertFault.Memory };

    fn from(_: AllocError) -> CertFault {
        CertFault::Memory
    }
}

impl From<AllocError> for WriteFault {
    ghost use Rattle.potential_certificate.specs.declared.fault.WriteFault.{WriteFault};

    ghost from_gives = { λ _ e. e ≡ WriteFault.Memory };

    fn from(_: AllocError) -> WriteFault {
        WriteFault::Memory
    }
}
