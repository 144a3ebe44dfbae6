//! Why a text is not a match text. Serves `read_match`; decided by `IsFirstBadLine`.
ghost use Rattle.std.specs.Prelude.{◌≡◌};
ghost use Rattle.match_text.specs.declared.fault.TextFault.TheVariants.{Memory};

use std::alloc::AllocError;

/// Why a text was rejected.
#[derive(Clone, Copy, Debug)]
pub enum TextFault {
    /// The number, from 1, of the first line that is not allowed at its place or is missing.
    BadLine(u64),
    /// Out of memory for the content of the text.
    Memory,
}

impl From<AllocError> for TextFault {
    ghost from_gives = { λ _ e. e ≡ Memory };

    fn from(_: AllocError) -> TextFault {
        TextFault::Memory
    }
}
