//! Why the words are refused, and the error line of each fault. Serves `read_command`; decided by
//! `fault_line`.
ghost use Rattle.std.specs.Prelude.{◌≡◌};
ghost use Rattle.command_line.specs.FaultLine.{fault_line};

use crate::value::ValueName;
use std::alloc::AllocError;

/// Why the words are not a command.
#[derive(Clone, Copy, Debug)]
pub enum WordsFault {
    /// The words do not form a command.
    Usage,
    /// The value of this name is not a number, or is out of range.
    BadValue(ValueName),
    /// Out of memory.
    Memory,
}

impl From<AllocError> for WordsFault {
    ghost use Rattle.command_line.specs.declared.fault.WordsFault.{WordsFault};

    ghost from_gives = { λ _ e. e ≡ WordsFault.Memory };

    fn from(_: AllocError) -> WordsFault {
        WordsFault::Memory
    }
}

impl WordsFault {
    /// The error line of the fault, with its LF.
    #[tactic(auto, unfolding(crate::specs::FaultLine::fault_line))]
    pub fn line(self) -> &'static str
        ensures { result.now ≡ fault_line self }
    {
        match self {
            WordsFault::Usage => "fmm: bad command line\n",
            WordsFault::BadValue(ValueName::K) => "fmm: bad value k\n",
            WordsFault::BadValue(ValueName::Radius) => "fmm: bad value radius\n",
            WordsFault::BadValue(ValueName::Sigma) => "fmm: bad value sigma\n",
            WordsFault::BadValue(ValueName::Beta) => "fmm: bad value beta\n",
            WordsFault::BadValue(ValueName::Bound) => "fmm: bad value bound\n",
            WordsFault::BadValue(ValueName::Workers) => "fmm: bad value workers\n",
            WordsFault::BadValue(ValueName::Back) => "fmm: bad value back\n",
            WordsFault::BadValue(ValueName::Gap) => "fmm: bad value gap\n",
            WordsFault::BadValue(ValueName::Idle) => "fmm: bad value idle\n",
            WordsFault::BadValue(ValueName::N) => "fmm: bad value N\n",
            WordsFault::BadValue(ValueName::T) => "fmm: bad value T\n",
            WordsFault::BadValue(ValueName::Seed) => "fmm: bad value SEED\n",
            WordsFault::Memory => "fmm: out of memory\n",
        }
    }
}
