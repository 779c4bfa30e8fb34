//! The errors that end a session.

use covbook::BookFault;
use covdata::Memory;
use std::alloc::AllocError;

/// The error that ended a session.
#[derive(Clone, Copy, Debug, PartialEq, Eq)]
pub enum SessionFault {
    /// A read failed, or more than 2^32 reads were needed.
    Read = 1,
    /// A write or a flush failed, or a write of some bytes took none.
    Write = 2,
    /// An allocation failed.
    Memory = 3,
    /// The history is full.
    Full = 4,
}

impl SessionFault {
    ghost use Rattle.std.specs.Prelude.{◌≡◌};
    ghost use Rattle.covsession.specs.SessionFaults.{fault_number};

    /// The number of the error, from 1.
    pub fn number(self) -> u32
        ensures { result ≡ fault_number self }
    {
        self as u32
    }
}

impl From<AllocError> for SessionFault {
    ghost use Rattle.std.specs.Prelude.{◌≡◌};
    ghost use Rattle.covsession.specs.declared.session.fault.SessionFault.TheVariants as faults;

    ghost from_gives = { λ _ f. f ≡ faults.Memory };

    fn from(_refused: AllocError) -> SessionFault {
        SessionFault::Memory
    }
}

impl From<Memory> for SessionFault {
    ghost use Rattle.std.specs.Prelude.{◌≡◌};
    ghost use Rattle.covsession.specs.declared.session.fault.SessionFault.TheVariants as faults;

    ghost from_gives = { λ _ f. f ≡ faults.Memory };

    fn from(_refused: Memory) -> SessionFault {
        SessionFault::Memory
    }
}

impl From<BookFault> for SessionFault {
    ghost use Rattle.std.specs.Prelude.{◌≡◌};
    ghost use Rattle.covsession.specs.SessionFaults.{of_book};

    ghost from_gives = { λ fault f. f ≡ of_book fault };

    fn from(fault: BookFault) -> SessionFault {
        match fault {
            BookFault::Full => SessionFault::Full,
            BookFault::Memory => SessionFault::Memory,
        }
    }
}
