//! Why a text of any size is not a program.
ghost use Rattle.std.specs.Prelude.{◌≡◌};
ghost use Rattle.program_text.specs.declared.fault.ReadKind.TheVariants.{OutOfMemory};

use std::alloc::AllocFailed;
use std::marker::Model;
use task_program::AllocFault;
use task_program::fault::ReadKind;
use thiserror::Error;

/// What is wrong with a text, and the line of it, as in a `ReadFault`; but the line has 64 bits.
/// Contracts see it as that fault.
#[derive(Clone, Copy, Debug, PartialEq, Eq, Drop, Error)]
#[error("line {line}: {kind:?}")]
pub struct LargeFault {
    pub kind: ReadKind,
    pub line: u64,
}

impl Model for LargeFault {
    ghost use Rattle.program_text.specs.declared.fault.ReadFault.{ReadFault};

    ghost Value = { ReadFault };

    ghost view = { λ fault. record { kind = fault.kind; line = fault.line } };

    ghost inverse = { λ fault. record { kind = fault.kind; line = fault.line } };
}

impl From<AllocFault> for LargeFault {
    ghost from_gives = { λ _ e. e ≡ record { kind = OutOfMemory; line = 0 } };

    fn from(_e: AllocFault) -> LargeFault {
        LargeFault {
            kind: ReadKind::OutOfMemory,
            line: 0,
        }
    }
}

impl<T: Drop> From<AllocFailed<T>> for LargeFault {
    ghost from_gives = { λ _ e. e ≡ record { kind = OutOfMemory; line = 0 } };

    fn from(_e: AllocFailed<T>) -> LargeFault {
        LargeFault {
            kind: ReadKind::OutOfMemory,
            line: 0,
        }
    }
}
