//! Why a measurement ends early.

use sect_cert::CertFault;
use sect_front::FrontFault;
use sect_names::SourceRefusal;
use sect_table::TableFault;
use sect_types::TypeFault;
use std::alloc::AllocError;
use std::io;
use std::num::TryFromIntError;
use std::str::Utf8Error;
use thiserror::Error;

/// Why a measurement ended early. `Display` is what the program says of it.
#[derive(Clone, Copy, Debug, Error)]
pub enum Failure {
    /// The words of the command line aren't those of a measurement.
    #[error("wanted: nothing, or sets N, classes N, schedule K, table KEYS N, cert LISTS LOCKS")]
    Usage,
    /// The source text was refused.
    #[error("the text on standard input is no program")]
    Source,
    /// What was made isn't accepted again, or a turn that was made again is refused again.
    #[error("the work could not be done")]
    Work,
    /// A growth was refused.
    #[error("out of memory")]
    Memory,
    /// The input or the output failed.
    #[error("input or output failed")]
    Streams,
}

impl Failure {
    /// The status of the program: 3 where a growth was refused, as that of `sectc`, and else 1.
    pub fn status(&self) -> u8 {
        match self {
            Failure::Memory => 3,
            _ => 1,
        }
    }
}

impl From<AllocError> for Failure {
    fn from(_refused: AllocError) -> Failure {
        Failure::Memory
    }
}

impl From<Utf8Error> for Failure {
    fn from(_error: Utf8Error) -> Failure {
        Failure::Source
    }
}

impl From<TryFromIntError> for Failure {
    fn from(_error: TryFromIntError) -> Failure {
        Failure::Usage
    }
}

impl From<FrontFault> for Failure {
    fn from(fault: FrontFault) -> Failure {
        match fault {
            FrontFault::Memory => Failure::Memory,
            _ => Failure::Source,
        }
    }
}

impl From<TypeFault> for Failure {
    fn from(fault: TypeFault) -> Failure {
        match fault {
            TypeFault::Memory => Failure::Memory,
            _ => Failure::Source,
        }
    }
}

impl From<SourceRefusal> for Failure {
    fn from(refusal: SourceRefusal) -> Failure {
        match refusal {
            SourceRefusal::Memory => Failure::Memory,
            _ => Failure::Source,
        }
    }
}

impl From<CertFault> for Failure {
    fn from(fault: CertFault) -> Failure {
        match fault {
            CertFault::Memory => Failure::Memory,
            _ => Failure::Work,
        }
    }
}

impl From<TableFault> for Failure {
    fn from(fault: TableFault) -> Failure {
        match fault {
            TableFault::Memory => Failure::Memory,
            _ => Failure::Work,
        }
    }
}

impl From<io::Error> for Failure {
    fn from(error: io::Error) -> Failure {
        match error.kind() {
            io::ErrorKind::OutOfMemory => Failure::Memory,
            _ => Failure::Streams,
        }
    }
}
