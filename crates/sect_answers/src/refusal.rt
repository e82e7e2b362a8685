//! The refusals of all commands.

ghost use Rattle.std.specs.Prelude.{◌≡◌};
ghost use Rattle.sect_answers.specs.{declared.refusal.Refusal.TheVariants.{Memory}, Answers.{of_source}};
ghost use Rattle.sect_answers.specs.{Serial.{of_serial}, Compiling.{of_compile}, Checking.{of_check}};
ghost use Rattle.sect_answers.specs.{Scheduling.{of_world}, Outcomes.{of_outcomes}};
ghost use Rattle.sect_answers.specs.Refusals.{has_report as has_report_of};

use sect_check::CheckFault;
use sect_emit::CompileFault;
use sect_infer::InferFault;
use sect_names::{SchemeFault, SourceRefusal};
use sect_run::RunFault;
use sect_serial::{OutcomesFault, SerialFault};
use sect_world::WorldFault;
use std::alloc::AllocError;

/// Why a command doesn't do what was asked. `put_refusal` writes the line that the program prints.
#[derive(Debug, Drop)]
pub enum Refusal {
    /// Want of memory.
    Memory,
    /// The source text is refused.
    Source(SourceRefusal),
    /// The source text is refused, and this is the report of it.
    Report(String),
    /// The number of workers is refused.
    Workers(InferFault),
    /// The order of the threads is refused.
    Serial(SerialFault),
    /// There are too many states.
    Outcomes(OutcomesFault),
    /// The certificate is refused, or the source behind it.
    Check(CheckFault),
    /// The schedule is refused.
    Schedule(WorldFault),
    /// The program has no section of this number.
    Section(u16),
}

impl Refusal {
    /// Whether a text is refused for a mistake, of which `lint` says more.
    pub fn has_report(&self) -> bool
        ensures { result ≡ has_report_of self.now }
    {
        match self {
            Refusal::Source(SourceRefusal::Scheme(SchemeFault::BadK)) => false,
            Refusal::Source(_) => true,
            _ => false,
        }
    }
}

impl From<AllocError> for Refusal {
    ghost from_gives = { λ _ r. r ≡ Memory };

    fn from(_refused: AllocError) -> Refusal {
        Refusal::Memory
    }
}

impl From<RunFault> for Refusal {
    ghost from_gives = { λ _ r. r ≡ Memory };

    fn from(fault: RunFault) -> Refusal {
        match fault {
            RunFault::Memory => Refusal::Memory,
        }
    }
}

impl From<SourceRefusal> for Refusal {
    ghost from_gives = { λ why r. r ≡ of_source why };

    fn from(why: SourceRefusal) -> Refusal {
        match why {
            SourceRefusal::Memory => Refusal::Memory,
            other => Refusal::Source(other),
        }
    }
}

impl From<CompileFault> for Refusal {
    ghost from_gives = { λ fault r. r ≡ of_compile fault };

    fn from(fault: CompileFault) -> Refusal {
        match fault {
            CompileFault::Memory => Refusal::Memory,
            CompileFault::Workers(why) => Refusal::Workers(why),
            CompileFault::Source(why) => Refusal::from(why),
        }
    }
}

impl From<SerialFault> for Refusal {
    ghost from_gives = { λ fault r. r ≡ of_serial fault };

    fn from(fault: SerialFault) -> Refusal {
        match fault {
            SerialFault::Memory => Refusal::Memory,
            other => Refusal::Serial(other),
        }
    }
}

impl From<OutcomesFault> for Refusal {
    ghost from_gives = { λ fault r. r ≡ of_outcomes fault };

    fn from(fault: OutcomesFault) -> Refusal {
        match fault {
            OutcomesFault::Memory => Refusal::Memory,
            other => Refusal::Outcomes(other),
        }
    }
}

impl From<CheckFault> for Refusal {
    ghost from_gives = { λ fault r. r ≡ of_check fault };

    fn from(fault: CheckFault) -> Refusal {
        match fault {
            CheckFault::Memory => Refusal::Memory,
            other => Refusal::Check(other),
        }
    }
}

impl From<WorldFault> for Refusal {
    ghost from_gives = { λ fault r. r ≡ of_world fault };

    fn from(fault: WorldFault) -> Refusal {
        match fault {
            WorldFault::Memory => Refusal::Memory,
            other => Refusal::Schedule(other),
        }
    }
}
