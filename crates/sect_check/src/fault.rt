//! Why a certificate isn't valid.

ghost use Rattle.std.specs.Prelude.{◌≡◌};
ghost use Rattle.sect_check.specs.declared.fault.SectionFault.TheVariants.{Memory};
ghost use Rattle.sect_check.specs.Verdicts.{of_source, of_text, of_section as in_section};

use sect_cert::CertFault;
use sect_names::SourceRefusal;
use std::alloc::AllocError;
use thiserror::Error;

/// Why what is claimed of a section isn't right. Nodes, locks of the entry list and steps are numbered from 0.
#[derive(Clone, Copy)]
pub enum SectionFault {
    /// Want of memory.
    Memory,
    /// What the node generates isn't covered by its list.
    NotGenerated { node: u16 },
    /// What is carried back from the one node's list to the other isn't covered by that one's.
    NotCarried { from: u16, to: u16 },
    /// A lock of the first node's list isn't covered by the entry list.
    EntryNotCovered,
    /// The entry list isn't in canonical order, or a lock of it covers another.
    NotMaximal,
    /// The lock of the entry list has no chain.
    NoChain { lock: usize },
    /// The step of the lock's chain is wrong; or the chain is of no lock.
    BrokenChain { lock: usize, step: usize },
}

impl From<AllocError> for SectionFault {
    ghost from_gives = { λ _ e. e ≡ Memory };

    fn from(_refused: AllocError) -> SectionFault {
        SectionFault::Memory
    }
}

/// Why the bytes of a certificate aren't those of a valid one for a source text. `Display` is what the program prints
/// after the word `refused`. Sections, nodes, locks of the entry list and steps are numbered from 0.
#[derive(Debug, Drop, Error)]
pub enum CheckFault {
    /// Want of memory.
    #[error("out of memory")]
    Memory,
    /// The source text is refused, or paths of so many fields.
    #[error("40 Source {0}")]
    Source(SourceRefusal),
    /// The bytes are the text of no certificate.
    #[error("41 Text {0}")]
    Text(CertFault),
    /// The certificate's numbers or locks aren't the program's.
    #[error("42 WrongProgram")]
    WrongProgram,
    /// What the node generates isn't covered by its list.
    #[error("43 NotGenerated section {section} node {node}")]
    NotGenerated {
        section: u16,
        node: u16,
    },
    /// What is carried back from the one node's list to the other isn't covered by that one's.
    #[error("44 NotCarried section {section} edge {from} {to}")]
    NotCarried {
        section: u16,
        from: u16,
        to: u16,
    },
    /// A lock of the first node's list isn't covered by the entry list.
    #[error("45 EntryNotCovered section {section}")]
    EntryNotCovered {
        section: u16,
    },
    /// The entry list isn't in canonical order, or a lock of it covers another.
    #[error("46 NotMaximal section {section}")]
    NotMaximal {
        section: u16,
    },
    /// A step of the lock's chain is wrong; or the chain is of no lock.
    #[error("47 BrokenChain section {section} lock {lock} step {step}")]
    BrokenChain {
        section: u16,
        lock: usize,
        step: usize,
    },
    /// The lock of the entry list has no chain.
    #[error("48 NoChain section {section} lock {lock}")]
    NoChain {
        section: u16,
        lock: usize,
    },
}

impl From<SourceRefusal> for CheckFault {
    ghost from_gives = { λ refusal fault. fault ≡ of_source refusal };

    fn from(refusal: SourceRefusal) -> CheckFault {
        match refusal {
            SourceRefusal::Memory => CheckFault::Memory,
            other => CheckFault::Source(other),
        }
    }
}

impl From<CertFault> for CheckFault {
    ghost from_gives = { λ text fault. fault ≡ of_text text };

    fn from(fault: CertFault) -> CheckFault {
        match fault {
            CertFault::Memory => CheckFault::Memory,
            other => CheckFault::Text(other),
        }
    }
}

/// The fault of a section, with the section's number.
pub fn of_section(section: u16, fault: SectionFault) -> CheckFault
    ensures { result ≡ in_section section fault }
{
    match fault {
        SectionFault::Memory => CheckFault::Memory,
        SectionFault::NotGenerated { node } => CheckFault::NotGenerated { section, node },
        SectionFault::NotCarried { from, to } => CheckFault::NotCarried { section, from, to },
        SectionFault::EntryNotCovered => CheckFault::EntryNotCovered { section },
        SectionFault::NotMaximal => CheckFault::NotMaximal { section },
        SectionFault::NoChain { lock } => CheckFault::NoChain { section, lock },
        SectionFault::BrokenChain { lock, step } => CheckFault::BrokenChain {
            section,
            lock,
            step,
        },
    }
}
