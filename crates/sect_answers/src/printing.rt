//! The lines of refusals.

ghost use Rattle.std.specs.{Prelude.{◌≡◌, ◌++◌, OnOk}, String.{string_bytes}};
ghost use Rattle.sect_answers.specs.Refusals.{front_text, type_text, scheme_text, source_text, workers_text};
ghost use Rattle.sect_answers.specs.Refusals.{serial_text, states_text, cert_text, check_text, world_text};
ghost use Rattle.sect_answers.specs.Refusals.{refusal_text};

use crate::refusal::Refusal;
use sect_cert::CertFault;
use sect_check::CheckFault;
use sect_front::FrontFault;
use sect_infer::InferFault;
use sect_names::{SchemeFault, SourceRefusal};
use sect_serial::{OutcomesFault, SerialFault};
use sect_types::TypeFault;
use sect_world::WorldFault;
use std::alloc::AllocError;
use std::fmt::Write;

/// What is written where memory ran out.
pub const NO_MEMORY: &str = "out of memory";

/// Adds what a refusal says to a text, as `refused 5 UnexpectedEnd line 1`.
pub fn put_refusal(text: &mut String, why: &Refusal) -> Result<(), AllocError>
    ensures { OnOk result (string_bytes text.new ≡ string_bytes text.old ++ refusal_text why.now) }
{
    match why {
        Refusal::Memory => text.push_str(NO_MEMORY),
        Refusal::Source(why) => {
            text.push_str("refused ")?;
            put_source(text, why)
        }
        Refusal::Report(report) => text.push_str(report.as_str()),
        Refusal::Workers(why) => {
            text.push_str("refused ")?;
            put_workers(text, *why)
        }
        Refusal::Serial(why) => {
            text.push_str("refused ")?;
            put_serial(text, why)
        }
        Refusal::Outcomes(why) => {
            text.push_str("refused ")?;
            put_states(text, why)
        }
        Refusal::Check(why) => {
            text.push_str("refused ")?;
            put_check(text, why)
        }
        Refusal::Schedule(why) => {
            text.push_str("refused ")?;
            put_world(text, why)
        }
        Refusal::Section(section) => Ok(write!(text, "refused 71 NoSuchSection {section}")?),
    }
}

/// Why a source text is refused.
fn put_source(text: &mut String, why: &SourceRefusal) -> Result<(), AllocError>
    ensures { OnOk result (string_bytes text.new ≡ string_bytes text.old ++ source_text why.now) }
{
    match why {
        SourceRefusal::Memory => text.push_str(NO_MEMORY),
        SourceRefusal::Front(why) => put_front(text, why),
        SourceRefusal::Types(why) => put_type(text, why),
        SourceRefusal::Scheme(why) => put_scheme(text, why),
    }
}

/// Why a text spells no program.
fn put_front(text: &mut String, why: &FrontFault) -> Result<(), AllocError>
    ensures { OnOk result (string_bytes text.new ≡ string_bytes text.old ++ front_text why.now) }
{
    match why {
        FrontFault::Memory => text.push_str(NO_MEMORY),
        FrontFault::BadByte { line } => write!(text, "1 BadByte line {line}"),
        FrontFault::BadNumber { line } => write!(text, "2 BadNumber line {line}"),
        FrontFault::LongName { line } => write!(text, "3 LongName line {line}"),
        FrontFault::Unexpected { line } => write!(text, "4 Unexpected line {line}"),
        FrontFault::UnexpectedEnd { line } => write!(text, "5 UnexpectedEnd line {line}"),
        FrontFault::TooDeep { line } => write!(text, "6 TooDeep line {line}"),
        FrontFault::TooLarge => text.push_str("7 TooLarge line 1"),
    }
}

/// Which rule is broken at which item.
fn put_type(text: &mut String, why: &TypeFault) -> Result<(), AllocError>
    ensures { OnOk result (string_bytes text.new ≡ string_bytes text.old ++ type_text why.now) }
{
    match why {
        TypeFault::Memory => text.push_str(NO_MEMORY),
        TypeFault::Unknown { item } => write!(text, "10 Unknown item {item}"),
        TypeFault::Twice { item } => write!(text, "11 Twice item {item}"),
        TypeFault::WrongType { item } => write!(text, "12 WrongType item {item}"),
        TypeFault::SharedOutside { item } => write!(text, "13 SharedOutside item {item}"),
        TypeFault::Nested { item } => write!(text, "14 Nested item {item}"),
        TypeFault::TooMany { item } => write!(text, "15 TooMany item {item}"),
        TypeFault::Recursion { item } => write!(text, "16 Recursion item {item}"),
        TypeFault::Arguments { item } => write!(text, "17 Arguments item {item}"),
    }
}

/// Why there is no scheme.
fn put_scheme(text: &mut String, why: &SchemeFault) -> Result<(), AllocError>
    ensures { OnOk result (string_bytes text.new ≡ string_bytes text.old ++ scheme_text why.now) }
{
    match why {
        SchemeFault::Memory => text.push_str(NO_MEMORY),
        SchemeFault::BadK => text.push_str("60 BadK"),
        SchemeFault::NoSuchGlobal { record } => write!(text, "20 NoSuchGlobal record {record}"),
        SchemeFault::GuardIsGuarded { record } => write!(text, "21 GuardIsGuarded record {record}"),
        SchemeFault::HintTwice { record } => write!(text, "22 HintTwice record {record}"),
    }
}

/// Why there are no such workers.
fn put_workers(text: &mut String, why: InferFault) -> Result<(), AllocError>
    ensures { OnOk result (string_bytes text.new ≡ string_bytes text.old ++ workers_text why) }
{
    match why {
        InferFault::BadWorkers => text.push_str("61 BadWorkers"),
        InferFault::Memory => text.push_str(NO_MEMORY),
    }
}

/// Why an order is refused.
fn put_serial(text: &mut String, why: &SerialFault) -> Result<(), AllocError>
    ensures { OnOk result (string_bytes text.new ≡ string_bytes text.old ++ serial_text why.now) }
{
    match why {
        SerialFault::Memory => text.push_str(NO_MEMORY),
        SerialFault::NoSection { thread } => write!(text, "80 NoSection thread {thread}"),
        SerialFault::SectionsLeft { thread } => write!(text, "81 SectionsLeft thread {thread}"),
    }
}

/// Why outcomes aren't listed.
fn put_states(text: &mut String, why: &OutcomesFault) -> Result<(), AllocError>
    ensures { OnOk result (string_bytes text.new ≡ string_bytes text.old ++ states_text why.now) }
{
    match why {
        OutcomesFault::Memory => text.push_str(NO_MEMORY),
        OutcomesFault::TooManyStates => text.push_str("90 TooManyStates"),
    }
}

/// Why bytes are the text of no certificate.
fn put_cert(text: &mut String, why: &CertFault) -> Result<(), AllocError>
    ensures { OnOk result (string_bytes text.new ≡ string_bytes text.old ++ cert_text why.now) }
{
    match why {
        CertFault::Memory => text.push_str(NO_MEMORY),
        CertFault::BadCertLine { line } => write!(text, "30 BadCertLine line {line}"),
        CertFault::CertEnd { line } => write!(text, "31 CertEnd line {line}"),
        CertFault::NotCanonical { line } => write!(text, "32 NotCanonical line {line}"),
        CertFault::OldVersion => text.push_str("33 OldVersion line 1"),
    }
}

/// Why a certificate is refused.
fn put_check(text: &mut String, why: &CheckFault) -> Result<(), AllocError>
    ensures { OnOk result (string_bytes text.new ≡ string_bytes text.old ++ check_text why.now) }
{
    match why {
        CheckFault::Memory => text.push_str(NO_MEMORY),
        CheckFault::Source(why) => {
            text.push_str("40 Source ")?;
            put_source(text, why)
        },
        CheckFault::Text(why) => {
            text.push_str("41 Text ")?;
            put_cert(text, why)
        },
        CheckFault::WrongProgram => text.push_str("42 WrongProgram"),
        CheckFault::NotGenerated { section, node } => write!(
            text,
            "43 NotGenerated section {section} node {node}"
        ),
        CheckFault::NotCarried { section, from, to } => write!(
            text,
            "44 NotCarried section {section} edge {from} {to}"
        ),
        CheckFault::EntryNotCovered { section } => write!(
            text,
            "45 EntryNotCovered section {section}"
        ),
        CheckFault::NotMaximal { section } => write!(text, "46 NotMaximal section {section}"),
        CheckFault::BrokenChain {
            section,
            lock,
            step,
        } => write!(
            text,
            "47 BrokenChain section {section} lock {lock} step {step}"
        ),
        CheckFault::NoChain { section, lock } => write!(
            text,
            "48 NoChain section {section} lock {lock}"
        ),
    }
}

/// Why a schedule is refused.
fn put_world(text: &mut String, why: &WorldFault) -> Result<(), AllocError>
    ensures { OnOk result (string_bytes text.new ≡ string_bytes text.old ++ world_text why.now) }
{
    match why {
        WorldFault::NoSuchThread(thread) => write!(text, "70 NoSuchThread {thread}"),
        WorldFault::Memory => text.push_str(NO_MEMORY),
    }
}
