//! Which warnings are told, and for which a text is refused.

ghost use Rattle.std.specs.Prelude.{◌≡◌, ◌++◌, ◌∷◌, [], IfOk, OnOk};
ghost use Rattle.sect_warnings.specs.Rulings.{code_name, names as names_by, later_of, with_ruling as with_ruling_by};
ghost use Rattle.sect_warnings.specs.Rulings.{ruling_of as ruling_by, is_allowed as is_allowed_by, told_by};
ghost use Rattle.sect_warnings.specs.Rulings.{is_denied as is_denied_by, is_refused as is_refused_by};

use crate::placed::Placed;
use std::alloc::{AllocError, Global};

/// A warning by its name.
#[derive(Clone, Copy, Debug)]
pub enum Code {
    NoLock,
    AllForOne,
    ClassLock,
    NeverFilled,
    NoCommonField,
    LostUpdate,
    Unused,
    HintWithoutUse,
}

/// All of them, in the order of the documents.
pub const CODES: &[Code] = &[
    Code::NoLock,
    Code::AllForOne,
    Code::ClassLock,
    Code::NeverFilled,
    Code::NoCommonField,
    Code::LostUpdate,
    Code::Unused,
    Code::HintWithoutUse,
];

impl Code {
    /// Its name.
    pub fn name(self) -> &'static str
        ensures { result.now ≡ code_name self }
    {
        match self {
            Code::NoLock => "no-lock",
            Code::AllForOne => "all-for-one",
            Code::ClassLock => "class-lock",
            Code::NeverFilled => "never-filled",
            Code::NoCommonField => "no-common-field",
            Code::LostUpdate => "lost-update",
            Code::Unused => "unused",
            Code::HintWithoutUse => "hint-without-use",
        }
    }
}

/// Of which warnings a ruling is.
#[derive(Clone, Copy)]
pub enum Which {
    All,
    One(Code),
}

impl Which {
    /// Whether a warning of this name is one of these.
    fn names(self, name: &str) -> bool
        ensures { result ≡ names_by self name.now }
    {
        match self {
            Which::All => true,
            Which::One(code) => code.name().as_bytes() == name.as_bytes(),
        }
    }
}

/// What becomes of a warning: it isn't told, or it is told, and the text is refused.
#[derive(Clone, Copy)]
pub enum Level {
    Allow,
    Deny,
}

/// What becomes of which warnings, and at which word that stands. The last one counts.
#[derive(Clone, Copy)]
pub struct Ruling {
    pub at: usize,
    pub which: Which,
    pub level: Level,
}

/// The one of two rulings that stands later.
fn later(last: Option<Ruling>, ruling: Ruling) -> Option<Ruling>
    ensures { result ≡ later_of last ruling }
{
    match last {
        Some(other) if ruling.at < other.at => Some(other),
        _ => Some(ruling),
    }
}

/// The last of the rulings so far that is of warnings of this name, and with one more.
fn with_ruling(name: &str, last: Option<Ruling>, ruling: Ruling) -> Option<Ruling>
    ensures { result ≡ with_ruling_by name.now last ruling }
{
    if ruling.which.names(name) {
        later(last, ruling)
    } else {
        last
    }
}

/// The last ruling that is of warnings of this name.
fn ruling_of(rulings: &[Ruling], name: &str) -> Option<Ruling>
    ensures { result ≡ ruling_by rulings.now name.now }
{
    let mut last = None;
    for ruling in rulings {
        last = with_ruling(name, last, *ruling);
    }
    last
}

/// Whether a warning of this name isn't told.
fn is_allowed(rulings: &[Ruling], name: &str) -> bool
    ensures { result ≡ is_allowed_by rulings.now name.now }
{
    match ruling_of(rulings, name) {
        Some(ruling) => matches!(ruling.level, Level::Allow),
        None => false,
    }
}

/// Whether a text is refused for a warning of this name.
fn is_denied(rulings: &[Ruling], name: &str) -> bool
    ensures { result ≡ is_denied_by rulings.now name.now }
{
    match ruling_of(rulings, name) {
        Some(ruling) => matches!(ruling.level, Level::Deny),
        None => false,
    }
}

/// Adds a warning, if it is told.
fn add_told(told: &mut Vec<Placed>, rulings: &[Ruling], placed: Placed) -> Result<(), AllocError>
    ensures { OnOk result (told.new.items ≡ told.old.items ++ told_by rulings.now (placed ∷ [])) }
{
    if is_allowed(rulings, placed.told().name()) {
        return Ok(());
    }
    Ok(told.push(placed)?)
}

/// Of these warnings those that are told.
pub fn told_of(
    alloc: Global,
    rulings: &[Ruling],
    placed: Vec<Placed>,
) -> Result<Vec<Placed>, AllocError>
    ensures { IfOk result (λ told. told.items ≡ told_by rulings.now placed.items) }
{
    let mut told = Vec::new(alloc);
    for warning in placed {
        add_told(&mut told, rulings, warning)?;
    }
    Ok(told)
}

/// Whether a text is refused for one of these warnings.
pub fn is_refused(rulings: &[Ruling], told: &[Placed]) -> bool
    ensures { result ≡ is_refused_by rulings.now told.now }
{
    told.iter()
        .any(|placed| is_denied(rulings, placed.told().name()))
}
