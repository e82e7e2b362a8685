//! What is worth a second look.

ghost use Rattle.std.specs.Prelude.{◌≡◌};
ghost use Rattle.sect_warnings.specs.Titles.{name_of, note_of, spare_name, spare_title, spare_note, told_name};
ghost use Rattle.sect_warnings.specs.Titles.{told_note};

use crate::lost::LostUpdate;
use sect_names::Effect;
use sect_places::Thing;

/// What may be told of a section of a program that is accepted.
#[derive(Clone, Copy)]
pub enum Finding {
    /// The section takes no lock, and prints nothing.
    NoLock,
    /// The section is marked `all`, and without the mark it would take one lock.
    AllForOne,
    /// The section locks all objects of a class, for reading or for writing.
    ClassLock { class: u16, effect: Effect },
    /// The node of this number loads from the object of this local, or stores to it, and no reference to an object ever
    /// comes to the local.
    NeverFilled { node: u16, local: u16 },
    /// The section and this one, which is of another thread, exclude each other and use fields of one record, though
    /// neither stores to a field that the other uses.
    NoCommonField { other: u16 },
    /// The section stores to a field what another of its thread has loaded from it, and doesn't load from it itself.
    LostUpdate(LostUpdate),
}

impl Finding {
    /// Its name.
    pub fn name(self) -> &'static str
        ensures { result.now ≡ name_of self }
    {
        match self {
            Finding::NoLock => "no-lock",
            Finding::AllForOne => "all-for-one",
            Finding::ClassLock { .. } => "class-lock",
            Finding::NeverFilled { .. } => "never-filled",
            Finding::NoCommonField { .. } => "no-common-field",
            Finding::LostUpdate(_) => "lost-update",
        }
    }

    /// What it means.
    pub fn note(self) -> &'static str
        ensures { result.now ≡ note_of self }
    {
        match self {
            Finding::NoLock => "it touches nothing that threads share",
            Finding::AllForOne => "a section marked `all` runs beside no other that takes a lock",
            Finding::ClassLock { .. } => {
                "a path to such an object has more fields than a lock may have"
            }
            Finding::NeverFilled { .. } => {
                "no statement ever gives the local an object, so a thread that comes here ends by the fault `null`"
            }
            Finding::NoCommonField { .. } => {
                "a lock is on all fields of an object; in two records these could be used side by side"
            }
            Finding::LostUpdate(_) => {
                "what other threads store between the two sections is lost: load and store belong into one section"
            }
        }
    }
}

/// A warning: the section that it is of, what is told, and the item that it stands at.
#[derive(Clone, Copy)]
pub struct Warning {
    pub section: u16,
    pub finding: Finding,
    pub item: usize,
}

/// What may be told of a declaration of a program that is accepted.
#[derive(Clone, Copy)]
pub enum Spare {
    /// No name refers to it.
    Unused(Thing),
    /// The record has a hint, and no section touches an object of it.
    Hint,
}

impl Spare {
    /// Its name.
    pub fn name(self) -> &'static str
        ensures { result.now ≡ spare_name self }
    {
        match self {
            Spare::Unused(_) => "unused",
            Spare::Hint => "hint-without-use",
        }
    }

    /// What is told of a declaration, in a few words.
    pub fn title(self) -> &'static str
        ensures { result.now ≡ spare_title self }
    {
        match self {
            Spare::Unused(Thing::Record) => "nothing uses this record",
            Spare::Unused(Thing::Field) => "nothing uses this field",
            Spare::Unused(Thing::Global) => "nothing uses this global",
            Spare::Unused(Thing::Procedure) => "nothing calls this procedure",
            Spare::Unused(Thing::Thread) => "nothing uses this thread",
            Spare::Unused(Thing::Local) => "nothing uses this variable",
            Spare::Hint => "no section touches an object of this record",
        }
    }

    /// What it means.
    pub fn note(self) -> &'static str
        ensures { result.now ≡ spare_note self }
    {
        match self {
            Spare::Unused(_) => "no name in the text refers to it",
            Spare::Hint => "its hint has nothing to protect",
        }
    }
}

/// What is told, of a section or of a declaration.
#[derive(Clone, Copy)]
pub enum Told {
    Section(Warning),
    Declaration(Spare),
}

impl Told {
    /// Its name.
    pub fn name(self) -> &'static str
        ensures { result.now ≡ told_name self }
    {
        match self {
            Told::Section(warning) => warning.finding.name(),
            Told::Declaration(spare) => spare.name(),
        }
    }

    /// What it means.
    pub fn note(self) -> &'static str
        ensures { result.now ≡ told_note self }
    {
        match self {
            Told::Section(warning) => warning.finding.note(),
            Told::Declaration(spare) => spare.note(),
        }
    }
}
