//! The mistakes that a source text may have.

ghost use Rattle.std.specs.Prelude.{◌≡◌};
ghost use Rattle.sect_lint.specs.Mistakes.{number_of, title_of, note_of, of_front, of_types, of_scheme};

use sect_front::FrontFault;
use sect_names::SchemeFault;
use sect_types::TypeFault;

/// What may be wrong with a source text.
#[derive(Clone, Copy)]
pub enum Mistake {
    /// A byte with which no token begins.
    BadByte,
    /// A word that begins with a digit and is no integer.
    BadNumber,
    /// A name above 32 bytes.
    LongName,
    /// A token with which no text goes on.
    Unexpected,
    /// The text ends before a declaration does.
    UnexpectedEnd,
    /// A block of depth 33.
    TooDeep,
    /// More than 1,048,576 bytes.
    TooLarge,
    /// A name that nothing has.
    Unknown,
    /// A name that an earlier declaration has.
    Twice,
    /// Types that don't agree.
    WrongType,
    /// A load, a store, a `new`, a `print` or a `call` outside a section and outside a procedure.
    SharedOutside,
    /// A section in a section or in a procedure.
    Nested,
    /// An item that passes a limit.
    TooMany,
    /// A call in a procedure of one that is it or reaches it by calls.
    Recursion,
    /// A call with another number of arguments than the procedure has parameters.
    Arguments,
    /// A hint that names no global.
    NoSuchGlobal,
    /// A hint that names a global whose record has a hint.
    GuardIsGuarded,
    /// A second hint of one record.
    HintTwice,
}

impl Mistake {
    /// The number of its refusal.
    pub fn number(self) -> u32
        ensures { result ≡ number_of self }
    {
        match self {
            Mistake::BadByte => 1,
            Mistake::BadNumber => 2,
            Mistake::LongName => 3,
            Mistake::Unexpected => 4,
            Mistake::UnexpectedEnd => 5,
            Mistake::TooDeep => 6,
            Mistake::TooLarge => 7,
            Mistake::Unknown => 10,
            Mistake::Twice => 11,
            Mistake::WrongType => 12,
            Mistake::SharedOutside => 13,
            Mistake::Nested => 14,
            Mistake::TooMany => 15,
            Mistake::Recursion => 16,
            Mistake::Arguments => 17,
            Mistake::NoSuchGlobal => 20,
            Mistake::GuardIsGuarded => 21,
            Mistake::HintTwice => 22,
        }
    }

    /// What is wrong, in a few words.
    pub fn title(self) -> &'static str
        ensures { result.now ≡ title_of self }
    {
        match self {
            Mistake::BadByte => "bad byte",
            Mistake::BadNumber => "bad number",
            Mistake::LongName => "name too long",
            Mistake::Unexpected => "unexpected token",
            Mistake::UnexpectedEnd => "unexpected end",
            Mistake::TooDeep => "block too deep",
            Mistake::TooLarge => "text too large",
            Mistake::Unknown => "unknown name",
            Mistake::Twice => "name declared twice",
            Mistake::WrongType => "wrong type",
            Mistake::SharedOutside => "shared access outside a section",
            Mistake::Nested => "nested section",
            Mistake::TooMany => "too many",
            Mistake::Recursion => "recursive call",
            Mistake::Arguments => "wrong number of arguments",
            Mistake::NoSuchGlobal => "no such global",
            Mistake::GuardIsGuarded => "guard is guarded itself",
            Mistake::HintTwice => "second hint",
        }
    }

    /// What is wanted.
    pub fn note(self) -> &'static str
        ensures { result.now ≡ note_of self }
    {
        match self {
            Mistake::BadByte => {
                "outside comments stand names, integers and the signs { } ( ) ; , . = + - * == != < <="
            }
            Mistake::BadNumber => {
                "an integer is 0, or digits that don't begin with 0, at most 9223372036854775807, with no letter behind"
            }
            Mistake::LongName => { "a name has at most 32 bytes" }
            Mistake::Unexpected => {
                "a program can begin with all that stands before this token, and none goes on with it"
            }
            Mistake::UnexpectedEnd => { "the last declaration wants its end" }
            Mistake::TooDeep => {
                "blocks stand in each other at most 32 deep, the braces of a thread or a procedure counted"
            }
            Mistake::TooLarge => { "a text has at most 1048576 bytes" }
            Mistake::Unknown => {
                "a name is known where its declaration stands: a local in its thread, a field in its record"
            }
            Mistake::Twice => {
                "things of one kind have different names, and a local hasn't the name of a global"
            }
            Mistake::WrongType => {
                "both sides have one type, `+ - * < <=` and `print` take integers, and only a local is assigned to"
            }
            Mistake::SharedOutside => {
                "a load, a store, `new`, `print` and `call` stand inside `atomic` or in a procedure"
            }
            Mistake::Nested => { "`atomic` doesn't stand inside `atomic`, nor in a procedure" }
            Mistake::TooMany => {
                "the item is the first of its kind past a limit, or a call whose statements pass one"
            }
            Mistake::Recursion => {
                "a procedure doesn't call itself, nor one that comes back to it by calls"
            }
            Mistake::Arguments => { "a call has one argument for each parameter of the procedure" }
            Mistake::NoSuchGlobal => { "the word after `protected_by` is the name of a global" }
            Mistake::GuardIsGuarded => {
                "a record is protected by a global whose own record has no hint"
            }
            Mistake::HintTwice => { "a record has one `protected_by` at most" }
        }
    }

    /// The mistake of a text that spells no tree.
    pub fn of_front(fault: &FrontFault) -> Option<Mistake>
        ensures { result ≡ of_front fault.now }
    {
        match fault {
            FrontFault::Memory => None,
            FrontFault::BadByte { .. } => Some(Mistake::BadByte),
            FrontFault::BadNumber { .. } => Some(Mistake::BadNumber),
            FrontFault::LongName { .. } => Some(Mistake::LongName),
            FrontFault::Unexpected { .. } => Some(Mistake::Unexpected),
            FrontFault::UnexpectedEnd { .. } => Some(Mistake::UnexpectedEnd),
            FrontFault::TooDeep { .. } => Some(Mistake::TooDeep),
            FrontFault::TooLarge => Some(Mistake::TooLarge),
        }
    }

    /// The mistake of a tree that breaks a rule on types.
    pub fn of_types(fault: &TypeFault) -> Option<Mistake>
        ensures { result ≡ of_types fault.now }
    {
        match fault {
            TypeFault::Memory => None,
            TypeFault::Unknown { .. } => Some(Mistake::Unknown),
            TypeFault::Twice { .. } => Some(Mistake::Twice),
            TypeFault::WrongType { .. } => Some(Mistake::WrongType),
            TypeFault::SharedOutside { .. } => Some(Mistake::SharedOutside),
            TypeFault::Nested { .. } => Some(Mistake::Nested),
            TypeFault::TooMany { .. } => Some(Mistake::TooMany),
            TypeFault::Recursion { .. } => Some(Mistake::Recursion),
            TypeFault::Arguments { .. } => Some(Mistake::Arguments),
        }
    }

    /// The mistake of a program that breaks a rule on hints.
    pub fn of_scheme(fault: &SchemeFault) -> Option<Mistake>
        ensures { result ≡ of_scheme fault.now }
    {
        match fault {
            SchemeFault::Memory | SchemeFault::BadK => None,
            SchemeFault::NoSuchGlobal { .. } => Some(Mistake::NoSuchGlobal),
            SchemeFault::GuardIsGuarded { .. } => Some(Mistake::GuardIsGuarded),
            SchemeFault::HintTwice { .. } => Some(Mistake::HintTwice),
        }
    }
}
