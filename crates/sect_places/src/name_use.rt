//! Names of a text.

use sect_front::{Name, Span};

/// What is declared.
#[derive(Clone, Copy)]
pub enum Thing {
    Record,
    Field,
    Global,
    Procedure,
    Thread,
    /// A local, or a parameter of a procedure.
    Local,
}

/// What a name does in its item.
#[derive(Clone, Copy)]
pub enum Role {
    /// It is declared there.
    Declared(Thing),
    /// The record that a field, a global, a parameter or a local refers to, or of which an object is made.
    Type,
    /// The global that guards a record, in a hint.
    Guard,
    /// The local that is assigned to.
    Target,
    /// What stands before the dot.
    Base,
    Field,
    /// An operand of a statement or a test, or an argument, by its number.
    Operand(usize),
    /// The procedure that is called.
    Procedure,
}

/// A name in an item, and what it does there.
#[derive(Clone, Copy)]
pub struct NameUse {
    /// The number of the item of the record, global, procedure or thread in which the name stands.
    pub scope: usize,
    /// The number of the item. The hints of a record stand in the item of the record.
    pub item: usize,
    pub role: Role,
    pub name: Name,
}

/// A name in an item, and its bytes.
#[derive(Clone, Copy)]
pub struct NameSpan {
    pub used: NameUse,
    pub span: Span,
}
