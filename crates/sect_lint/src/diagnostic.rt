//! What is told of a mistake.

use crate::limit::Limit;
use crate::mistake::Mistake;
use sect_front::{Span, TokenKind};

/// What is wrong with a source text, and where.
#[derive(Drop)]
pub struct Diagnostic {
    pub mistake: Mistake,
    /// The bytes that the carets stand under.
    pub span: Span,
    pub detail: Detail,
}

/// What is said beside the carets.
#[derive(Drop)]
pub enum Detail {
    Nothing,
    /// How many bytes there are.
    Bytes(usize),
    /// The brace at this place is the innermost that is open.
    OpenBrace(usize),
    /// The name is first declared at these bytes.
    Earlier(Span),
    /// This is what it shouldn't be.
    Type(Typed),
    /// The types of these two don't agree.
    Types(Typed, Typed),
    /// The limit that is passed.
    Limit(Limit),
    /// How many arguments and how many parameters there are.
    Counts(Counts),
    /// The names in the calls by which the first of them leads back.
    Circle(Vec<Span>),
    /// The kinds of tokens that may stand there.
    Expected(Vec<TokenKind>),
}

/// What a part of a text is, by its type.
#[derive(Clone, Copy)]
pub enum Shape {
    Int,
    /// The reference to no object.
    Null,
    /// A reference to objects of the record whose name stands at these bytes.
    Reference(Span),
    /// A global, which isn't assigned to.
    Global,
}

/// A part of a text, by its bytes, and what it is.
#[derive(Clone, Copy)]
pub struct Typed {
    pub span: Span,
    pub shape: Shape,
}

/// A call with another number of arguments than the procedure has parameters.
#[derive(Clone, Copy)]
pub struct Counts {
    /// The name of the procedure.
    pub procedure: Span,
    pub arguments: usize,
    pub parameters: usize,
}
