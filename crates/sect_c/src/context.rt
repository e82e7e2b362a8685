//! What the text of a statement depends on beside the statement.

use sect_conflicts::Taken;
use sect_emit::{Compiled, GraphOf};
use sect_types::{Base, Field, Program};

/// A program, and the fields that may be read while others write them, since the plan of some section follows them.
#[derive(Clone, Copy)]
pub struct Context<'a> {
    pub program: &'a Program,
    pub looked: &'a [Field],
}

/// Where a statement stands: its graph, the thread, and the number of the graph's exit.
#[derive(Clone, Copy)]
pub struct Standing {
    pub graph: GraphOf,
    pub thread: u16,
    pub exit: u16,
}

/// A field of the object that a base refers to.
#[derive(Clone, Copy)]
pub struct Member {
    pub base: Base,
    pub field: Field,
}

/// A compiled program, the keys that its sections have to take, and the fields that their paths follow.
#[derive(Clone, Copy)]
pub struct Emitted<'a> {
    pub compiled: &'a Compiled,
    pub taken: &'a Taken,
    pub looked: &'a [Field],
}
