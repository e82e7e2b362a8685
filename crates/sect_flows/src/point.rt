//! Points of a program between its statements.

/// Where control stands in a thread: before a node of its own graph, in which a section is one node, or before a node
/// of the graph of a section. Behind the last node stands the exit.
#[derive(Clone, Copy, PartialEq, Eq, Hash)]
pub struct ProgramPoint {
    /// The section, or none outside sections.
    pub section: Option<u16>,
    pub node: u16,
}

/// A local at a point.
#[derive(Clone, Copy, PartialEq, Eq, Hash)]
pub struct LocalAt {
    pub point: ProgramPoint,
    pub local: u16,
}
