//! The section that is judged.

use sect_front::Locking;
use sect_graph::Flow;
use sect_names::Scheme;

/// A section that is judged: its program's scheme, its thread, how it locks, and its graph.
#[derive(Clone, Copy)]
pub struct Judged<'a> {
    pub scheme: &'a Scheme,
    pub thread: u16,
    pub locking: Locking,
    pub flow: &'a Flow,
}
