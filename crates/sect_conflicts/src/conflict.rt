//! What is told of two sections.

use sect_modes::{Key, Mode};
use sect_names::Path;

/// A key that two sections ask for in every state, and the strongest mode in which each of them does; the modes aren't
/// compatible.
#[derive(Clone, Copy)]
pub struct KeyClash {
    pub key: Key,
    pub first: Mode,
    pub second: Mode,
}

/// A path that the first of two sections locks, and one that the second does.
#[derive(Drop)]
pub struct PathPair {
    pub first: Path,
    pub second: Path,
}

/// Whether two sections of different threads exclude each other.
#[derive(Drop)]
pub enum Conflict {
    /// In every state: this is the first key, in key order, by which they do.
    Always(KeyClash),
    /// In the states where the two paths of some of these pairs denote one object. There is at least one pair.
    Sometimes(Vec<PathPair>),
    /// In no state of a run.
    Never,
}

/// Two sections of different threads, the lesser number first, and whether they exclude each other.
#[derive(Drop)]
pub struct SectionPair {
    pub first: u16,
    pub second: u16,
    pub conflict: Conflict,
}
