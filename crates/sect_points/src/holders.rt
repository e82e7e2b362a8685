//! What may hold a reference, and what a path begins with.

use sect_types::Action;

/// What a path begins with.
#[derive(Clone, Copy, PartialEq, Eq, PartialOrd, Ord, Hash)]
pub enum Variable {
    Global(u16),
    /// A local of a thread.
    Local(u16, u16),
}

/// What may hold a reference.
#[derive(Clone, Copy)]
pub enum Holder {
    /// A local of a thread.
    Local(u16, u16),
    /// A field, by its number, of a site's objects.
    Slot(u16, u16),
}

/// A holder may hold a reference to an object of a site.
#[derive(Clone, Copy)]
pub struct Fact {
    pub holder: Holder,
    pub site: u16,
}

/// A statement without a block, and the thread that it stands in.
#[derive(Clone, Copy)]
pub struct ThreadAction {
    pub thread: u16,
    pub action: Action,
}

/// What grew.
#[derive(Clone, Copy)]
pub enum Growth {
    /// The set of a local of a thread.
    Local(u16, u16),
    /// The field of this number, of some sites.
    Field(u16),
}
