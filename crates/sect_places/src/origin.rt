//! Which items the nodes of a program come from.

ghost use Rattle.std.specs.Prelude.{◌≡◌, ◌<◌, length, slice_get, Some};

use sect_front::Items;
use std::marker::Model;

/// Where a node comes from.
#[derive(Clone, Copy)]
pub struct Origin {
    /// The number of the item that says what the node does: a statement; or a parameter or a local of a procedure,
    /// which a call sets.
    pub item: usize,
    /// In the expansion of a call, the number of the item of that call in the thread.
    pub call: Option<usize>,
}

/// Where the nodes of each thread and of each section of a program come from.
#[derive(Drop)]
pub struct NodeOrigins {
    threads: Vec<Items<Origin>>,
    sections: Vec<Items<Origin>>,
}

impl Model for NodeOrigins {
    ghost use Rattle.sect_places.specs.NodeOrigins.{OriginsView};

    ghost Value = { OriginsView };

    ghost view = { λ o. record { threads = o.threads.items; sections = o.sections.items } };
}

impl NodeOrigins {
    /// Those of each thread and of each section.
    pub fn new(threads: Vec<Items<Origin>>, sections: Vec<Items<Origin>>) -> NodeOrigins
        ensures { result ≡ record { threads = threads.items; sections = sections.items } }
    {
        NodeOrigins { threads, sections }
    }

    /// Where the nodes of a thread come from, a section being one node.
    pub fn thread(&self, number: u16) -> &[Origin]
        requires { number < length self.now.threads }
        ensures { slice_get self.now.threads number ≡ Some result.now }
    {
        self.threads[number as usize].as_slice()
    }

    /// Where the nodes of each thread come from, a section being one node.
    pub fn threads(&self) -> &[Items<Origin>]
        ensures { result.now ≡ self.now.threads }
    {
        self.threads.as_slice()
    }

    /// Where the nodes of each section come from.
    pub fn sections(&self) -> &[Items<Origin>]
        ensures { result.now ≡ self.now.sections }
    {
        self.sections.as_slice()
    }

    /// Where the nodes of a section come from.
    pub fn section(&self, number: u16) -> &[Origin]
        requires { number < length self.now.sections }
        ensures { slice_get self.now.sections number ≡ Some result.now }
    {
        self.sections[number as usize].as_slice()
    }
}
