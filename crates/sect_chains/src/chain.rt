//! Chains.

ghost use Rattle.std.specs.Prelude.{◌≡◌};

use sect_names::Link;
use std::marker::Model;

/// The steps from the entry of a section, along the edges of its graph, to where a lock is generated: at each step the
/// lock that is needed from there on.
#[derive(Drop)]
pub struct Chain {
    links: Vec<Link>,
}

impl Model for Chain {
    ghost use Rattle.std.specs.Prelude.{List};
    ghost use Rattle.std.specs.Coded.{codes};
    ghost use Rattle.sect_points.specs.Paths.{path_code};
    ghost use Rattle.sect_names.specs.declared.link.Link.{Link};

    ghost Value = { List Link };

    ghost coded = { Prim.hlevel (codes, path_code) };

    ghost view = { λ c. c.links.items };
}

impl Chain {
    /// The chain of these steps.
    pub(crate) fn of(links: Vec<Link>) -> Chain
        ensures { result ≡ links.items }
    {
        Chain { links }
    }

    /// Its steps, in order.
    pub fn links(&self) -> &[Link]
        ensures { result.now ≡ self.now }
    {
        self.links.as_slice()
    }
}
