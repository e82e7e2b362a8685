//! Where threads stand, by the nodes of graphs.

ghost use Rattle.std.specs.Prelude.{◌≡◌};
ghost use Rattle.sect_world.specs.Standings.{standing_by};

use crate::runner::{Phase, Runner};
use sect_emit::GraphOf;
use sect_types::Fault;

/// Where a thread stands.
#[derive(Clone, Copy)]
pub enum Standing {
    /// At this node of this graph: of its own, outside sections and before one that it has entered; or of the section
    /// that it runs.
    At(GraphOf, u16),
    /// Where this fault has broken off its section.
    Broken(Fault),
}

/// Where the thread of this number stands.
pub fn standing_of(thread: u16, runner: &Runner) -> Standing
    ensures { result ≡ standing_by thread runner.now.phase runner.now.node }
{
    match runner.phase {
        Phase::Outside => Standing::At(GraphOf::Thread(thread), runner.node),
        Phase::Entered => Standing::At(GraphOf::Thread(thread), runner.node),
        Phase::Running(section, node) => Standing::At(GraphOf::Section(section), node),
        Phase::Faulted(_, why) => Standing::Broken(why),
    }
}
