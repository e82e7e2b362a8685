//! What a thread comes to next in its text.

ghost use Rattle.std.specs.Prelude.{◌≢◌, ◌<◌, length};
ghost use Rattle.sect_types.specs.Statements.{Stop};
ghost use Rattle.sect_graph.specs.Rests.{rest_at};
ghost use Rattle.sect_emit.specs.{Compiled.{program_of}, Graphed.{text_at}};
ghost use Rattle.sect_world.specs.steps.Moves.{IsNext};

use sect_emit::Compiled;
use sect_types::Label;

/// The statement, test or section to which a thread comes next that is at this node of its graph, before its end.
pub fn next_label(compiled: &Compiled, thread: u16, node: u16) -> Label
    requires thread { thread < length (program_of compiled.now).texts }
    requires on { rest_at (text_at compiled.now thread) node ≢ Stop }
    ensures { IsNext result (rest_at (text_at compiled.now thread) node) }
{
    compiled.facts();
    compiled.scheme().graph().thread(thread).action(node)
}
