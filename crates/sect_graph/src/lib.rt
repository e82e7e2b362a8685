//! Control-flow graphs: the nodes of a text, and where control goes on from each.
#![tactic(auto)]

mod emit;
mod flow;
mod graph;
mod predecessors;

pub use flow::{Flow, Node, Successors};
pub use graph::{Graph, graph_of};
pub use predecessors::{Predecessors, predecessors_of};
