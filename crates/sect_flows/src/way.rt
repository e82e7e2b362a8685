//! Where control goes on from a point.

ghost use Rattle.std.specs.Prelude.{◌≡◌, ◌<◌, length, slice_get, None};
ghost use Rattle.sect_flows.specs.Flows.{is_section as is_section_by, node_of, nodes_at, way_by, leaving, way_at as way_by_point};

use crate::point::ProgramPoint;
use sect_graph::{Flow, Graph, Node, Successors};
use sect_types::Label;

/// What is done at a point, and where control goes on: to these nodes of a section, or of the thread.
#[derive(Clone, Copy)]
pub struct Way {
    pub label: Label,
    pub section: Option<u16>,
    pub to: Successors,
}

fn is_section(label: Label, section: u16) -> bool
    ensures { result ≡ is_section_by section label }
{
    match label {
        Label::Section(number) => number == section,
        _ => false,
    }
}

/// The node of this number, if there is one.
fn node_at(flow: &Flow, number: u16) -> Option<Node>
    ensures { result ≡ slice_get flow.now number }
{
    if number < flow.exit() {
        Some(Node {
            label: flow.action(number),
            next: flow.succ(number),
        })
    } else {
        None
    }
}

/// The first node of a graph that is this section.
fn section_node(flow: &Flow, section: u16) -> Option<Node>
    ensures { result ≡ node_of section flow.now }
{
    for number in 0..flow.exit() {
        if is_section(flow.action(number), section) {
            return node_at(flow, number);
        }
    }
    None
}

/// The node at a point, if one stands there.
fn node_there(graph: &Graph, thread: u16, point: ProgramPoint) -> Option<Node>
    requires { thread < length graph.now.threads }
    ensures { result ≡ slice_get (nodes_at graph.now thread point.section) point.node }
{
    match point.section {
        None => node_at(graph.thread(thread), point.node),
        Some(section) => {
            if section as usize >= graph.section_count() {
                return None;
            }
            node_at(graph.section(section), point.node)
        }
    }
}

/// From a node: into the section that it is, or on to the nodes behind it.
fn way_from(section: Option<u16>, node: Node) -> Way
    ensures { result ≡ way_by section node }
{
    match node.label {
        Label::Section(number) => Way {
            label: node.label,
            section: Some(number),
            to: Successors::Next(0),
        },
        _ => Way {
            label: node.label,
            section,
            to: node.next,
        },
    }
}

/// From the exit of a section: on behind the node of its thread that it is.
fn way_out(graph: &Graph, thread: u16, section: u16) -> Option<Way>
    requires { thread < length graph.now.threads }
    ensures { result ≡ leaving (node_of section (nodes_at graph.now thread None)) }
{
    let node = section_node(graph.thread(thread), section)?;
    Some(Way {
        label: node.label,
        section: None,
        to: node.next,
    })
}

/// From a point, if control goes on there.
pub fn way_at(graph: &Graph, thread: u16, point: ProgramPoint) -> Option<Way>
    requires { thread < length graph.now.threads }
    ensures { result ≡ way_by_point graph.now thread point }
{
    match node_there(graph, thread, point) {
        Some(node) => Some(way_from(point.section, node)),
        None => way_out(graph, thread, point.section?),
    }
}
