//! The lines of the statements that nodes come from.

ghost use Rattle.std.specs.{Prelude.{◌≡◌, ◌<◌, length, map, All, IfOk}, Option.{option_map}};
ghost use Rattle.sect_front.specs.Front.{IsSpelled};
ghost use Rattle.sect_types.specs.Sections.{sections_of};
ghost use Rattle.sect_places.specs.{Spans.{AreProper}, NodeLines.{item_line, node_line, beginnings, AreNodeLines}};
ghost use Rattle.sect_places.specs.steps.Placed.{IsAmong, IsPlaced};

use crate::items::tree_spans;
use crate::nodes::node_origins;
use crate::origin::Origin;
use crate::position::Position;
use crate::positions::positions_of;
use sect_front::{Items, Span};
use sect_types::Program;
use std::alloc::{AllocError, Global};

/// Where a node comes from: the line of its statement, and if that is a procedure's the line of the call in the thread.
/// Lines are counted from 1.
#[derive(Clone, Copy)]
pub struct NodeLine {
    pub line: usize,
    pub call: Option<usize>,
}

/// Where each of these begins.
fn beginnings_of(alloc: Global, source: &[u8], spans: &[Span]) -> Result<Vec<Position>, AllocError>
    requires { AreProper (length source.now) spans.now }
    ensures { IfOk result (λ list. list.items ≡ beginnings source.now spans.now) }
{
    let mut places = Vec::with_capacity(alloc, spans.len())?;
    for span in spans {
        places.push(span.start)?;
    }
    positions_of(alloc, source, places.as_slice())
}

/// The line of a call.
fn call_line(places: &[Position], call: Option<usize>) -> Option<usize>
    requires { IsAmong (length places.now) call }
    ensures { result ≡ option_map (item_line places.now) call }
{
    Some(places[call?].line)
}

/// The lines of nodes, by where they come from.
fn lines_of(
    alloc: Global,
    places: &[Position],
    origins: &[Origin],
) -> Result<Vec<NodeLine>, AllocError>
    requires { All (IsPlaced (length places.now)) origins.now }
    ensures { IfOk result (λ lines. lines.items ≡ map (node_line places.now) origins.now) }
{
    let mut lines = Vec::with_capacity(alloc, origins.len())?;
    for origin in origins {
        lines.push(NodeLine {
            line: places[origin.item].line,
            call: call_line(places, origin.call),
        })?;
    }
    Ok(lines)
}

/// The lines of the nodes of each section.
fn section_lines(
    alloc: Global,
    places: &[Position],
    sections: &[Items<Origin>],
) -> Result<Vec<Vec<NodeLine>>, AllocError>
    requires { All (All (IsPlaced (length places.now))) sections.now }
    ensures { IfOk result (λ lines. map (λ v. v.items) lines.items ≡ map (map (node_line places.now)) sections.now) }
{
    let mut lines = Vec::with_capacity(alloc, sections.len())?;
    for section in sections {
        lines.push(lines_of(alloc, places, section.as_slice())?)?;
    }
    Ok(lines)
}

/// The lines of the nodes of each section of a program, which the text spells.
pub fn node_lines(
    alloc: Global,
    source: &[u8],
    program: &Program,
) -> Result<Vec<Vec<NodeLine>>, AllocError>
    requires { IsSpelled source.now program.now.source }
    ensures are { IfOk result (λ lines. AreNodeLines source.now program.now (map (λ v. v.items) lines.items)) }
    ensures count { IfOk result (λ lines. length lines.items ≡ length (sections_of program.now.texts)) }
{
    let spans = tree_spans(alloc, source, program.tree())?;
    let places = beginnings_of(alloc, source, spans.as_slice())?;
    let origins = node_origins(alloc, program)?;
    section_lines(alloc, places.as_slice(), origins.sections())
}
