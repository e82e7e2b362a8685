//! The bytes of the statements that nodes come from, and those of sections.

ghost use Rattle.std.specs.{Prelude.{◌≡◌, ◌<◌, Some, length, map, slice_get, All, IfOk}, Option.{option_map}};
ghost use Rattle.sect_front.specs.Front.{IsSpelled};
ghost use Rattle.sect_places.specs.NodeSpans.{item_span, node_span, AreNodeSpans};
ghost use Rattle.sect_places.specs.steps.Placed.{IsAmong, IsPlaced};

use crate::items::tree_spans;
use crate::nodes::node_origins;
use crate::origin::Origin;
use crate::sections::section_items;
use sect_front::{Items, Span};
use sect_types::Program;
use std::alloc::{AllocError, Global};
use std::marker::Model;

/// Where a node comes from: the bytes of the item that says what it does, and if that is a procedure's those of the
/// call in the thread.
#[derive(Clone, Copy)]
pub struct NodeSpan {
    pub item: Span,
    pub call: Option<Span>,
}

/// Where the nodes of each thread and of each section of a program come from, and the bytes of each section's `atomic`.
pub struct NodeSpans {
    threads: Vec<Items<NodeSpan>>,
    sections: Vec<Items<NodeSpan>>,
    heads: Vec<Span>,
}

impl Drop for NodeSpans {
    fn drop(self) {
        let NodeSpans {
            threads: _,
            sections: _,
            heads: _,
        } = self;
    }
}

impl Model for NodeSpans {
    ghost use Rattle.sect_places.specs.NodeSpans.{NodeSpansView};

    ghost Value = { NodeSpansView };

    ghost view = { λ s. record { threads = s.threads.items; sections = s.sections.items; heads = s.heads.items } };
}

impl NodeSpans {
    /// Where the nodes of a thread come from, a section being one node.
    pub fn thread(&self, number: u16) -> &[NodeSpan]
        requires { number < length self.now.threads }
        ensures { slice_get self.now.threads number ≡ Some result.now }
    {
        self.threads[number as usize].as_slice()
    }

    /// Where the nodes of a section come from.
    pub fn section(&self, number: u16) -> &[NodeSpan]
        requires { number < length self.now.sections }
        ensures { slice_get self.now.sections number ≡ Some result.now }
    {
        self.sections[number as usize].as_slice()
    }

    /// The bytes of the `atomic` of a section.
    pub fn head(&self, number: u16) -> Span
        requires { number < length self.now.heads }
        ensures { slice_get self.now.heads number ≡ Some result }
    {
        self.heads[number as usize]
    }
}

/// The bytes of a call.
fn call_span(spans: &[Span], call: Option<usize>) -> Option<Span>
    requires { IsAmong (length spans.now) call }
    ensures { result ≡ option_map (item_span spans.now) call }
{
    Some(spans[call?])
}

/// The bytes of nodes, by where they come from.
fn text_spans(
    alloc: Global,
    spans: &[Span],
    origins: &[Origin],
) -> Result<Items<NodeSpan>, AllocError>
    requires { All (IsPlaced (length spans.now)) origins.now }
    ensures { IfOk result (λ list. list ≡ map (node_span spans.now) origins.now) }
{
    let mut list = Vec::with_capacity(alloc, origins.len())?;
    for origin in origins {
        list.push(NodeSpan {
            item: spans[origin.item],
            call: call_span(spans, origin.call),
        })?;
    }
    Ok(Items::from_vec(list))
}

/// The bytes of the nodes of texts.
fn texts_spans(
    alloc: Global,
    spans: &[Span],
    texts: &[Items<Origin>],
) -> Result<Vec<Items<NodeSpan>>, AllocError>
    requires { All (All (IsPlaced (length spans.now))) texts.now }
    ensures { IfOk result (λ lists. lists.items ≡ map (map (node_span spans.now)) texts.now) }
{
    let mut lists = Vec::with_capacity(alloc, texts.len())?;
    for text in texts {
        lists.push(text_spans(alloc, spans, text.as_slice())?)?;
    }
    Ok(lists)
}

/// The bytes of items.
fn items_spans(alloc: Global, spans: &[Span], items: &[usize]) -> Result<Vec<Span>, AllocError>
    requires { All (λ n. n < length spans.now) items.now }
    ensures { IfOk result (λ list. list.items ≡ map (item_span spans.now) items.now) }
{
    let mut list = Vec::with_capacity(alloc, items.len())?;
    for item in items {
        list.push(spans[*item])?;
    }
    Ok(list)
}

/// The bytes that the nodes and the sections of a program come from, which the text spells.
pub fn node_spans(alloc: Global, source: &[u8], program: &Program) -> Result<NodeSpans, AllocError>
    requires { IsSpelled source.now program.now.source }
    ensures { IfOk result (AreNodeSpans source.now program.now) }
{
    let spans = tree_spans(alloc, source, program.tree())?;
    let origins = node_origins(alloc, program)?;
    let heads = section_items(alloc, program)?;
    let threads = texts_spans(alloc, spans.as_slice(), origins.threads())?;
    let sections = texts_spans(alloc, spans.as_slice(), origins.sections())?;
    let heads = items_spans(alloc, spans.as_slice(), heads.as_slice())?;
    Ok(NodeSpans {
        threads,
        sections,
        heads,
    })
}
