//! Where the places of a text stand.

ghost use Rattle.std.specs.{Prelude.{◌≡◌, ◌≤◌, ◌++◌, OnOk, length}, String.{string_bytes}};
ghost use Rattle.sect_legend.specs.Legend.{mark_of, spot};

use sect_emit::Compiled;
use sect_places::{LineIndex, NodeSpans};
use std::alloc::AllocError;
use std::fmt::Write;

/// A compiled program and its text: what stands before the line and the column of a place, where the text has a file,
/// and where the nodes and the sections come from.
#[derive(Clone, Copy)]
pub struct Places<'a> {
    pub mark: Option<&'a str>,
    pub source: &'a LineIndex<'a>,
    pub compiled: &'a Compiled,
    pub spans: &'a NodeSpans,
}

/// Adds where a place of the text stands.
pub fn put_spot(text: &mut String, places: &Places<'_>, at: usize) -> Result<(), AllocError>
    requires { at ≤ length places.now.source.now }
    ensures { OnOk result (string_bytes text.new
        ≡ string_bytes text.old ++ spot (mark_of places.now) places.now.source.now at) }
{
    let position = places.source.position(at);
    match places.mark {
        None => write!(text, "line {}", position.line)?,
        Some(mark) => write!(text, "{mark}{}:{}", position.line, position.column)?,
    }
    Ok(())
}
