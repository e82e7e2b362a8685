//! Lines of nodes whose list is the one before.

ghost use Rattle.std.specs.Prelude.{IsTrue};
ghost use Rattle.sect_cert.specs.steps.Again.{RepeatsList};

use crate::line::is_node;
use crate::parts::halves;

/// A line, and the one before it.
#[derive(Clone, Copy)]
pub struct Lines<'a> {
    pub before: &'a [u8],
    pub text: &'a [u8],
}

/// Whether a line is that of the node of this number, and has the list of the line before.
pub fn is_next(lines: Lines<'_>, number: usize) -> bool
    ensures { IsTrue result → RepeatsList lines.entry.before.now lines.entry.text.now number }
{
    let Some((_, before)) = halves(lines.before, b':') else {
        return false;
    };
    let Some((head, list)) = halves(lines.text, b':') else {
        return false;
    };
    list == before && is_node(head, number)
}
