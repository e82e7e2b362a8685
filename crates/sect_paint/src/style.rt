//! How a stretch of a text looks on a terminal.

ghost use Rattle.std.specs.Prelude.{◌≡◌, ◌++◌, OnOk};
ghost use Rattle.sect_paint.specs.Styles.{begun as begun_by, ended, painted};

use std::alloc::AllocError;

/// How a stretch of a text looks.
#[derive(Clone, Copy)]
pub enum Style {
    /// As the terminal shows what isn't painted.
    Plain,
    /// What heads lines.
    Heading,
    /// A mistake.
    Error,
    /// What is worth a second look, or waits.
    Warning,
    /// What stands round the lines of a text: numbers, bars, arrows.
    Frame,
    /// Reading, and what goes together.
    Read,
    /// Writing.
    Write,
    /// Making objects.
    Make,
}

/// What begins a stretch that looks so.
fn begun(style: Style) -> &'static [u8]
    ensures { result.now ≡ begun_by style }
{
    match style {
        Style::Plain => b"",
        Style::Heading => b"\x1b[1m",
        Style::Error => b"\x1b[1;31m",
        Style::Warning => b"\x1b[1;33m",
        Style::Frame => b"\x1b[1;34m",
        Style::Read => b"\x1b[32m",
        Style::Write => b"\x1b[35m",
        Style::Make => b"\x1b[36m",
    }
}

/// What ends one.
fn end(style: Style) -> &'static [u8]
    ensures { result.now ≡ ended style }
{
    match style {
        Style::Plain => b"",
        _ => b"\x1b[0m",
    }
}

/// Adds a stretch as it is painted.
pub fn put(text: &mut Vec<u8>, style: Style, stretch: &[u8]) -> Result<(), AllocError>
    ensures { OnOk result (text.new.items ≡ text.old.items ++ painted style stretch.now) }
{
    text.extend_from_slice(begun(style))?;
    text.extend_from_slice(stretch)?;
    text.extend_from_slice(end(style))
}
