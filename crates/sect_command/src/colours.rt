//! Whether an answer is painted.

ghost use Rattle.std.specs.{Prelude.{◌≡◌, IfOk, codes}};
ghost use Rattle.clap.specs.Matches.{first_value, found_of};
ghost use Rattle.sect_command.specs.{Saying.{SaysColour}, Colouring.{kind_of as kind_by, is_painted as is_painted_by}};
ghost use Rattle.sect_command.specs.Colouring.{shown_as, shows_colours as shows_colours_by};

use crate::request::{Placed, PlacedRun, Request};
use crate::usage::UsageFault;
use clap::ArgMatches;
use sect_answers::{Format, Verbose};
use sect_lint::LintFormat;
use sect_paint::{Kind, painted};
use std::alloc::{AllocError, Global};

/// When an answer is painted.
#[derive(Clone, Copy)]
pub enum Colour {
    /// Where standard output shows colours.
    Auto,
    Always,
    Never,
}

/// What the streams of a run are shown on.
#[derive(Clone, Copy)]
pub struct Screen {
    /// Whether standard output shows colours.
    pub colours: bool,
    /// Whether standard error is a terminal, at which somebody reads.
    pub hints: bool,
}

/// Streams that nobody looks at.
pub const DARK: Screen = Screen {
    colours: false,
    hints: false,
};

/// Whether standard output shows colours: it is a terminal, the environment variable `NO_COLOR` isn't set or is empty,
/// and `TERM` isn't `dumb`.
pub fn shows_colours(is_terminal: bool, no_color: &[u8], term: &[u8]) -> bool
    ensures { result ≡ shows_colours_by is_terminal no_color.now term.now }
{
    is_terminal && no_color.is_empty() && term != b"dumb".as_slice()
}

/// When an answer is painted, as the option says.
pub fn colour_of(alloc: Global, options: &ArgMatches<'_>) -> Result<Colour, UsageFault>
    ensures { IfOk result (SaysColour (first_value (found_of options.now) (codes "color"))) }
{
    match options.get_str("color") {
        None | Some("auto") => Ok(Colour::Auto),
        Some("always") => Ok(Colour::Always),
        Some("never") => Ok(Colour::Never),
        Some(other) => Err(UsageFault::Colour(String::from_str(alloc, other)?)),
    }
}

/// Whether an answer is painted, on this screen.
pub fn is_painted(colour: Colour, screen: Screen) -> bool
    ensures { result ≡ is_painted_by colour screen }
{
    match colour {
        Colour::Auto => screen.colours,
        Colour::Always => true,
        Colour::Never => false,
    }
}

/// What the answer to a request is to the painter. Those that aren't read by people aren't painted.
fn kind_of(request: &Request) -> Option<Kind>
    ensures { result ≡ kind_by request.now }
{
    match request {
        Request::Lint {
            format: LintFormat::Text,
            ..
        } => Some(Kind::Report),
        Request::Explain {
            format: Format::Text,
            ..
        } => Some(Kind::Explanation),
        Request::Conflicts {
            format: Format::Text,
            ..
        } => Some(Kind::Conflicts),
        Request::Verbose {
            of: Verbose::Conflicts,
            ..
        } => Some(Kind::Conflicts),
        Request::Chart { .. }
        | Request::Placed(
            Placed {
                of: PlacedRun::Chart(_),
                ..
            },
        ) => Some(Kind::Chart),
        _ => None,
    }
}

/// An answer as it is painted, or as it is.
pub fn shown(
    alloc: Global,
    request: &Request,
    is_painted: bool,
    text: Vec<u8>,
) -> Result<Vec<u8>, AllocError>
    ensures { IfOk result (λ shown. shown.items ≡ shown_as is_painted (kind_by request.now) text.items) }
{
    match kind_of(request) {
        Some(kind) if is_painted => painted(alloc, kind, text.as_slice()),
        _ => Ok(text),
    }
}
