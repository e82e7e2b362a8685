//! Which stretches of a line are painted, by the line's own form.

ghost use Rattle.std.specs.Prelude.{◌≡◌, ◌<◌, ◌≤◌, IfSome, Some, codes, length};
ghost use Rattle.sect_paint.specs.Looks.{found as found_by, plain as plain_by, framed as framed_by};
ghost use Rattle.sect_paint.specs.Looks.{headed as headed_by, marked as marked_by, titled as titled_by};
ghost use Rattle.sect_paint.specs.Looks.{barred as barred_by, carets as carets_by, report_line as report_line_by};
ghost use Rattle.sect_paint.specs.Looks.{report_looks as report_by, right_style as right_by, column as column_by};
ghost use Rattle.sect_paint.specs.Looks.{length_to as length_by, step_line as step_by, pair_looks as pair_by};
ghost use Rattle.sect_paint.specs.Looks.{explanation_looks as explanation_by, conflict_looks as conflict_by};
ghost use Rattle.sect_paint.specs.Looks.{chart_looks as chart_by, looks as looks_by, tone as tone_by};

use crate::find::{cut, found, margin};
use crate::style::Style;

/// What a text is.
#[derive(Clone, Copy)]
pub enum Kind {
    /// What `lint` reports.
    Report,
    /// Why sections take their locks.
    Explanation,
    /// Which sections exclude each other.
    Conflicts,
    /// A chart of turns.
    Chart,
}

/// How a line looks: a stretch that it begins with, some bytes that aren't painted, another stretch, and the rest.
#[derive(Clone, Copy)]
pub struct Look {
    pub margin: usize,
    pub frame: Style,
    pub gap: usize,
    pub mark: usize,
    pub style: Style,
}

/// A line that begins with a stretch of so many bytes, and has no other.
fn framed(margin: usize, frame: Style) -> Look
    ensures { result ≡ framed_by margin frame }
{
    Look {
        margin,
        frame,
        gap: 0,
        mark: 0,
        style: Style::Plain,
    }
}

/// A line of which nothing is painted.
fn plain() -> Look
    ensures { result ≡ plain_by }
{
    framed(0, Style::Plain)
}

/// A line that heads others.
fn headed(line: &[u8]) -> Look
    ensures { result ≡ headed_by line.now }
{
    framed(line.len(), Style::Heading)
}

/// A line of which so many bytes are painted from this one on, if there is one.
fn marked(gap: Option<usize>, mark: usize, style: Style, other: Look) -> Look
    ensures { result ≡ marked_by gap mark style other }
{
    match gap {
        None => other,
        Some(gap) => Look {
            margin: 0,
            frame: Style::Plain,
            gap,
            mark,
            style,
        },
    }
}

/// A mistake or a warning by its name.
fn titled(tone: Style, line: &[u8]) -> Look
    ensures { result ≡ titled_by tone line.now (found_by (codes "]") 0 line.now) }
{
    match found(line, b"]") {
        None => plain(),
        Some(end) => Look {
            margin: end + 1,
            frame: tone,
            gap: 0,
            mark: line.len(),
            style: Style::Heading,
        },
    }
}

/// Behind a bar a line of the text; or carets, which begin so many bytes behind it.
fn barred(tone: Style, line: &[u8], behind: usize, carets: Option<usize>) -> Look
    ensures { result ≡ barred_by tone line.now behind carets }
{
    match carets {
        None => framed(behind, Style::Frame),
        Some(gap) => Look {
            margin: behind,
            frame: Style::Frame,
            gap,
            mark: line.len(),
            style: tone,
        },
    }
}

/// Where carets begin behind a bar.
fn carets(line: &[u8], behind: usize) -> Option<usize>
    ensures { result ≡ carets_by line.now behind }
{
    if !line.starts_with(b" ") {
        return None;
    }
    let (_, others) = cut(line, behind);
    found(others, b"^")
}

/// A line of a report, by the first byte behind its margin.
fn report_line(tone: Style, line: &[u8], margin: usize, sign: u8) -> Look
    requires { margin ≤ length line.now }
    ensures { result ≡ report_line_by tone line.now margin (Some sign) }
{
    if sign == b'|' {
        barred(tone, line, margin + 1, carets(line, margin + 1))
    } else if sign == b'-' {
        framed(margin + 3, Style::Frame)
    } else if sign == b'=' {
        framed(margin + 1, Style::Frame)
    } else {
        titled(tone, line)
    }
}

/// A line of a report.
fn report_looks(tone: Style, line: &[u8]) -> Look
    ensures { result ≡ report_by tone line.now }
{
    let margin = margin(line);
    match line.get(margin).copied() {
        None => plain(),
        Some(sign) => report_line(tone, line, margin, sign),
    }
}

/// How a lock looks that begins with this sign.
fn right_style(sign: Option<u8>) -> Style
    ensures { result ≡ right_by sign }
{
    match sign {
        None => Style::Plain,
        Some(b'R') => Style::Read,
        Some(b'W') => Style::Write,
        Some(_) => Style::Make,
    }
}

/// Where the column of locks begins.
fn column(line: &[u8]) -> Option<usize>
    ensures place { result ≡ column_by line.now }
    ensures within { IfSome result (λ place. place < length line.now) }
{
    let reading = found(line, b"  R ");
    let writing = found(line, b"  W ");
    let making = found(line, b"  M ");
    reading.or(writing).or(making)
}

/// How many bytes of a line from this one on stand before its end.
fn length_to(end: Option<usize>, line: &[u8], start: usize) -> usize
    ensures { result ≡ length_by end line.now start }
{
    match end {
        None => line.len(),
        Some(end) => end.saturating_sub(start),
    }
}

/// A step of a chain.
fn step_line(line: &[u8]) -> Look
    ensures { result ≡ step_by line.now (column_by line.now) }
{
    match column(line) {
        None => plain(),
        Some(blanks) => {
            let start = blanks + 2;
            let mark = length_to(found(line, b" (line "), line, start);
            marked(
                Some(start),
                mark,
                right_style(line.get(start).copied()),
                plain(),
            )
        }
    }
}

/// A line that says why a section takes its locks.
fn explanation_looks(line: &[u8]) -> Look
    ensures { result ≡ explanation_by line.now }
{
    if line.starts_with(b"section ") {
        headed(line)
    } else if line.starts_with(b"lock ") {
        marked(
            Some(5),
            line.len(),
            right_style(line.get(5).copied()),
            plain(),
        )
    } else {
        step_line(line)
    }
}

/// Whether two sections exclude each other.
fn pair_looks(line: &[u8]) -> Look
    ensures { result ≡ pair_by line.now }
{
    let together = marked(found(line, b"go together"), 11, Style::Read, plain());
    let always = marked(
        found(line, b"exclude each other"),
        18,
        Style::Error,
        together,
    );
    let sometimes = found(line, b"exclude each other where ");
    marked(sometimes, 18, Style::Warning, always)
}

/// A line that tells of sections that exclude each other.
fn conflict_looks(line: &[u8]) -> Look
    ensures { result ≡ conflict_by line.now }
{
    if margin(line) == 0 {
        pair_looks(line)
    } else {
        headed(line)
    }
}

/// A line of a chart.
fn chart_looks(line: &[u8]) -> Look
    ensures { result ≡ chart_by line.now }
{
    if line.starts_with(b"turn ") {
        headed(line)
    } else {
        marked(
            found(line, b"waits for "),
            line.len(),
            Style::Warning,
            plain(),
        )
    }
}

/// How a line of such a text looks, whose reports are in this colour.
pub fn looks(of: Kind, tone: Style, line: &[u8]) -> Look
    ensures { result ≡ looks_by of tone line.now }
{
    match of {
        Kind::Report => report_looks(tone, line),
        Kind::Explanation => explanation_looks(line),
        Kind::Conflicts => conflict_looks(line),
        Kind::Chart => chart_looks(line),
    }
}

/// The colour of the reports of a text.
pub fn tone(text: &[u8]) -> Style
    ensures { result ≡ tone_by text.now }
{
    if text.starts_with(b"warning[") {
        Style::Warning
    } else {
        Style::Error
    }
}
