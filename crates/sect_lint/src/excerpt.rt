//! A place of a source text, as it is shown: its line, and carets under its bytes.

ghost use Rattle.std.specs.Prelude.{◌≡◌, ◌≤◌, ◌<◌, ◌+◌, ◌-◌, ◌++◌, ◌∷◌, [], OnOk, length, take, drop, take_while};
ghost use Rattle.std.specs.{Prelude.{replicate}, List.{flat_map}, Fmt.{decimal}, String.{string_bytes}};
ghost use Rattle.sect_front.specs.{Front.{line_of}, FaultPlaces.{IsWithin}};
ghost use Rattle.sect_places.specs.Positions.{column_of as column_by};
ghost use Rattle.sect_lint.specs.Excerpts.{is_plain as plain_by, hexadecimal as hexadecimal_by, shown, under, in_line};
ghost use Rattle.sect_lint.specs.Excerpts.{line_text, most_shown, left_out as left_out_by, shown_line, carets};
ghost use Rattle.sect_lint.specs.Excerpts.{marked_line, numbered_line, excerpt_of, excerpt, quotable};
ghost use Rattle.sect_lint.specs.Excerpts.{without_return as without_return_by};

use sect_front::Span;
use std::alloc::AllocError;
use std::fmt::Write;

/// The most bytes of a line that are shown.
const MOST_SHOWN: usize = 120;

/// Whether a byte is shown as it is: printable ASCII.
fn is_plain(byte: u8) -> bool
    ensures { result ≡ plain_by byte }
{
    byte > 31 && byte < 127
}

/// The digit of a number below 16.
fn hexadecimal(number: u8) -> u8
    requires { number < 16 }
    ensures digit { result ≡ hexadecimal_by number }
    ensures ascii { result < 128 }
{
    if number < 10 {
        number + 48
    } else {
        number + 87
    }
}

/// Adds a byte of ASCII.
pub fn put_ascii(text: &mut String, byte: u8) -> Result<(), AllocError>
    requires { byte < 128 }
    ensures { OnOk result (string_bytes text.new ≡ string_bytes text.old ++ byte ∷ []) }
{
    text.push(char::from(byte))
}

/// Adds a byte as it is shown.
fn put_byte(text: &mut String, byte: u8) -> Result<(), AllocError>
    ensures { OnOk result (string_bytes text.new ≡ string_bytes text.old ++ shown byte) }
{
    if is_plain(byte) {
        put_ascii(text, byte)
    } else if byte == b'\t' {
        text.push_str("    ")
    } else {
        text.push_str("\\x")?;
        put_ascii(text, hexadecimal(byte / 16))?;
        put_ascii(text, hexadecimal(byte % 16))
    }
}

/// Adds bytes as they are shown.
pub fn put_bytes(text: &mut String, bytes: &[u8]) -> Result<(), AllocError>
    ensures { OnOk result (string_bytes text.new ≡ string_bytes text.old ++ flat_map shown bytes.now) }
{
    for byte in bytes {
        put_byte(text, *byte)?;
    }
    Ok(())
}

/// Adds what stands under a byte: this mark under each sign that shows it.
fn put_mark(text: &mut String, mark: &str, byte: u8) -> Result<(), AllocError>
    ensures { OnOk result (string_bytes text.new ≡ string_bytes text.old ++ under mark.now byte) }
{
    if is_plain(byte) {
        text.push_str(mark)
    } else {
        text.push_str(mark)?;
        text.push_str(mark)?;
        text.push_str(mark)?;
        text.push_str(mark)
    }
}

/// Adds what stands under bytes.
fn put_marks(text: &mut String, mark: &str, bytes: &[u8]) -> Result<(), AllocError>
    ensures { OnOk result (string_bytes text.new ≡ string_bytes text.old ++ flat_map (under mark.now) bytes.now) }
{
    for byte in bytes {
        put_mark(text, mark, *byte)?;
    }
    Ok(())
}

/// Adds carets under bytes, one at least.
fn put_carets(text: &mut String, bytes: &[u8]) -> Result<(), AllocError>
    ensures { OnOk result (string_bytes text.new ≡ string_bytes text.old ++ carets bytes.now) }
{
    if bytes.is_empty() {
        text.push_str("^")
    } else {
        put_marks(text, "^", bytes)
    }
}

/// How many bytes stand before the first line feed.
fn line_length(bytes: &[u8]) -> usize
    ensures is { result ≡ length (take_while in_line bytes.now) }
    ensures within { result ≤ length bytes.now }
{
    bytes.iter().take_while(|byte| **byte != b'\n').count()
}

/// The first line of some bytes, as far as it may be shown.
pub fn first_line(bytes: &[u8]) -> &[u8]
    ensures { result.now ≡ quotable bytes.now }
{
    let first = first_of(bytes, MOST_SHOWN);
    first_of(first, line_length(first))
}

/// The line in which a place stands that has this column, without its line feed and only as far as it may be shown:
/// behind the place no more bytes are looked at.
fn line_at(source: &[u8], at: usize, column: usize) -> &[u8]
    requires within { at ≤ length source.now }
    requires column { column ≡ column_by source.now at }
    requires least { 1 ≤ column }
    requires most { column ≤ at + 1 }
    ensures { result.now ≡ take (column + most_shown) (line_text source.now at) }
{
    let (_, line) = source.split_at(at + 1 - column);
    let (_, behind) = source.split_at(at);
    first_of(
        line,
        column - 1 + line_length(first_of(behind, MOST_SHOWN + 1)),
    )
}

/// How many bytes are left out at the front of a line of so many, so that its byte of this number is shown.
fn left_out(total: usize, place: usize) -> usize
    ensures is { result ≡ left_out_by total place }
    ensures shown { result ≤ place }
    ensures within { result ≤ total }
{
    place
        .saturating_sub(60)
        .min(total.saturating_sub(MOST_SHOWN))
}

/// What is shown of a line from this byte on.
fn part_from(line: &[u8], from: usize) -> &[u8]
    requires { from ≤ length line.now }
    ensures { result.now ≡ take most_shown (drop from line.now) }
{
    let (_, rest) = line.split_at(from);
    first_of(rest, MOST_SHOWN)
}

/// The bytes without the carriage return at their end, if one stands there.
fn without_return(bytes: &[u8]) -> &[u8]
    ensures { result.now ≡ without_return_by bytes.now }
{
    match bytes {
        [before @ .., b'\r'] => before,
        _ => bytes,
    }
}

/// Adds what is shown of a line.
fn put_line(text: &mut String, line: &[u8], from: usize) -> Result<(), AllocError>
    requires { from ≤ length line.now }
    ensures { OnOk result (string_bytes text.new ≡ string_bytes text.old ++ shown_line line.now from) }
{
    if from > 0 {
        text.push_str("...")?;
    }
    let part = part_from(line, from);
    if line.len() - from > MOST_SHOWN {
        put_bytes(text, part)?;
        text.push_str("...")
    } else {
        put_bytes(text, without_return(part))
    }
}

/// The first bytes, so many or all.
#[tactic(auto, using(std::proofs::lemmas::List::take_min))]
fn first_of(bytes: &[u8], count: usize) -> &[u8]
    ensures { result.now ≡ take count bytes.now }
{
    let (first, _) = bytes.split_at(count.min(bytes.len()));
    first
}

/// What follows the first bytes, so many or all.
#[tactic(auto, using(std::proofs::lemmas::List::drop_min))]
fn behind(bytes: &[u8], count: usize) -> &[u8]
    ensures { result.now ≡ drop count bytes.now }
{
    let (_, others) = bytes.split_at(count.min(bytes.len()));
    others
}

/// Adds what stands under a line that is shown from the byte `from` on, where so many bytes from `place` on are marked.
fn put_marked(
    text: &mut String,
    line: &[u8],
    from: usize,
    place: usize,
    count: usize,
) -> Result<(), AllocError>
    requires shown { from ≤ place }
    requires within { from ≤ length line.now }
    ensures { OnOk result (string_bytes text.new
        ≡ string_bytes text.old ++ marked_line line.now from place count) }
{
    if from > 0 {
        text.push_str("   ")?;
    }
    put_marks(text, " ", first_of(behind(line, from), place - from))?;
    let marked = behind(part_from(line, from), place - from);
    put_carets(text, first_of(marked, count))
}

/// Adds blanks.
fn put_blanks(text: &mut String, count: usize) -> Result<(), AllocError>
    ensures { OnOk result (string_bytes text.new ≡ string_bytes text.old ++ replicate count 32) }
{
    for _blank in 0..count {
        text.push_str(" ")?;
    }
    Ok(())
}

/// Adds the blanks under a line's number.
pub fn put_margin(text: &mut String, number: &str) -> Result<(), AllocError>
    ensures { OnOk result (string_bytes text.new ≡ string_bytes text.old ++ replicate (length number.now + 1) 32) }
{
    put_blanks(text, number.len() + 1)
}

/// Adds an empty line beside the margin, and a line of this number from this byte on.
fn put_numbered_line(
    text: &mut String,
    number: &str,
    line: &[u8],
    from: usize,
) -> Result<(), AllocError>
    requires { from ≤ length line.now }
    ensures { OnOk result (string_bytes text.new ≡ string_bytes text.old ++ numbered_line number.now line.now from) }
{
    put_margin(text, number)?;
    write!(text, "|\n{number} | ")?;
    put_line(text, line, from)?;
    text.push_str("\n")
}

/// Adds a line of this number, and what stands under so many of its bytes from this column on.
#[tactic(auto, unfolding(crate::specs::Excerpts::excerpt_of))]
fn put_marked_line(
    text: &mut String,
    number: &str,
    column: usize,
    line: &[u8],
    count: usize,
) -> Result<(), AllocError>
    requires { 1 ≤ column }
    ensures { OnOk result (string_bytes text.new
        ≡ string_bytes text.old ++ excerpt_of number.now column line.now count) }
{
    let from = left_out(line.len(), column - 1);
    put_numbered_line(text, number, line, from)?;
    put_margin(text, number)?;
    text.push_str("| ")?;
    put_marked(text, line, from, column - 1, count)
}

/// Adds the line of a span and what stands under it. `number` is the number of the line, and `column` the
/// column of the first byte.
pub fn put_excerpt(
    text: &mut String,
    source: &[u8],
    span: Span,
    number: &str,
    column: usize,
) -> Result<(), AllocError>
    requires within { IsWithin (length source.now) span }
    requires number { number.now ≡ decimal (line_of source.now span.start) }
    requires column { column ≡ column_by source.now span.start }
    ensures { OnOk result (string_bytes text.new ≡ string_bytes text.old ++ excerpt source.now span) }
{
    let line = line_at(source, span.start, column);
    put_marked_line(text, number, column, line, span.end - span.start)
}
