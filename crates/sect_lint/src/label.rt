//! What is said of types and numbers, with the text's own words.

ghost use Rattle.std.specs.{Prelude.{◌≡◌, ◌++◌, OnOk, length}, String.{string_bytes}};
ghost use Rattle.sect_front.specs.FaultPlaces.{IsWithin};
ghost use Rattle.sect_lint.specs.Labels.{bytes_of as bytes_by, quote, quoted, is_vowel as vowel_by};
ghost use Rattle.sect_lint.specs.Labels.{article as article_by};
ghost use Rattle.sect_lint.specs.Labels.{reference_text, shape_text, typed_text, types_text, counts_text};
ghost use Rattle.sect_lint.specs.Labels.{IsShapeWithin, IsTypedWithin};

use crate::diagnostic::{Counts, Shape, Typed};
use crate::excerpt::{first_line, put_bytes};
use sect_front::Span;
use std::alloc::AllocError;
use std::fmt::Write;

/// The bytes of a text that a span has.
pub fn bytes_of(source: &[u8], span: Span) -> &[u8]
    requires { IsWithin (length source.now) span }
    ensures { result.now ≡ bytes_by source.now span }
{
    let (_, rest) = source.split_at(span.start);
    let (bytes, _) = rest.split_at(span.end - span.start);
    bytes
}

/// Adds bytes between backquotes: their first line, as far as it may be shown, and a sign where more stand behind it.
fn put_quote(text: &mut String, bytes: &[u8]) -> Result<(), AllocError>
    ensures { OnOk result (string_bytes text.new ≡ string_bytes text.old ++ quote bytes.now) }
{
    let line = first_line(bytes);
    text.push_str("`")?;
    put_bytes(text, line)?;
    if line.len() < bytes.len() {
        text.push_str("...")?;
    }
    text.push_str("`")
}

/// Adds bytes of a text between backquotes.
pub fn put_quoted(text: &mut String, source: &[u8], span: Span) -> Result<(), AllocError>
    requires { IsWithin (length source.now) span }
    ensures { OnOk result (string_bytes text.new ≡ string_bytes text.old ++ quoted source.now span) }
{
    put_quote(text, bytes_of(source, span))
}

fn is_vowel(byte: u8) -> bool
    ensures { result ≡ vowel_by byte }
{
    matches!(
        byte,
        b'A' | b'E' | b'I' | b'O' | b'U' | b'a' | b'e' | b'i' | b'o' | b'u'
    )
}

/// The article before a name.
fn article(name: &[u8]) -> &'static str
    ensures { result.now ≡ article_by name.now }
{
    match name {
        [first, ..] => { if is_vowel(*first) { "an " } else { "a " } }
        [] => "a ",
    }
}

/// Adds the record to whose objects something refers.
fn put_reference(text: &mut String, name: &[u8]) -> Result<(), AllocError>
    ensures { OnOk result (string_bytes text.new
        ≡ string_bytes text.old ++ reference_text name.now) }
{
    text.push_str(" refers to ")?;
    text.push_str(article(name))?;
    put_bytes(text, name)
}

/// Adds what something is.
fn put_shape(text: &mut String, source: &[u8], shape: Shape) -> Result<(), AllocError>
    requires { IsShapeWithin (length source.now) shape }
    ensures { OnOk result (string_bytes text.new ≡ string_bytes text.old ++ shape_text source.now shape) }
{
    match shape {
        Shape::Int => text.push_str(" is an int"),
        Shape::Null => text.push_str(" is a reference"),
        Shape::Reference(span) => put_reference(text, bytes_of(source, span)),
        Shape::Global => text.push_str(" is a global"),
    }
}

/// Adds a part of a text and what it is.
pub fn put_typed(text: &mut String, source: &[u8], typed: Typed) -> Result<(), AllocError>
    requires { IsTypedWithin (length source.now) typed }
    ensures { OnOk result (string_bytes text.new ≡ string_bytes text.old ++ typed_text source.now typed) }
{
    put_quoted(text, source, typed.span)?;
    put_shape(text, source, typed.shape)
}

/// Adds two parts of a text and what they are.
pub fn put_types(
    text: &mut String,
    source: &[u8],
    left: Typed,
    right: Typed,
) -> Result<(), AllocError>
    requires left { IsTypedWithin (length source.now) left }
    requires right { IsTypedWithin (length source.now) right }
    ensures { OnOk result (string_bytes text.new ≡ string_bytes text.old ++ types_text source.now left right) }
{
    put_typed(text, source, left)?;
    text.push_str(", ")?;
    put_typed(text, source, right)
}

/// Adds how many arguments a call gives, and how many the procedure takes.
pub fn put_counts(text: &mut String, source: &[u8], counts: Counts) -> Result<(), AllocError>
    requires { IsWithin (length source.now) counts.procedure }
    ensures { OnOk result (string_bytes text.new ≡ string_bytes text.old ++ counts_text source.now counts) }
{
    write!(text, "{} given, ", counts.arguments)?;
    put_quoted(text, source, counts.procedure)?;
    Ok(write!(text, " takes {}", counts.parameters)?)
}
