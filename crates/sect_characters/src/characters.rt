//! Characters of a text in UTF-8, each of which is told by its first byte.

ghost use Rattle.std.specs.Prelude.{◌≡◌, ◌≤◌, ◌<◌, ◌^◌, length, take_while};
ghost use Rattle.sect_front.specs.FaultPlaces.{IsWithin};
ghost use Rattle.sect_characters.specs.Characters.{is_inner as is_inner_by, first_byte as first_byte_by};
ghost use Rattle.sect_characters.specs.Characters.{behind_last as behind_by, whole as whole_by, next_column as next_by};
ghost use Rattle.sect_characters.specs.Characters.{character_column as column_by};

use sect_front::Span;

/// Whether a byte is one of a character behind its first.
fn is_inner(byte: u8) -> bool
    ensures { result ≡ is_inner_by byte }
{
    128 <= byte && byte < 192
}

/// The first byte of the character to which the byte at a place belongs.
fn first_byte(source: &[u8], at: usize) -> usize
    requires { at ≤ length source.now }
    ensures first { result ≡ first_byte_by source.now at }
    ensures before { result ≤ at }
{
    let mut first = at;
    while 0 < first && first < source.len() && is_inner(source[first]) {
        first -= 1;
    }
    first
}

/// How many bytes at the front are behind the first of their character.
fn inner_count(bytes: &[u8]) -> usize
    ensures count { result ≡ length (take_while is_inner_by bytes.now) }
    ensures within { result ≤ length bytes.now }
{
    bytes.iter().take_while(|byte| is_inner(**byte)).count()
}

/// Behind the last byte of the character to which the byte before a place belongs.
fn behind_last(source: &[u8], at: usize) -> usize
    requires { at ≤ length source.now }
    ensures behind { result ≡ behind_by source.now at }
    ensures after { at ≤ result }
    ensures within { result ≤ length source.now }
{
    at + inner_count(&source[at..])
}

/// The characters of which some bytes of a text have a part.
pub fn whole(source: &[u8], span: Span) -> Span
    requires { IsWithin (length source.now) span }
    ensures whole { result ≡ whole_by source.now span }
    ensures within { IsWithin (length source.now) result }
{
    Span {
        start: first_byte(source, span.start),
        end: behind_last(source, span.end),
    }
}

/// The column behind a byte that stands in this one.
fn next_column(column: usize, byte: u8) -> usize
    requires { column < 2 ^ 63 }
    ensures { result ≡ next_by column byte }
{
    if byte == b'\n' {
        1
    } else if is_inner(byte) {
        column
    } else {
        column + 1
    }
}

/// The column of a place, counted from 1 in characters.
pub fn character_column(source: &[u8], at: usize) -> usize
    requires { at ≤ length source.now }
    ensures { result ≡ column_by source.now at }
{
    let mut column = 1;
    for byte in &source[..at] {
        column = next_column(column, *byte);
    }
    column
}
