//! The name of a source text's file, as a report and a log have it. A text on standard input has none.

ghost use Rattle.std.specs.{Prelude.{◌≡◌, ◌<◌, ◌++◌, ◌∷◌, [], OnOk, IfOk, option_map}, List.{flat_map, list_any}};
ghost use Rattle.std.specs.String.{string_bytes};
ghost use Rattle.sect_lint.specs.Files.{is_control as is_control_by, shown_name, place_mark as place_mark_by};
ghost use Rattle.sect_lint.specs.Files.{place_line, is_in_path as is_in_path_by, uri_digit as uri_digit_by, in_path};
ghost use Rattle.sect_lint.specs.Files.{scheme_of, uri_of as uri_by};

use crate::excerpt::{put_ascii, put_bytes};
use sect_places::Position;
use std::alloc::{AllocError, Global};
use std::fmt::Write;

/// Whether a byte is a control sign of ASCII.
fn is_control(byte: u8) -> bool
    ensures { result ≡ is_control_by byte }
{
    byte < 32 || byte == 127
}

/// Whether there is a control sign of ASCII among bytes.
fn has_control(bytes: &[u8]) -> bool
    ensures { result ≡ list_any is_control_by bytes.now }
{
    bytes.iter().any(|byte| is_control(*byte))
}

/// Adds the name of a file as it is shown.
fn put_name(text: &mut String, name: &str) -> Result<(), AllocError>
    ensures { OnOk result (string_bytes text.new ≡ string_bytes text.old ++ shown_name name.now) }
{
    if has_control(name.as_bytes()) {
        put_bytes(text, name.as_bytes())
    } else {
        text.push_str(name)
    }
}

/// What stands before the line and the column of a place in a text of this file.
pub fn place_mark(alloc: Global, file: Option<&str>) -> Result<String, AllocError>
    ensures { IfOk result (λ text. string_bytes text ≡ place_mark_by (option_map (λ name. name.now) file.entry)) }
{
    let mut text = String::new(alloc);
    if let Some(name) = file {
        put_name(&mut text, name)?;
        text.push_str(":")?;
    }
    Ok(text)
}

/// Adds the line that says where a place stands, behind its mark.
pub fn put_place_line(text: &mut String, mark: &str, position: Position) -> Result<(), AllocError>
    ensures { OnOk result (string_bytes text.new ≡ string_bytes text.old ++ place_line mark.now position) }
{
    Ok(write!(text, " --> {mark}{}:{}\n", position.line, position.column)?)
}

/// Whether a byte stands for itself in the path of a URI.
fn is_in_path(byte: u8) -> bool
    ensures { result ≡ is_in_path_by byte }
{
    (byte > 44 && byte < 58)
        || (byte > 64 && byte < 91)
        || (byte > 96 && byte < 123)
        || byte == b'_'
        || byte == b'~'
}

/// The digit of a number below 16.
fn uri_digit(number: u8) -> u8
    requires { number < 16 }
    ensures digit { result ≡ uri_digit_by number }
    ensures ascii { result < 128 }
{
    if number < 10 {
        number + 48
    } else {
        number + 55
    }
}

/// Adds a byte as it stands in the path of a URI.
fn put_in_path(text: &mut String, byte: u8) -> Result<(), AllocError>
    ensures { OnOk result (string_bytes text.new ≡ string_bytes text.old ++ in_path byte) }
{
    if is_in_path(byte) {
        put_ascii(text, byte)
    } else {
        text.push_str("%")?;
        put_ascii(text, uri_digit(byte / 16))?;
        put_ascii(text, uri_digit(byte % 16))
    }
}

/// Adds bytes as they stand in the path of a URI.
fn put_path(text: &mut String, path: &[u8]) -> Result<(), AllocError>
    ensures { OnOk result (string_bytes text.new ≡ string_bytes text.old ++ flat_map in_path path.now) }
{
    for byte in path {
        put_in_path(text, *byte)?;
    }
    Ok(())
}

/// Adds what stands before a path in a URI.
fn put_scheme(text: &mut String, path: &[u8]) -> Result<(), AllocError>
    ensures { OnOk result (string_bytes text.new ≡ string_bytes text.old ++ scheme_of path.now) }
{
    match path {
        [first, ..] if *first == b'/' => text.push_str("file://"),
        _ => Ok(()),
    }
}

/// The URI of a text of this file.
pub fn uri_of(alloc: Global, file: Option<&str>) -> Result<String, AllocError>
    ensures { IfOk result (λ text. string_bytes text ≡ uri_by (option_map (λ name. name.now) file.entry)) }
{
    let mut text = String::new(alloc);
    match file {
        None => text.push_str("stdin")?,
        Some(name) => {
            put_scheme(&mut text, name.as_bytes())?;
            put_path(&mut text, name.as_bytes())?;
        }
    }
    Ok(text)
}
