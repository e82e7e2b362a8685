//! What is said of a byte with which no token begins.

ghost use Rattle.std.specs.Prelude.{◌≡◌, ◌≤◌, get_or, length};
ghost use Rattle.sect_advice.specs.Advising.{by_byte as by_byte_by, on_byte as on_byte_by};

use crate::advice::Advice;
use crate::before::byte_before;

/// What is said of a byte that stands between these.
fn by_byte(before: u8, byte: u8, next: u8) -> Option<Advice>
    ensures { result ≡ by_byte_by before byte next }
{
    match byte {
        b'>' => {
            if before == b'-' {
                Some(Advice::Arrow)
            } else {
                Some(Advice::Greater)
            }
        }
        b'!' => Some(Advice::Not),
        b'&' | b'|' => Some(Advice::Connective),
        b'"' | b'\'' => Some(Advice::Texts),
        b'[' | b']' => Some(Advice::Array),
        b'/' => {
            if next == b'*' {
                Some(Advice::Comment)
            } else {
                Some(Advice::Division)
            }
        }
        b'%' => Some(Advice::Division),
        b'#' => Some(Advice::Comment),
        b':' => Some(Advice::Declaration),
        _ => None,
    }
}

/// The byte at a place, or 0 where there is none.
fn byte_at(source: &[u8], at: usize) -> u8
    ensures { result ≡ get_or source.now at 0 }
{
    match source.get(at) {
        Some(byte) => *byte,
        None => 0,
    }
}

/// What is said of the byte at a place, with which no token begins.
pub fn on_byte(source: &[u8], at: usize) -> Option<Advice>
    requires { at ≤ length source.now }
    ensures { result ≡ on_byte_by source.now at }
{
    by_byte(
        byte_before(source, at),
        byte_at(source, at),
        byte_at(source, at + 1),
    )
}
