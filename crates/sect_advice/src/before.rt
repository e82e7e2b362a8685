//! What stands before a place of a text.

ghost use Rattle.std.specs.{Prelude.{◌≡◌, ◌≤◌, ◌==◌, length}, List.{list_any}};
ghost use Rattle.sect_front.specs.{Gaps.{is_blank as is_blank_by}, Words.{is_name_byte as is_name_byte_by}};
ghost use Rattle.sect_advice.specs.Advising.{end_before as end_by, start_before as start_by};
ghost use Rattle.sect_advice.specs.Advising.{bytes_between as between_by, word_before as word_by};
ghost use Rattle.sect_advice.specs.Advising.{byte_before as byte_by, begins_line as line_by};

fn is_blank(byte: u8) -> bool
    ensures { result ≡ is_blank_by byte }
{
    byte == b' ' || byte == b'\t' || byte == b'\r' || byte == b'\n'
}

/// Whether this byte may stand in a name.
fn is_name_byte(byte: u8) -> bool
    ensures { result ≡ is_name_byte_by byte }
{
    byte.is_ascii_alphanumeric() || byte == b'_'
}

/// Where the blanks before a place begin.
fn end_before(source: &[u8], at: usize) -> usize
    requires { at ≤ length source.now }
    ensures end { result ≡ end_by source.now at }
    ensures before { result ≤ at }
{
    let mut end = at;
    while 0 < end && is_blank(source[end - 1]) {
        end -= 1;
    }
    end
}

/// Where the word that ends at a place begins.
fn start_before(source: &[u8], at: usize) -> usize
    requires { at ≤ length source.now }
    ensures start { result ≡ start_by source.now at }
    ensures before { result ≤ at }
{
    let mut start = at;
    while 0 < start && is_name_byte(source[start - 1]) {
        start -= 1;
    }
    start
}

/// The bytes from one place to another.
pub fn bytes_between(source: &[u8], start: usize, end: usize) -> &[u8]
    requires order { start ≤ end }
    requires within { end ≤ length source.now }
    ensures { result.now ≡ between_by source.now start end }
{
    &source[start..end]
}

/// The word before a place, if one stands before the blanks there.
pub fn word_before(source: &[u8], at: usize) -> &[u8]
    requires { at ≤ length source.now }
    ensures { result.now ≡ word_by source.now at }
{
    let end = end_before(source, at);
    bytes_between(source, start_before(source, end), end)
}

/// The byte before a place and the blanks there, or 0 where there is none.
pub fn byte_before(source: &[u8], at: usize) -> u8
    requires { at ≤ length source.now }
    ensures { result ≡ byte_by source.now at }
{
    let end = end_before(source, at);
    match source.get(end.saturating_sub(1)) {
        Some(byte) => *byte,
        None => 0,
    }
}

/// Whether a line ends between a place and what stands before it.
pub fn begins_line(source: &[u8], at: usize) -> bool
    requires { at ≤ length source.now }
    ensures { result ≡ line_by source.now at }
{
    let blanks = bytes_between(source, end_before(source, at), at);
    blanks.iter().any(|byte| *byte == b'\n')
}
