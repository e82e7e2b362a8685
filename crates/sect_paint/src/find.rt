//! Where words stand in a line, and a line in two parts.

ghost use Rattle.std.specs.{Prelude.{◌≡◌, ◌≤◌, ◌<◌, IfSome, length, take, drop}, List.{position}};
ghost use Rattle.sect_paint.specs.Looks.{found as found_by, is_sign as is_sign_by, margin as margin_by};

/// Where these words first stand in a line.
pub fn found(line: &[u8], words: &[u8]) -> Option<usize>
    ensures place { result ≡ found_by words.now 0 line.now }
    ensures within { IfSome result (λ place. place < length line.now) }
{
    for place in 0..line.len() {
        if line[place..].starts_with(words) {
            return Some(place);
        }
    }
    None
}

/// Whether a byte is neither a blank nor a digit.
fn is_sign(byte: u8) -> bool
    ensures { result ≡ is_sign_by byte }
{
    byte != b' ' && (byte < 48 || byte > 57)
}

/// Where the first byte stands that is neither.
fn first_sign(line: &[u8]) -> Option<usize>
    ensures place { result ≡ position is_sign_by line.now }
    ensures within { IfSome result (λ place. place < length line.now) }
{
    line.iter().position(|byte| is_sign(*byte))
}

/// How many blanks and digits a line begins with.
pub fn margin(line: &[u8]) -> usize
    ensures many { result ≡ margin_by line.now }
    ensures within { result ≤ length line.now }
{
    match first_sign(line) {
        Some(place) => place,
        None => line.len(),
    }
}

/// The first bytes of a line, so many or all, and those behind them.
pub fn cut(line: &[u8], count: usize) -> (&[u8], &[u8])
    ensures first { result.0.now ≡ take count line.now }
    ensures rest { result.1.now ≡ drop count line.now }
{
    line.split_at(count.min(line.len()))
}
