//! A certificate and the source text behind it, in one input.

ghost use Rattle.std.specs.Prelude.{◌≤◌, length, take, drop};
ghost use Rattle.sect_answers.specs.Splitting.{IsSplit};

use memchr::memchr;

/// The certificate, through its first line that is exactly `end`, and the source text, which is all that follows.
/// Where no line is `end`, all is the certificate.
pub fn split(input: &[u8]) -> (&[u8], &[u8])
    ensures { IsSplit input.now result.0.now result.1.now }
{
    input.split_at(source_start(input))
}

/// Where the source text begins.
fn source_start(input: &[u8]) -> usize
    ensures within { result ≤ length input.now }
    ensures split { IsSplit input.now (take result input.now) (drop result input.now) }
{
    let mut start = 0;
    while let Some(len) = memchr(b'\n', &input[start..]) {
        let at = start + len;
        if &input[start..at] == b"end".as_slice() {
            return at + 1;
        }
        start = at + 1;
    }
    input.len()
}
