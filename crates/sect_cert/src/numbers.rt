//! Numbers, and the marks that may end their word.

ghost use Rattle.std.specs.Prelude.{◌≡◌, ◌<◌};
ghost use Rattle.sect_front.specs.Words.{is_digit as digit_of};
ghost use Rattle.sect_cert.specs.steps.Numbers.{number_of, decimal_from, ends_with as ends_with_of};
ghost use Rattle.sect_cert.specs.steps.Numbers.{without_end as without_end_of};

/// Whether this byte is a digit.
pub fn is_digit(byte: u8) -> bool
    ensures { result ≡ digit_of byte }
{
    byte.is_ascii_digit()
}

/// The number, at most 4294967295, that a word is in decimal without a leading zero.
pub fn number(word: &[u8]) -> Option<u32>
    ensures { result ≡ number_of word.now }
{
    let (first, others) = word.split_first()?;
    if *first == b'0' && others.len() > 0 {
        return None;
    }
    decimal(word)
}

/// The number, at most 4294967295, whose decimal digits these are, leading zeros or not.
fn decimal(digits: &[u8]) -> Option<u32>
    ensures { result ≡ decimal_from 0 digits.now }
{
    let mut rest = digits;
    let mut number = 0u32;
    while let Some((first, others)) = rest.split_first() {
        if !is_digit(*first) {
            return None;
        }
        let more = u64::from(number) * 10 + u64::from(*first - b'0');
        if more > 4294967295 {
            return None;
        }
        number = more as u32;
        rest = others;
    }
    Some(number)
}

/// Whether a mark ends a word.
pub fn ends_with(word: &[u8], mark: u8) -> bool
    ensures { result ≡ ends_with_of mark word.now }
{
    match word.last() {
        Some(last) => *last == mark,
        None => false,
    }
}

/// A word without the mark that may end it.
pub fn without_end(word: &[u8], mark: u8) -> &[u8]
    ensures { result.now ≡ without_end_of mark word.now }
{
    if ends_with(word, mark) {
        word.split_at(word.len() - 1).0
    } else {
        word
    }
}
