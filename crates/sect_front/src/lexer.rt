//! One token at the front of a text.

ghost use Rattle.std.specs.Prelude.{◌≡◌, ◌<◌, ◌≤◌, ◌^◌, ℕ, Some, None, length, drop, take_while, true, false, IfSome};
ghost use Rattle.std.specs.List.{list_all};
ghost use Rattle.sect_front.specs.Words.{is_name_byte as name_byte, begins, is_letter as letter_of};
ghost use Rattle.sect_front.specs.Gaps.{is_blank as blank_of, begins_with as begins_so, after_gap as gap_of, skip};
ghost use Rattle.sect_front.specs.{Lexing.{IsFirst}, declared.token.Token.{Token as AToken}, Limits.{most_name_bytes}};
ghost use Rattle.sect_front.specs.steps.Recognition.{word_token as word_of, number_of, decimal_from, spelled};
ghost use Rattle.sect_front.specs.steps.Recognition.{single_sign, double_sign};
ghost use Rattle.sect_front.specs.steps.Lexeme.{sign_at, with_length, lexeme_of, begins_name};

use crate::limits::MOST_NAME_BYTES;
use crate::literal::Literal;
use crate::name::Name;
use crate::token::Token;
use crate::tree::Comparison;
use crate::words::{is_digit, is_letter, is_name_byte, put_keyword, word_length};
use memchr::memchr;

fn is_blank(byte: u8) -> bool
    ensures { result ≡ blank_of byte }
{
    matches!(byte, b' ' | b'\t' | b'\r' | b'\n')
}

pub fn begins_with(bytes: &[u8], byte: u8) -> bool
    ensures { result ≡ begins_so byte bytes.now }
{
    match bytes {
        [] => false,
        [first, ..] => *first == byte,
    }
}

/// What follows the line that these bytes begin, where that is the rest of a comment.
fn after_line(bytes: &[u8]) -> &[u8]
    ensures same { skip false result.now ≡ skip true bytes.now }
    ensures less { length result.now ≤ length bytes.now }
{
    match memchr(b'\n', bytes) {
        Some(at) => &bytes[at + 1..],
        None => &[],
    }
}

/// What follows a comment that has been opened, behind its line feed.
// most gaps have no comment, and are passed by fewer instructions so
#[inline(never)]
fn after_comment(bytes: &[u8]) -> &[u8]
    ensures same { skip false result.now ≡ skip true bytes.now }
    ensures less { length result.now ≤ length bytes.now }
{
    let mut rest = bytes;
    // a search for the end costs more than a look at so few bytes
    for _near in 0..8 {
        let Some((first, others)) = rest.split_first() else {
            return rest;
        };
        if *first == b'\n' {
            return others;
        }
        rest = others;
    }
    after_line(rest)
}

/// What follows the spaces at the front, but for the last few: eight are passed at once.
// most gaps are short, and are passed by fewer instructions so
#[inline(never)]
fn after_spaces(bytes: &[u8]) -> &[u8]
    ensures same { skip false result.now ≡ skip false bytes.now }
    ensures less { length result.now ≤ length bytes.now }
{
    let mut rest = bytes;
    while let [b' ', b' ', b' ', b' ', b' ', b' ', b' ', b' ', others @ ..] = rest {
        rest = others;
    }
    rest
}

/// What follows the blanks and comments at the front.
pub fn after_gap(bytes: &[u8]) -> &[u8]
    ensures { result.now ≡ gap_of bytes.now }
{
    let mut rest = bytes;
    while let Some((first, others)) = rest.split_first() {
        rest = if *first == b'\n' {
            // the lines of a long gap are mostly spaces
            after_spaces(others)
        } else if is_blank(*first) {
            others
        } else if *first == b'/' && begins_with(others, b'/') {
            after_comment(others)
        } else {
            return rest;
        };
    }
    rest
}

/// Whether no blank stands at the front and no `/`, with which a comment would begin.
#[inline(always)]
pub fn is_tight(bytes: &[u8]) -> bool
    ensures { result ≡ true → gap_of bytes.now ≡ bytes.now }
{
    match bytes {
        [] => true,
        [first, ..] => !is_blank(*first) && *first != b'/',
    }
}

/// The number that these digits are after `0`, or nothing where a byte is no digit or the value is too great.
fn decimal(digits: &[u8]) -> Option<u64>
    ensures value { result ≡ decimal_from 0 digits.now }
    ensures low { IfSome result (λ n. n < 2 ^ 63) }
{
    let mut rest = digits;
    let mut value = 0u64;
    while let Some((first, others)) = rest.split_first() {
        if !is_digit(*first) {
            return None;
        }
        let more = u128::from(value) * 10 + u128::from(*first - b'0');
        if more >= 9223372036854775808 {
            return None;
        }
        value = more as u64;
        rest = others;
    }
    Some(value)
}

/// The number that a word is, unless a zero leads it or it is too great.
fn number(word: &[u8]) -> Option<u64>
    ensures value { result ≡ number_of word.now }
    ensures low { IfSome result (λ n. n < 2 ^ 63) }
{
    let (first, others) = word.split_first()?;
    if *first == b'0' && others.len() > 0 {
        return None;
    }
    decimal(word)
}

/// Puts the keyword or the name that a word is.
fn word_token(word: &[u8], token: &mut Token)
    requires fits { length word.now ≤ most_name_bytes }
    requires all { list_all name_byte word.now ≡ true }
    requires letter { begins letter_of word.now ≡ true }
    ensures { token.new ≡ word_of word.now }
{
    if !put_keyword(word, token) {
        *token = Token::Name(Name::new(word));
    }
}

/// Puts the token that a word is, and tells whether it is one.
fn word_spelled(word: &[u8], token: &mut Token) -> bool
    requires all { list_all name_byte word.now ≡ true }
    requires some { 0 < length word.now }
    ensures some { result ≡ true → spelled word.now ≡ Some token.new }
    ensures none { result ≡ false → spelled word.now ≡ None }
{
    if is_letter(word[0]) {
        if word.len() > MOST_NAME_BYTES {
            return false;
        }
        word_token(word, token);
        return true;
    }
    match number(word) {
        Some(value) => {
            *token = Token::Number(Literal::new(value));
            true
        }
        None => false,
    }
}

/// Puts the sign that this byte is alone, and tells whether it is one.
fn single(byte: u8, token: &mut Token) -> bool
    ensures some { result ≡ true → single_sign byte ≡ Some token.new }
    ensures none { result ≡ false → single_sign byte ≡ None }
{
    match byte {
        b'{' => *token = Token::OpenBrace,
        b'}' => *token = Token::CloseBrace,
        b'(' => *token = Token::OpenParen,
        b')' => *token = Token::CloseParen,
        b';' => *token = Token::Semicolon,
        b',' => *token = Token::Comma,
        b'.' => *token = Token::Dot,
        b'=' => *token = Token::Equal,
        b'+' => *token = Token::Plus,
        b'-' => *token = Token::Minus,
        b'*' => *token = Token::Star,
        b'<' => *token = Token::Comparison(Comparison::Less),
        _ => return false,
    }
    true
}

/// Puts the sign that this byte and `=` are, and tells whether they are one.
fn double(byte: u8, token: &mut Token) -> bool
    ensures some { result ≡ true → double_sign byte ≡ Some token.new }
    ensures none { result ≡ false → double_sign byte ≡ None }
{
    match byte {
        b'=' => *token = Token::Comparison(Comparison::Equal),
        b'!' => *token = Token::Comparison(Comparison::NotEqual),
        b'<' => *token = Token::Comparison(Comparison::LessOrEqual),
        _ => return false,
    }
    true
}

/// Puts the sign at the front, and tells how many bytes it has: the longest first. Where none stands there, 0.
fn sign(first: u8, others: &[u8], token: &mut Token) -> usize
    ensures some { 0 < result → sign_at first others.now ≡ Some (token.new, result) }
    ensures none { result ≡ 0 → sign_at first others.now ≡ None }
{
    if begins_with(others, b'=') && double(first, token) {
        return 2;
    }
    if single(first, token) { 1 } else { 0 }
}

/// Puts the word at the front, and tells how many bytes it has. Where it is no token, 0.
#[tactic(auto, using(crate::proofs::Lexemes::names_pass))]
fn word(bytes: &[u8], token: &mut Token) -> usize
    requires { begins_name bytes.now ≡ true }
    ensures some { 0 < result → with_length (length (take_while name_byte bytes.now))
        (spelled (take_while name_byte bytes.now)) ≡ Some (token.new, result) }
    ensures none { result ≡ 0 → with_length (length (take_while name_byte bytes.now))
        (spelled (take_while name_byte bytes.now)) ≡ None }
{
    let length = word_length(bytes);
    if word_spelled(&bytes[..length], token) {
        length
    } else {
        0
    }
}

/// Puts the token at the front, and tells how many bytes it has. Where none stands there, 0. A token is long, and isn't
/// moved by this.
pub fn put_lexeme(bytes: &[u8], token: &mut Token) -> usize
    ensures some { 0 < result → lexeme_of bytes.now ≡ Some (token.new, result) }
    ensures none { result ≡ 0 → lexeme_of bytes.now ≡ None }
{
    let Some((first, others)) = bytes.split_first() else {
        return 0;
    };
    if is_name_byte(*first) {
        word(bytes, token)
    } else {
        sign(*first, others, token)
    }
}

/// The token at the front, and how many bytes it has.
pub fn lexeme(bytes: &[u8]) -> Option<(Token, usize)>
    ensures { result ≡ lexeme_of bytes.now }
{
    let mut token = Token::Class;
    let length = put_lexeme(bytes, &mut token);
    if length == 0 {
        return None;
    }
    Some((token, length))
}

/// The token that stands at the front of these bytes, and how many of them spell it.
pub fn first_token(bytes: &[u8]) -> Option<(Token, usize)>
    // Each that stands there is given.
    ensures each { (token : AToken) (count : ℕ) → IsFirst token count bytes.now → result ≡ Some (token, count) }
    // And one that is given stands there.
    ensures first { IfSome result (λ r. IsFirst r.0 r.1 bytes.now) }
{
    lexeme(bytes)
}

/// How many bytes spell the token that stands at the front of these, if one does: which token that is isn't told.
pub fn first_length(bytes: &[u8]) -> usize
    ensures { (token : AToken) (count : ℕ) → IsFirst token count bytes.now → result ≡ count }
{
    let Some((first, others)) = bytes.split_first() else {
        return 0;
    };
    if is_name_byte(*first) {
        return word_length(bytes);
    }
    let mut token = Token::Class;
    sign(*first, others, &mut token)
}

/// What follows so many bytes and the gap behind them.
pub fn behind(here: &[u8], count: usize) -> &[u8]
    requires { count ≤ length here.now }
    ensures { result.now ≡ gap_of (drop count here.now) }
{
    let (_, after) = here.split_at(count);
    // mostly no gap stands there
    if is_tight(after) {
        after
    } else {
        after_gap(after)
    }
}
