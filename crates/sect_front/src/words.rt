//! Names, keywords and the bytes that they are made of.

ghost use Rattle.std.specs.{Prelude.{◌≡◌, ◌<◌, ◌&&◌, length, take_while, Some, None, true, false}};
ghost use Rattle.std.specs.{List.{list_all}, Str.{bytes_eq}};
ghost use Rattle.sect_front.specs.Words.{is_letter as letter_of, is_digit as digit_of, is_name_byte as name_byte};
ghost use Rattle.sect_front.specs.{Words.{is_name as name_of, begins}, NameTokens.{is_name_token}};
ghost use Rattle.sect_front.specs.{Spelling.{IsSpelling}, declared.token.Token.{Token as AToken}};
ghost use Rattle.sect_front.specs.steps.Recognition.{keyword_of, keywords_of, token_beside};

use crate::limits::MOST_NAME_BYTES;
use crate::token::Token;

/// Whether a name may begin with this byte: a letter or `_`.
pub fn is_letter(byte: u8) -> bool
    ensures { result ≡ letter_of byte }
{
    byte.is_ascii_alphabetic() || byte == b'_'
}

/// Whether this byte is a digit.
pub fn is_digit(byte: u8) -> bool
    ensures { result ≡ digit_of byte }
{
    byte.is_ascii_digit()
}

/// Whether this byte may stand in a name: a letter, `_` or a digit.
pub fn is_name_byte(byte: u8) -> bool
    ensures { result ≡ name_byte byte }
{
    byte.is_ascii_alphanumeric() || byte == b'_'
}

/// How many bytes at the front may stand in a name.
pub fn word_length(bytes: &[u8]) -> usize
    ensures { result ≡ length (take_while name_byte bytes.now) }
{
    bytes.iter().take_while(|byte| is_name_byte(**byte)).count()
}

/// Whether two words have the same bytes. They are short, so this is quicker than a comparison of slices.
pub fn is_same_word(one: &[u8], other: &[u8]) -> bool
    ensures { result ≡ bytes_eq one.now other.now }
{
    let mut left = one;
    let mut right = other;
    while let Some((first, behind)) = left.split_first() {
        match right.split_first() {
            Some((second, beyond)) if *first == *second => {
                left = behind;
                right = beyond;
            }
            _ => return false,
        }
    }
    right.is_empty()
}

/// Puts the keyword of two bytes that these are, and tells whether they are one.
fn two_bytes(word: &[u8], token: &mut Token) -> bool
    ensures some { result ≡ true → token_beside word.now (keywords_of 2) ≡ Some token.new }
    ensures none { result ≡ false → token_beside word.now (keywords_of 2) ≡ None }
{
    if !is_same_word(word, b"if") {
        return false;
    }
    *token = Token::If;
    true
}

/// Puts the keyword of three bytes that these are, and tells whether they are one.
fn three_bytes(word: &[u8], token: &mut Token) -> bool
    ensures some { result ≡ true → token_beside word.now (keywords_of 3) ≡ Some token.new }
    ensures none { result ≡ false → token_beside word.now (keywords_of 3) ≡ None }
{
    if is_same_word(word, b"int") {
        *token = Token::Int;
    } else if is_same_word(word, b"new") {
        *token = Token::New;
    } else if is_same_word(word, b"all") {
        *token = Token::All;
    } else {
        return false;
    }
    true
}

/// Puts the keyword of four bytes that these are, and tells whether they are one.
fn four_bytes(word: &[u8], token: &mut Token) -> bool
    ensures some { result ≡ true → token_beside word.now (keywords_of 4) ≡ Some token.new }
    ensures none { result ≡ false → token_beside word.now (keywords_of 4) ≡ None }
{
    if is_same_word(word, b"proc") {
        *token = Token::Proc;
    } else if is_same_word(word, b"null") {
        *token = Token::Null;
    } else if is_same_word(word, b"else") {
        *token = Token::Else;
    } else if is_same_word(word, b"call") {
        *token = Token::Call;
    } else {
        return false;
    }
    true
}

/// Puts the keyword of five bytes that these are, and tells whether they are one.
fn five_bytes(word: &[u8], token: &mut Token) -> bool
    ensures some { result ≡ true → token_beside word.now (keywords_of 5) ≡ Some token.new }
    ensures none { result ≡ false → token_beside word.now (keywords_of 5) ≡ None }
{
    if is_same_word(word, b"print") {
        *token = Token::Print;
    } else if is_same_word(word, b"while") {
        *token = Token::While;
    } else if is_same_word(word, b"class") {
        *token = Token::Class;
    } else {
        return false;
    }
    true
}

/// Puts the keyword of six bytes that these are, and tells whether they are one.
fn six_bytes(word: &[u8], token: &mut Token) -> bool
    ensures some { result ≡ true → token_beside word.now (keywords_of 6) ≡ Some token.new }
    ensures none { result ≡ false → token_beside word.now (keywords_of 6) ≡ None }
{
    if is_same_word(word, b"record") {
        *token = Token::Record;
    } else if is_same_word(word, b"global") {
        *token = Token::Global;
    } else if is_same_word(word, b"thread") {
        *token = Token::Thread;
    } else if is_same_word(word, b"atomic") {
        *token = Token::Atomic;
    } else {
        return false;
    }
    true
}

/// Puts the keyword of more than six bytes that these are, and tells whether they are it: there is one.
#[tactic(auto, using(crate::proofs::NamesLemmas::long_keyword))]
fn many_bytes(word: &[u8], token: &mut Token) -> bool
    requires { 6 < length word.now }
    ensures some { result ≡ true → keyword_of word.now ≡ Some token.new }
    ensures none { result ≡ false → keyword_of word.now ≡ None }
{
    if !is_same_word(word, b"protected_by") {
        return false;
    }
    *token = Token::ProtectedBy;
    true
}

/// Puts the keyword that these bytes are, and tells whether they are one. A token is long, and isn't moved by this.
#[tactic(auto, using(crate::proofs::NamesLemmas::by_length))]
pub fn put_keyword(word: &[u8], token: &mut Token) -> bool
    ensures some { result ≡ true → keyword_of word.now ≡ Some token.new }
    ensures none { result ≡ false → keyword_of word.now ≡ None }
{
    match word.len() {
        0 | 1 => false,
        2 => two_bytes(word, token),
        3 => three_bytes(word, token),
        4 => four_bytes(word, token),
        5 => five_bytes(word, token),
        6 => six_bytes(word, token),
        _ => many_bytes(word, token),
    }
}

/// The keyword that these bytes are.
fn keyword(word: &[u8]) -> Option<Token>
    ensures { result ≡ keyword_of word.now }
{
    let mut token = Token::Class;
    if put_keyword(word, &mut token) {
        Some(token)
    } else {
        None
    }
}

/// Whether a letter or `_` stands first.
pub fn begins_letter(bytes: &[u8]) -> bool
    ensures { result ≡ begins letter_of bytes.now }
{
    match bytes {
        [] => false,
        [first, ..] => is_letter(*first),
    }
}

/// Whether a letter or `_` stands first, and then letters, `_` and digits alone.
#[tactic(auto, using(crate::proofs::NamesLemmas::whole_word))]
fn is_word(bytes: &[u8]) -> bool
    ensures { result ≡ (begins letter_of bytes.now && list_all name_byte bytes.now) }
{
    begins_letter(bytes) && word_length(bytes) == bytes.len()
}

/// Whether these bytes are one name: a letter or `_`, then letters, `_` and digits, at most 32 bytes, and no keyword.
#[tactic(auto, using(crate::proofs::NamesLemmas::short_name))]
pub fn is_name(bytes: &[u8]) -> bool
    ensures { result ≡ name_of bytes.now }
{
    if !is_word(bytes) {
        return false;
    }
    bytes.len() <= MOST_NAME_BYTES && keyword(bytes).is_none()
}

/// Whether the token that these bytes spell is a name.
#[tactic(auto, using(crate::proofs::Spellings::named_spelling))]
pub fn spells_name(bytes: &[u8]) -> bool
    ensures { (token : AToken) → IsSpelling token bytes.now → result ≡ is_name_token token }
{
    begins_letter(bytes) && keyword(bytes).is_none()
}
