//! What is said of a word that other languages have.

ghost use Rattle.std.specs.{Prelude.{◌≡◌}, Str.{bytes_eq}};
ghost use Rattle.sect_advice.specs.Advising.{of_statement as statement_by, of_value as value_by, of_type as type_by};
ghost use Rattle.sect_advice.specs.Advising.{unless as unless_by, on_name as name_by};

use crate::advice::Advice;

/// Whether these bytes spell a word.
pub fn is_text(bytes: &[u8], word: &[u8]) -> bool
    ensures { result ≡ bytes_eq bytes.now word.now }
{
    bytes == word
}

/// What is said of a word with which a statement begins in other languages.
pub fn of_statement(word: &[u8]) -> Option<Advice>
    ensures { result ≡ statement_by word.now }
{
    if is_text(word, b"return") {
        Some(Advice::Return)
    } else if is_text(word, b"break") || is_text(word, b"continue") {
        Some(Advice::Jump)
    } else if is_text(word, b"for") || is_text(word, b"do") {
        Some(Advice::Loop)
    } else if is_text(word, b"synchronized") || is_text(word, b"lock") {
        Some(Advice::Section)
    } else {
        None
    }
}

/// What is said of a word that is a value in other languages.
fn of_value(word: &[u8]) -> Option<Advice>
    ensures { result ≡ value_by word.now }
{
    if is_text(word, b"true") || is_text(word, b"false") {
        Some(Advice::Truth)
    } else if is_text(word, b"NULL") || is_text(word, b"nullptr") || is_text(word, b"nil") {
        Some(Advice::Null)
    } else {
        None
    }
}

/// What is said of a word that stands before a name in declarations of other languages.
fn of_type(word: &[u8]) -> Option<Advice>
    ensures { result ≡ type_by word.now }
{
    if is_text(word, b"let") || is_text(word, b"var") || is_text(word, b"auto") {
        Some(Advice::Declaration)
    } else if is_text(word, b"bool") || is_text(word, b"boolean") || is_text(word, b"void") {
        Some(Advice::Types)
    } else if is_text(word, b"Int") || is_text(word, b"long") || is_text(word, b"unsigned") {
        Some(Advice::Types)
    } else if is_text(word, b"char") || is_text(word, b"string") || is_text(word, b"String") {
        Some(Advice::Texts)
    } else {
        None
    }
}

/// What is said first, or else otherwise.
pub fn unless(first: Option<Advice>, other: Option<Advice>) -> Option<Advice>
    ensures { result ≡ unless_by first other }
{
    match first {
        Some(advice) => Some(advice),
        None => other,
    }
}

/// What is said of a name that nothing has.
pub fn on_name(word: &[u8]) -> Option<Advice>
    ensures { result ≡ name_by word.now }
{
    unless(of_statement(word), unless(of_value(word), of_type(word)))
}
