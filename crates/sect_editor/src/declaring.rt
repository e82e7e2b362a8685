//! What the words of a text declare, whether or not it is one of the language.

ghost use Rattle.std.specs.{Prelude.{◌≡◌, ◌++◌, IfOk, OnOk}, Option.{option_copied}};
ghost use Rattle.sect_editor.specs.Completing.{is_head as is_head_by, head_after as head_by, typed, named_by};
ghost use Rattle.sect_editor.specs.Completing.{declared_by, declared_in as declared_in_by, scope_of as scope_by};
ghost use Rattle.sect_editor.specs.Completing.{base_by, base_of as base_of_by};

use crate::words::Word;
use sect_front::Name;
use sect_places::Thing;
use std::alloc::{AllocError, Global};

/// In what a word stands.
#[derive(Clone, Copy)]
pub enum Head {
    /// Before the first declaration.
    Nothing,
    /// In a record.
    Record,
    /// In a global.
    Global,
    /// In a procedure or a thread.
    Body,
}

/// What is declared: the number of the record, global, procedure or thread in which it stands, counted from 1, and the
/// record of its type, unless it is an `int` or has no type.
#[derive(Clone, Copy)]
pub struct Declared {
    pub what: Thing,
    pub scope: usize,
    pub of: Option<Name>,
    pub name: Name,
}

/// Whether a word begins a declaration.
fn is_head(word: &Word) -> bool
    ensures { result ≡ is_head_by word.now }
{
    matches!(
        word,
        Word::Record | Word::Global | Word::Procedure | Word::Thread
    )
}

/// In what that stands which follows a word.
fn head_after(word: &Word, head: Head) -> Head
    ensures { result ≡ head_by word.now head }
{
    match word {
        Word::Record => Head::Record,
        Word::Global => Head::Global,
        Word::Procedure | Word::Thread => Head::Body,
        Word::Name(_) | Word::Int | Word::Dot | Word::Other => head,
    }
}

/// Adds what a type and a name declare.
fn put_typed(
    found: &mut Vec<Declared>,
    head: Head,
    scope: usize,
    of: Option<Name>,
    name: Name,
) -> Result<(), AllocError>
    ensures { OnOk result (found.new.items ≡ found.old.items ++ typed head scope of name) }
{
    let what = match head {
        Head::Nothing => return Ok(()),
        Head::Record => Thing::Field,
        Head::Global => Thing::Global,
        Head::Body => Thing::Local,
    };
    found.push(Declared {
        what,
        scope,
        of,
        name,
    })?;
    Ok(())
}

/// Adds what a word and a name behind it declare.
fn put_named(
    found: &mut Vec<Declared>,
    head: Head,
    scope: usize,
    word: &Word,
    name: Name,
) -> Result<(), AllocError>
    ensures { OnOk result (found.new.items ≡ found.old.items ++ named_by head scope word.now name) }
{
    let what = match word {
        Word::Name(of) => return put_typed(found, head, scope, Some(*of), name),
        Word::Int => return put_typed(found, head, scope, None, name),
        Word::Record => Thing::Record,
        Word::Procedure => Thing::Procedure,
        Word::Global | Word::Thread | Word::Dot | Word::Other => return Ok(()),
    };
    found.push(Declared {
        what,
        scope,
        of: None,
        name,
    })?;
    Ok(())
}

/// Adds what a word and the next one declare.
fn put_declared(
    found: &mut Vec<Declared>,
    head: Head,
    scope: usize,
    word: &Word,
    next: Option<&Word>,
) -> Result<(), AllocError>
    ensures { OnOk result (found.new.items
        ≡ found.old.items ++ declared_by head scope word.now (option_copied next.entry)) }
{
    match next {
        Some(Word::Name(name)) => put_named(found, head, scope, word, *name),
        _ => Ok(()),
    }
}

/// What the words of a text declare.
pub fn declared_in(alloc: Global, words: &[Word]) -> Result<Vec<Declared>, AllocError>
    ensures { IfOk result (λ found. found.items ≡ declared_in_by words.now) }
{
    let mut found = Vec::new(alloc);
    let mut head = Head::Nothing;
    let mut scope = 0;
    for number in 0..words.len() {
        let word = &words[number];
        head = head_after(word, head);
        if is_head(word) {
            scope += 1;
        }
        put_declared(&mut found, head, scope, word, words.get(number + 1))?;
    }
    Ok(found)
}

/// In which declaration what follows some words stands.
pub fn scope_of(words: &[Word]) -> usize
    ensures { result ≡ scope_by words.now }
{
    words.iter().filter(|word| is_head(*word)).count()
}

/// The name before the dot, if the last words are a name and a dot, and perhaps a name.
fn base_among(before: Option<&Word>, middle: Option<&Word>, last: Option<&Word>) -> Option<Name>
    ensures { result ≡ base_by (option_copied before.entry) (option_copied middle.entry) (option_copied last.entry) }
{
    match (before, middle, last) {
        (_, Some(Word::Name(name)), Some(Word::Dot)) => Some(*name),
        (Some(Word::Name(name)), Some(Word::Dot), Some(Word::Name(_))) => Some(*name),
        _ => None,
    }
}

/// The name before the dot at the end of some words, or before the dot and the last word.
pub fn base_of(words: &[Word]) -> Option<Name>
    ensures { result ≡ base_of_by words.now }
{
    let count = words.len();
    base_among(
        words.get(count.saturating_sub(3)),
        words.get(count.saturating_sub(2)),
        words.get(count.saturating_sub(1)),
    )
}
