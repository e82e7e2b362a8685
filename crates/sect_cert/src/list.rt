//! The words of a list of locks, read one after another.

ghost use Rattle.std.specs.Prelude.{◌≡◌};
ghost use Rattle.sect_cert.specs.steps.{Readers.{ReadsAs}, Numbers.{ends_with as ends_with_of}};
ghost use Rattle.sect_cert.specs.steps.Lists.{place_behind, StepsTo, step_of, list_of};

use crate::fault::LineFault;
use crate::known_paths::KnownPaths;
use crate::lock::CertLock;
use crate::numbers::{ends_with, number, without_end};
use crate::parts::Parts;
use crate::subject::{CertMode, class_lock, mode_of, subject};
use sect_front::{Items, is_same_word};

/// What the next word of a list is to be.
#[derive(Clone, Copy)]
pub enum ListWord {
    /// A mode.
    Mode,
    /// What is locked in this mode.
    Subject(CertMode),
    /// The number of the class that is locked in this mode.
    Class(CertMode),
    /// None: the list may end here.
    Whole,
}

/// What follows a word that ends a lock: another lock behind a comma alone.
fn place_after(word: &[u8]) -> ListWord
    ensures { result ≡ place_behind (ends_with_of 44 word.now) }
{
    if ends_with(word, b',') {
        ListWord::Mode
    } else {
        ListWord::Whole
    }
}

/// Takes one more word.
fn take_word(
    paths: &mut KnownPaths,
    locks: &mut Vec<CertLock>,
    place: ListWord,
    word: &[u8],
) -> Result<ListWord, LineFault>
    ensures { StepsTo result locks.new.items (step_of locks.old.items place word.now) }
{
    match place {
        ListWord::Mode => Ok(ListWord::Subject(mode_of(word).ok_or(LineFault::Bad)?)),
        ListWord::Subject(mode) => {
            if is_same_word(word, b"class") {
                return Ok(ListWord::Class(mode));
            }
            locks.push(subject(paths, mode, without_end(word, b','))?)?;
            Ok(place_after(word))
        }
        ListWord::Class(mode) => {
            let class = number(without_end(word, b',')).ok_or(LineFault::Bad)?;
            locks.push(class_lock(mode, class))?;
            Ok(place_after(word))
        }
        ListWord::Whole => Err(LineFault::Bad),
    }
}

/// The locks of the list that these words are.
pub fn locks_of(paths: &mut KnownPaths, mut words: Parts<'_>) -> Result<Items<CertLock>, LineFault>
    ensures { ReadsAs result (list_of words.entry) }
{
    let mut locks = Vec::new(paths.alloc());
    let first = words.next().ok_or(LineFault::Bad)?;
    if words.is_empty() {
        return if first == b"none".as_slice() {
            Ok(Items::from_vec(locks))
        } else {
            Err(LineFault::Bad)
        };
    }
    let mut place = take_word(paths, &mut locks, ListWord::Mode, first)?;
    while let Some(word) = words.next() {
        place = take_word(paths, &mut locks, place, word)?;
    }
    // A certificate has many lists, which stay as they are.
    locks.shrink_to_fit();
    match place {
        ListWord::Whole => Ok(Items::from_vec(locks)),
        _ => Err(LineFault::Bad),
    }
}
