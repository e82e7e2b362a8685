//! Source texts that are named, as files are.

ghost use Rattle.std.specs.Prelude.{◌≡◌, ◌≤◌, ◌<◌, ◌+◌, ℕ, List, Option, None, IfOk, IfSome, length, take};
ghost use Rattle.sect_front.specs.Limits.{most_bytes};

use crate::colours::Screen;
use std::alloc::Global;
use std::io::{ErrorKind, Read};
use std::rt::Files;
use std::{fs, io};

/// Where the texts are that a command line names.
pub trait Texts {
    // The bytes of the text of a name, where they are known.
    ghost bytes_of: { Self → List ℕ → Option (List ℕ) };

    /// The first bytes of the text of a name, so many at most. It fails where there is none, or where it can't be read.
    fn text_of(&self, alloc: Global, name: &str, most: u64) -> io::Result<Vec<u8>>
        ensures { IfOk result (λ text. IfSome (bytes_of self.now name.now) (λ bytes. text.items ≡ take most bytes)) };
}

/// The files of the system, whose bytes no clause knows.
#[derive(Drop)]
pub struct SystemFiles<'a, R: Files> {
    pub rt: &'a R,
}

impl<R: Files> Texts for SystemFiles<'_, R> {
    ghost bytes_of = { λ _ _. None };

    fn text_of(&self, alloc: Global, name: &str, most: u64) -> io::Result<Vec<u8>> {
        let mut text = Vec::new(alloc);
        fs::open(self.rt, name)?.take(most).read_to_end(&mut text)?;
        Ok(text)
    }
}

/// No texts: what a name leads to isn't found.
#[derive(Clone, Copy)]
pub struct NoTexts;

impl Texts for NoTexts {
    ghost bytes_of = { λ _ _. None };

    fn text_of(&self, _alloc: Global, _name: &str, _most: u64) -> io::Result<Vec<u8>> {
        Err(io::Error::from(ErrorKind::NotFound))
    }
}

/// What a run finds around it: the texts that its words may name, and what its streams are shown on.
#[derive(Clone, Copy)]
pub struct Around<'a, T: Texts> {
    pub texts: &'a T,
    pub screen: Screen,
}

/// How many bytes are dropped at a time.
const DROPPED: u64 = 65536;

/// The first bytes of what is left to be read, so many at most. What lies behind them is read too, and dropped as it
/// comes.
pub fn first_bytes<I: Read + Drop>(alloc: Global, input: I, most: u64) -> io::Result<Vec<u8>>
    ensures { IfOk result (λ text. IfSome (I.remaining input) (λ bytes. text.items ≡ take most bytes)) }
{
    let mut front = input.take(most);
    let mut text = Vec::new(alloc);
    front.read_to_end(&mut text)?;
    drop_rest(alloc, front.into_inner())?;
    Ok(text)
}

/// Reads what is left to its end, and drops it as it comes.
fn drop_rest<I: Read + Drop>(alloc: Global, input: I) -> io::Result<()> {
    let mut input = input;
    let mut dropped = Vec::new(alloc);
    for _ in 0..u64::MAX {
        let mut piece = input.take(DROPPED);
        let count = piece.read_to_end(&mut dropped)?;
        if count == 0 {
            break;
        }
        dropped.clear();
        input = piece.into_inner();
    }
    Ok(())
}

/// Of a text that may be accepted all bytes are kept, and of a longer one so many that it is seen to be too large.
pub fn kept_texts_are_enough()
    ensures whole { (bytes : List ℕ) → length bytes ≤ most_bytes → take (1 + most_bytes) bytes ≡ bytes }
    ensures large { (bytes : List ℕ) → most_bytes < length bytes
        → most_bytes < length (take (1 + most_bytes) bytes) }
{}
