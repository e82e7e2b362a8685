//! Threads by number and by name.

ghost use Rattle.std.specs.Prelude.{◌≡◌, ◌≤◌, ◌<◌, Some, IfOk, IfErr, IfSome, length, position};
ghost use Rattle.std.specs.String.{string_bytes};
ghost use Rattle.sect_answers.specs.Naming.{AreMeant, AreNamed, AreNumbers, IsName, IsNamingDue, IsUnknown};
ghost use Rattle.sect_answers.specs.Naming.{IsUnknownOf, is_called as is_called_by};
ghost use Rattle.sect_answers.specs.Naming.{thread_called as called_by, thread_of as thread_by};

use sect_front::Thread;
use sect_names::{SourceRefusal, program_of};
use std::alloc::{AllocError, AllocFailed, Global};

/// How a word names a thread.
#[derive(Drop)]
pub enum ThreadWord {
    /// By its number.
    Number(u16),
    /// By the name that the text gives it.
    Name(String),
}

/// Why words name no threads.
#[derive(Drop)]
pub enum ThreadFault {
    /// A growth was refused.
    Memory,
    /// No thread has this name. Another that is near is the name of one.
    Unknown { name: String, near: Option<String> },
}

impl From<AllocError> for ThreadFault {
    ghost use Rattle.std.specs.Prelude.{◌≡◌};
    ghost use Rattle.sect_answers.specs.declared.naming.ThreadFault.TheVariants.{Memory};

    ghost from_gives = { λ _ r. r ≡ Memory };

    fn from(_refused: AllocError) -> ThreadFault {
        ThreadFault::Memory
    }
}

impl<T: Drop> From<AllocFailed<T>> for ThreadFault {
    ghost use Rattle.std.specs.Prelude.{◌≡◌};
    ghost use Rattle.sect_answers.specs.declared.naming.ThreadFault.TheVariants.{Memory};

    ghost from_gives = { λ _ r. r ≡ Memory };

    fn from(_refused: AllocFailed<T>) -> ThreadFault {
        ThreadFault::Memory
    }
}

/// Whether a thread has this name.
fn is_called(thread: &Thread, name: &str) -> bool
    ensures { result ≡ is_called_by name.now thread.now }
{
    thread.name.as_bytes() == name.as_bytes()
}

/// The first of these threads that has this name.
fn thread_at(threads: &[Thread], name: &str) -> Option<usize>
    ensures { result ≡ position (is_called_by name.now) threads.now }
{
    threads.iter().position(|thread| is_called(thread, name))
}

/// The number of the thread of this name.
fn thread_called(threads: &[Thread], name: &str) -> Option<u16>
    ensures { result ≡ called_by threads.now name.now }
{
    match thread_at(threads, name) {
        Some(number) if number < 65536 => Some(number as u16),
        _ => None,
    }
}

/// How many bytes both words begin with.
fn alike(one: &[u8], other: &[u8]) -> usize {
    for (place, byte) in one.iter().enumerate() {
        if other.get(place) != Some(byte) {
            return place;
        }
    }
    one.len()
}

/// What follows the first bytes, so many or all.
fn behind(bytes: &[u8], count: usize) -> &[u8] {
    let (_, others) = bytes.split_at(count.min(bytes.len()));
    others
}

/// Whether one word is the other with its first two signs exchanged.
fn is_exchanged(one: &[u8], other: &[u8]) -> bool {
    match (one, other) {
        ([a, b, rest @ ..], [c, d, others @ ..]) => *a == *d && *b == *c && rest == others,
        _ => false,
    }
}

/// Whether a word is the beginning of a name or goes on behind it, or has a sign more or less than the name, or one
/// that differs, or two that are exchanged. Of two signs alone that differ none is near the other.
pub fn is_near(word: &[u8], name: &[u8]) -> bool {
    let count = alike(word, name);
    let (left, right) = (behind(word, count), behind(name, count));
    match (left, right) {
        ([], _) | (_, []) => true,
        ([_, rest @ ..], [_, others @ ..]) => {
            rest == right
                || left == others
                || (rest == others && word.len() > 1)
                || is_exchanged(left, right)
        }
    }
}

/// The name of the first thread whose name is near this one.
fn near_name(alloc: Global, threads: &[Thread], name: &str) -> Result<Option<String>, AllocError>
    ensures { IfOk result (λ near. IfSome near (λ n. IsName threads.now (string_bytes n))) }
{
    for thread in threads {
        if is_near(name.as_bytes(), thread.name.as_bytes()) {
            return Ok(Some(String::from_str(alloc, thread.name.as_str())?));
        }
    }
    Ok(None)
}

/// The number of the thread that a word names.
fn number_of(alloc: Global, threads: &[Thread], word: &ThreadWord) -> Result<u16, ThreadFault>
    ensures answers { IfOk result (λ number. thread_by threads.now word.now ≡ Some number) }
    ensures refuses { IfErr result (IsUnknownOf threads.now word.now) }
{
    let name = match word {
        ThreadWord::Number(number) => return Ok(*number),
        ThreadWord::Name(name) => name.as_str(),
    };
    match thread_called(threads, name) {
        Some(number) => Ok(number),
        None => Err(ThreadFault::Unknown {
            name: String::from_str(alloc, name)?,
            near: near_name(alloc, threads, name)?,
        }),
    }
}

/// The numbers of the threads that these words name.
fn numbers_of(
    alloc: Global,
    threads: &[Thread],
    words: &[ThreadWord],
) -> Result<Vec<u16>, ThreadFault>
    ensures answers { IfOk result (λ numbers. AreNamed threads.now words.now numbers.items) }
    ensures refuses { IfErr result (IsUnknown threads.now words.now) }
{
    let mut numbers = Vec::with_capacity(alloc, words.len())?;
    for word in words {
        numbers.push(number_of(alloc, threads, word)?)?;
    }
    Ok(numbers)
}

/// The numbers of threads, where words are numbers alone.
fn numbers_alone(alloc: Global, words: &[ThreadWord]) -> Result<Option<Vec<u16>>, AllocError>
    ensures { IfOk result (λ found. IfSome found (λ numbers. AreNumbers words.now numbers.items)) }
{
    let mut numbers = Vec::with_capacity(alloc, words.len())?;
    for word in words {
        match word {
            ThreadWord::Number(number) => numbers.push(*number)?,
            ThreadWord::Name(_) => return Ok(None),
        }
    }
    Ok(Some(numbers))
}

/// The threads of a source text's program that words name. Where the text is refused, they name none.
fn threads_found(
    alloc: Global,
    source: &[u8],
    words: &[ThreadWord],
) -> Result<Vec<u16>, ThreadFault>
    ensures answers { IfOk result (λ numbers. AreMeant source.now words.now numbers.items) }
    ensures refuses { IfErr result (IsNamingDue source.now words.now) }
{
    match program_of(alloc, source) {
        Ok(program) => numbers_of(alloc, program.tree().threads(), words),
        Err(SourceRefusal::Memory) => Err(ThreadFault::Memory),
        Err(_) => Ok(Vec::new(alloc)),
    }
}

/// The threads that words name. A source text is asked where there are names, and names none where it is refused.
pub fn threads_named(
    alloc: Global,
    source: &[u8],
    words: &[ThreadWord],
) -> Result<Vec<u16>, ThreadFault>
    // The words are these numbers, or name these threads.
    ensures answers { IfOk result (λ numbers. AreMeant source.now words.now numbers.items) }
    // One of the words is a name that no thread has, and the name that is told as near is a thread's.
    ensures refuses { IfErr result (IsNamingDue source.now words.now) }
{
    match numbers_alone(alloc, words)? {
        Some(numbers) => Ok(numbers),
        None => threads_found(alloc, source, words),
    }
}
