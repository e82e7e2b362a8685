//! What stands in a lock: its mode, and what it locks.

ghost use Rattle.std.specs.Prelude.{◌≡◌, ◌==◌, IsTrue, filter, length};
ghost use Rattle.sect_cert.specs.steps.Readers.{ReadsAs};
ghost use Rattle.sect_cert.specs.steps.Subjects.{base_of as base_in, path_of as path_in, mode_of as mode_in};
ghost use Rattle.sect_cert.specs.steps.Subjects.{path_lock as path_lock_of, class_lock as class_lock_of};
ghost use Rattle.sect_cert.specs.steps.Subjects.{all_lock as all_lock_of, subject_of};

use crate::fault::LineFault;
use crate::known_paths::KnownPaths;
use crate::lock::{CertBase, CertLock, CertPath};
use crate::numbers::number;
use crate::parts::Parts;
use crate::shared_path::SharedPath;
use sect_front::{Items, Name, is_name, is_same_word};
use std::alloc::Global;

/// What a lock allows.
#[derive(Clone, Copy)]
pub enum CertMode {
    /// `R`
    Read,
    /// `W`
    Write,
    /// `M`
    Make,
}

/// Whether two modes are one.
pub fn is_same_mode(one: CertMode, other: CertMode) -> bool
    ensures { IsTrue result → one ≡ other }
{
    match one {
        CertMode::Read => matches!(other, CertMode::Read),
        CertMode::Write => matches!(other, CertMode::Write),
        CertMode::Make => matches!(other, CertMode::Make),
    }
}

/// The mode that a word is.
pub fn mode_of(word: &[u8]) -> Option<CertMode>
    ensures { result ≡ mode_in word.now }
{
    if is_same_word(word, b"R") {
        Some(CertMode::Read)
    } else if is_same_word(word, b"W") {
        Some(CertMode::Write)
    } else if is_same_word(word, b"M") {
        Some(CertMode::Make)
    } else {
        None
    }
}

/// The base that a word is: a name, or a name, `#` and a number.
fn base_of(word: &[u8]) -> Option<CertBase>
    ensures { result ≡ base_in word.now }
{
    let (first, mut others) = Parts::of(word, b'#');
    if !is_name(first) {
        return None;
    }
    let name = Name::new(first);
    let Some(call) = others.next() else {
        return Some(CertBase::Name(name));
    };
    if !others.is_empty() {
        return None;
    }
    Some(CertBase::InCall(name, number(call)?))
}

/// For how many fields of a path there is room at first, if it has so many: those of valid certificates have no more.
const ROOM: usize = 3;

/// How many points stand in a word.
fn points_in(word: &[u8]) -> usize
    ensures { result ≡ length (filter (λ b. b == 46) word.now) }
{
    word.iter().filter(|byte| **byte == b'.').count()
}

/// The path that a word is.
pub fn path_of(alloc: Global, word: &[u8]) -> Result<CertPath, LineFault>
    ensures { ReadsAs result (path_in word.now) }
{
    let (first, mut others) = Parts::of(word, b'.');
    let base = base_of(first).ok_or(LineFault::Bad)?;
    let mut fields = Vec::with_capacity(alloc, points_in(word).min(ROOM))?;
    while let Some(piece) = others.next() {
        if !is_name(piece) {
            return Err(LineFault::Bad);
        }
        fields.push(Name::new(piece))?;
    }
    Ok(CertPath {
        base,
        fields: Items::from_vec(fields),
    })
}

/// The lock of a path in a mode; none makes an object at a path.
fn path_lock(mode: CertMode, path: SharedPath) -> Option<CertLock>
    ensures { result ≡ path_lock_of mode path }
{
    match mode {
        CertMode::Read => Some(CertLock::ReadPath(path)),
        CertMode::Write => Some(CertLock::WritePath(path)),
        CertMode::Make => None,
    }
}

/// The lock of a class in a mode.
pub fn class_lock(mode: CertMode, class: u32) -> CertLock
    ensures { result ≡ class_lock_of mode class }
{
    match mode {
        CertMode::Read => CertLock::ReadClass(class),
        CertMode::Write => CertLock::WriteClass(class),
        CertMode::Make => CertLock::MakeClass(class),
    }
}

/// The lock of everything, which is to write.
fn all_lock(mode: CertMode) -> Option<CertLock>
    ensures { result ≡ all_lock_of mode }
{
    match mode {
        CertMode::Write => Some(CertLock::WriteAll),
        CertMode::Read | CertMode::Make => None,
    }
}

/// The lock that a mode and the word after it are, where that word isn't `class`.
pub fn subject(paths: &mut KnownPaths, mode: CertMode, word: &[u8]) -> Result<CertLock, LineFault>
    ensures { ReadsAs result (subject_of mode word.now) }
{
    if is_same_word(word, b"all") {
        return all_lock(mode).ok_or(LineFault::Bad);
    }
    let path = paths.path(word)?;
    path_lock(mode, path).ok_or(LineFault::Bad)
}
