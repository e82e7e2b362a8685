//! The words of a chain's steps, read one after another.

ghost use Rattle.std.specs.Prelude.{◌≡◌, Some, IsTrue, IfSome, IfOk, MatchResult};
ghost use Rattle.sect_cert.specs.steps.Readers.{ReadsAs, Refuses};
ghost use Rattle.sect_cert.specs.steps.Chains.{WasRead, PutsStep, chain_state, walk_of, steps_of as steps_at};
ghost use Rattle.sect_cert.specs.steps.Subjects.{subject_of};

use crate::certificate::CertStep;
use crate::chain_steps::ChainSteps;
use crate::fault::LineFault;
use crate::known_paths::KnownPaths;
use crate::numbers::number;
use crate::parts::Parts;
use crate::subject::{CertMode, class_lock, is_same_mode, mode_of, subject};
use sect_front::is_same_word;

/// What the next word of a chain is to be.
#[derive(Clone, Copy)]
pub enum ChainWord {
    /// A node's number.
    Node,
    /// The mode of the lock at this node.
    Mode(u32),
    /// What the lock at this node locks in this mode.
    Subject(u32, CertMode),
    /// The number of the class that the lock at this node locks in this mode.
    Class(u32, CertMode),
    /// `>`: the chain may end here.
    Whole,
}

/// What a lock was read from: its mode, and the word behind it.
#[derive(Clone, Copy)]
struct LockWords<'a> {
    mode: CertMode,
    word: &'a [u8],
}

/// What the next word of a chain is to be, and what the lock of the last step was read from, where that is at hand.
#[derive(Clone, Copy)]
struct Walk<'a> {
    spot: ChainWord,
    last: Option<LockWords<'a>>,
}

/// Whether two locks are read from the same.
fn are_same(one: LockWords<'_>, other: LockWords<'_>) -> bool
    ensures mode { IsTrue result → one.entry.mode ≡ other.entry.mode }
    ensures word { IsTrue result → one.entry.word.now ≡ other.entry.word.now }
{
    is_same_mode(one.mode, other.mode) && is_same_word(one.word, other.word)
}

/// Adds a step at a node with a lock that isn't read again where it is the last step's.
fn put_step(
    paths: &mut KnownPaths,
    steps: &mut ChainSteps,
    node: u32,
    lock: LockWords<'_>,
    last: Option<LockWords<'_>>,
) -> Result<(), LineFault>
    requires { IfSome last (λ was. WasRead steps.old was.mode was.word.now) }
    ensures { PutsStep result steps.old steps.new node (subject_of lock.entry.mode lock.entry.word.now) }
{
    if let Some(was) = last {
        if are_same(was, lock) {
            steps.push_again(node)?;
            return Ok(());
        }
    }
    let lock = subject(paths, lock.mode, lock.word)?;
    steps.push(CertStep { node, lock })?;
    Ok(())
}

/// Takes one more word.
fn walk_word<'a>(
    paths: &mut KnownPaths,
    steps: &mut ChainSteps,
    walk: Walk<'a>,
    word: &'a [u8],
) -> Result<Walk<'a>, LineFault>
    requires { IfSome walk.last (λ was. WasRead steps.old was.mode was.word.now) }
    ensures walks { MatchResult result
        (λ next. walk_of steps.old walk.entry.spot word.now ≡ Some (chain_state steps.new next.spot))
        (λ fault. Refuses fault (walk_of steps.old walk.entry.spot word.now)) }
    ensures last { IfOk result (λ next. IfSome next.last (λ was. WasRead steps.new was.mode was.word.now)) }
{
    let last = walk.last;
    match walk.spot {
        ChainWord::Node => {
            let node = number(word).ok_or(LineFault::Bad)?;
            let spot = ChainWord::Mode(node);
            Ok(Walk { spot, last })
        }
        ChainWord::Mode(node) => {
            let mode = mode_of(word).ok_or(LineFault::Bad)?;
            let spot = ChainWord::Subject(node, mode);
            Ok(Walk { spot, last })
        }
        ChainWord::Subject(node, mode) => {
            if is_same_word(word, b"class") {
                let spot = ChainWord::Class(node, mode);
                return Ok(Walk { spot, last });
            }
            let lock = LockWords { mode, word };
            put_step(paths, steps, node, lock, last)?;
            let spot = ChainWord::Whole;
            let last = Some(lock);
            Ok(Walk { spot, last })
        }
        ChainWord::Class(node, mode) => {
            let class = number(word).ok_or(LineFault::Bad)?;
            let lock = class_lock(mode, class);
            steps.push(CertStep { node, lock })?;
            let spot = ChainWord::Whole;
            let last = None;
            Ok(Walk { spot, last })
        }
        ChainWord::Whole if is_same_word(word, b">") => {
            let spot = ChainWord::Node;
            Ok(Walk { spot, last })
        }
        ChainWord::Whole => Err(LineFault::Bad),
    }
}

/// The steps of the chain that these words are.
pub fn steps_of(paths: &mut KnownPaths, mut words: Parts<'_>) -> Result<ChainSteps, LineFault>
    ensures { ReadsAs result (steps_at words.entry) }
{
    let mut steps = ChainSteps::new(paths.alloc());
    let mut walk = Walk {
        spot: ChainWord::Node,
        last: None,
    };
    while let Some(word) = words.next() {
        walk = walk_word(paths, &mut steps, walk, word)?;
    }
    match walk.spot {
        ChainWord::Whole => Ok(steps),
        _ => Err(LineFault::Bad),
    }
}
