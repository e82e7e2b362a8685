//! Locks and chains by the names that stand in a program's text.

ghost use Rattle.std.specs.Prelude.{◌≡◌, ◌≢◌, ◌≤◌, ◌<◌, ◌+◌, ◌-◌, List, [], ◌∷◌, ◌++◌, map, take, length, Some};
ghost use Rattle.std.specs.{Prelude.{slice_get, IfOk, IfSome, OnOk, IsTrue}, List.{AllByRecursion, AllZip}};
ghost use Rattle.std.specs.Map.Iter.{deref};
ghost use Rattle.sect_cert.specs.declared.certificate.CertStep.{CertStep};
ghost use Rattle.sect_cert.specs.Texts.{IsBase, IsPath, IsLock, IsStep, IsChain, chains_lines, lines_text};
ghost use Rattle.sect_lemmas.specs.Lists.{Has};
ghost use Rattle.sect_names.specs.{declared.link.Link.{Link}, declared.lock.Lock.{Lock}, Locks.{IsVariable, IsPathOf}};
ghost use Rattle.sect_names.specs.Printing.{IsNamed, AreNamed};
ghost use Rattle.sect_check.specs.Names.{words_of_variable};
ghost use Rattle.sect_emit.specs.Words.{path_words, lock_words, list_words, step_words, chain_words, chains_words};
ghost use Rattle.sect_chains.specs.Numbered.{links_by, chains_in, HaveLocks};
ghost use Rattle.sect_emit.specs.Words.{IsChainNamed};
ghost use Rattle.sect_emit.specs.steps.Known.{AreKnown, IsFirstNamed};

use crate::known_locks::KnownLocks;
use sect_cert::{
    CertBase, CertChain, CertLock, CertPath, CertStep, ChainSteps, SharedPath, put_chain,
};
use sect_chains::{NumberedChains, NumberedStep};
use sect_front::Items;
use sect_names::{Effect, Lock, Path, Right, field_name, precedes};
use sect_points::Variable;
use sect_types::Program;
use std::alloc::{AllocError, Global};

/// What a variable is called.
fn base_of(program: &Program, variable: Variable) -> CertBase
    requires { IsVariable program.now variable }
    ensures words { result ≡ words_of_variable program.now.source variable }
    ensures good { IsBase result }
{
    match variable {
        Variable::Global(number) => {
            let name = program.tree().globals()[number as usize].name;
            let _facts = name.as_bytes();
            CertBase::Name(name)
        }
        Variable::Local(thread, number) => {
            let local = program.local_name(thread, number);
            let _facts = local.name.as_bytes();
            match local.call {
                None => CertBase::Name(local.name),
                Some(call) => CertBase::InCall(local.name, call),
            }
        }
    }
}

/// A path by its names.
fn path_of(alloc: Global, program: &Program, path: &Path) -> Result<SharedPath, AllocError>
    requires { IsPathOf program.now path.now }
    ensures words { IfOk result (λ words. words ≡ path_words program.now.source path.now) }
    ensures good { IfOk result IsPath }
{
    let mut fields = Vec::with_capacity(alloc, path.fields().len())?;
    for field in path.fields() {
        let name = field_name(program, *field);
        let _facts = name.as_bytes();
        fields.push(*name)?;
    }
    let path = CertPath {
        base: base_of(program, path.base()),
        fields: Items::from_vec(fields),
    };
    SharedPath::new(alloc, path)
}

/// A lock by its names.
pub fn lock_of(alloc: Global, program: &Program, lock: &Lock) -> Result<CertLock, AllocError>
    requires { IsNamed program.now lock.now }
    ensures words { IfOk result (λ words. words ≡ lock_words program.now.source lock.now) }
    ensures good { IfOk result IsLock }
{
    match lock {
        Lock::All => Ok(CertLock::WriteAll),
        Lock::Class(class, Right::Read) => Ok(CertLock::ReadClass(*class as u32)),
        Lock::Class(class, Right::Write) => Ok(CertLock::WriteClass(*class as u32)),
        Lock::Class(class, Right::Make) => Ok(CertLock::MakeClass(*class as u32)),
        Lock::Path(path, Effect::Read) => Ok(CertLock::ReadPath(path_of(alloc, program, path)?)),
        Lock::Path(path, Effect::Write) => Ok(CertLock::WritePath(path_of(alloc, program, path)?)),
    }
}

/// How many places of a list are searched one by one.
const NEAR: usize = 4;

/// Locks, and what they are by their names.
#[derive(Clone, Copy)]
pub struct Known<'a> {
    pub locks: &'a [&'a Lock],
    pub named: &'a [CertLock],
}

/// Whether two locks are equal.
fn are_equal(one: &Lock, other: &Lock) -> bool
    ensures { IsTrue result → one.now ≡ other.now }
{
    *one == *other
}

/// The first place from one on at which a list in canonical order has no lock before this one. Mostly it is near.
#[inline(never)]
fn first_from(locks: &[&Lock], from: usize, lock: &Lock) -> usize {
    let near = locks.len().min(from.saturating_add(NEAR));
    for place in from..near {
        if !precedes(locks[place], lock) {
            return place;
        }
    }
    near + locks[near..].partition_point(|other| precedes(other, lock))
}

/// Whether a list has a lock at a place.
fn is_at(locks: &[&Lock], place: usize, lock: &Lock) -> bool
    ensures within { IsTrue result → place < length locks.now }
    ensures there { IsTrue result → slice_get (map deref locks.now) place ≡ Some lock.now }
{
    place < locks.len() && are_equal(locks[place], lock)
}

/// Where a list in canonical order has a lock: at this place or behind it.
fn place_of(locks: &[&Lock], from: usize, lock: &Lock) -> Option<usize>
    ensures within { IfSome result (λ place. place < length locks.now) }
    ensures there { IfSome result (λ place. slice_get (map deref locks.now) place ≡ Some lock.now) }
{
    if is_at(locks, from, lock) {
        return Some(from);
    }
    let place = first_from(locks, from, lock);
    if is_at(locks, place, lock) {
        Some(place)
    } else {
        None
    }
}

/// The lock that is next in a list, by its names. One that a known list has from a place on isn't named again, and the
/// place is then the one behind it.
fn next_lock(
    alloc: Global,
    program: &Program,
    known: Known<'_>,
    from: &mut usize,
    lock: &Lock,
) -> Result<CertLock, AllocError>
    requires named { IsNamed program.now lock.now }
    requires known { known.named.now ≡ list_words program.now.source (map deref known.locks.now) }
    requires good { AllByRecursion IsLock known.named.now }
    ensures words { IfOk result (λ words. words ≡ lock_words program.now.source lock.now) }
    ensures good { IfOk result IsLock }
{
    match place_of(known.locks, *from, lock) {
        Some(place) => {
            *from = place + 1;
            known.named[place].share()
        }
        None => lock_of(alloc, program, lock),
    }
}

/// A list of locks by their names, which has many of a known list's.
pub fn list_of(
    alloc: Global,
    program: &Program,
    known: Known<'_>,
    locks: &[&Lock],
) -> Result<Items<CertLock>, AllocError>
    requires named { AreNamed program.now (map deref locks.now) }
    requires known { known.named.now ≡ list_words program.now.source (map deref known.locks.now) }
    requires good { AllByRecursion IsLock known.named.now }
    ensures words { IfOk result (λ list. list ≡ list_words program.now.source (map deref locks.now)) }
    ensures good { IfOk result (λ list. AllByRecursion IsLock list) }
{
    let mut list = Vec::with_capacity(alloc, locks.len())?;
    let mut from = 0;
    for lock in locks {
        list.push(next_lock(alloc, program, known, &mut from, lock)?)?;
    }
    Ok(Items::from_vec(list))
}

/// A list equal to this one, whose paths are kept once for both.
pub fn shared(alloc: Global, locks: &[CertLock]) -> Result<Items<CertLock>, AllocError>
    ensures { IfOk result (λ list. list ≡ locks.now) }
{
    let mut list = Vec::with_capacity(alloc, locks.len())?;
    for lock in locks {
        list.push(lock.share()?)?;
    }
    Ok(Items::from_vec(list))
}

/// A step at a node.
fn step(node: u32, lock: CertLock) -> CertStep
    requires { IsLock lock }
    ensures node { result.node ≡ node }
    ensures lock { result.lock ≡ lock }
    ensures good { IsStep result }
{
    CertStep { node, lock }
}

/// A chain that is spelled: the chains of a section with their locks by number, its steps, and by its names the lock of
/// the first step, which the entry has.
#[derive(Clone, Copy)]
struct Spelled<'a> {
    chains: &'a NumberedChains,
    steps: &'a [NumberedStep],
    first: &'a CertLock,
}

/// The step at an index of a chain, by its names.
fn step_of(
    alloc: Global,
    program: &Program,
    known: &mut KnownLocks,
    chain: Spelled<'_>,
    index: usize,
) -> Result<CertStep, AllocError>
    requires there { index < length chain.steps.now }
    requires locks { HaveLocks chain.chains.now.keys chain.steps.now }
    requires named { IsChainNamed program.now (links_by chain.chains.now.keys chain.steps.now) }
    requires first { IsFirstNamed program.now.source chain.first.now (links_by chain.chains.now.keys chain.steps.now) }
    requires good { IsLock chain.first.now }
    requires known { AreKnown program.now.source chain.chains.now.keys known.old }
    ensures words { IfOk result (λ step. (link : Link)
        → slice_get (links_by chain.entry.chains.now.keys chain.entry.steps.now) index ≡ Some link
        → step ≡ step_words program.now.source link) }
    ensures good { IfOk result IsStep }
    ensures known { OnOk result (AreKnown program.now.source chain.entry.chains.now.keys known.new) }
{
    let NumberedStep { node, number } = chain.steps[index];
    if index == 0 {
        let lock = chain.first.share()?;
        return Ok(step(u32::from(node), lock));
    }
    let lock = known.named(alloc, program, chain.chains, number)?;
    Ok(step(u32::from(node), lock))
}

/// Adds a step at a node with the lock of the last one.
fn step_again(steps: &mut ChainSteps, node: u32) -> Result<(), AllocError>
    requires some { steps.old ≢ [] }
    requires good { AllByRecursion IsStep steps.old }
    ensures words { OnOk result ((last : CertStep) → slice_get steps.old (length steps.old - 1) ≡ Some last
        → steps.new ≡ steps.old ++ record { node = node; lock = last.lock } ∷ []) }
    ensures good { OnOk result (AllByRecursion IsStep steps.new) }
{
    steps.push_again(node)?;
    Ok(())
}

/// Puts a step of a chain by its names behind those before it. Mostly its lock is the one before.
fn next_step(
    alloc: Global,
    program: &Program,
    known: &mut KnownLocks,
    chain: Spelled<'_>,
    index: usize,
    steps: &mut ChainSteps,
) -> Result<(), AllocError>
    requires there { index < length chain.steps.now }
    requires locks { HaveLocks chain.chains.now.keys chain.steps.now }
    requires named { IsChainNamed program.now (links_by chain.chains.now.keys chain.steps.now) }
    requires first { IsFirstNamed program.now.source chain.first.now (links_by chain.chains.now.keys chain.steps.now) }
    requires good_first { IsLock chain.first.now }
    requires known { AreKnown program.now.source chain.chains.now.keys known.old }
    requires words { steps.old
        ≡ map (step_words program.now.source) (take index (links_by chain.chains.now.keys chain.steps.now)) }
    requires good { AllByRecursion IsStep steps.old }
    ensures known { OnOk result (AreKnown program.now.source chain.entry.chains.now.keys known.new) }
    ensures words { OnOk result (steps.new ≡ map (step_words program.now.source)
        (take (index + 1) (links_by chain.entry.chains.now.keys chain.entry.steps.now))) }
    ensures good { OnOk result (AllByRecursion IsStep steps.new) }
{
    let NumberedStep { node, number } = chain.steps[index];
    if 0 < index && chain.steps[index - 1].number == number {
        return step_again(steps, u32::from(node));
    }
    let step = step_of(alloc, program, known, chain, index)?;
    steps.push(step)
}

/// The chain of the lock of this number by its names.
fn chain_of(
    alloc: Global,
    program: &Program,
    known: &mut KnownLocks,
    lock: u32,
    chain: Spelled<'_>,
) -> Result<CertChain, AllocError>
    requires locks { HaveLocks chain.chains.now.keys chain.steps.now }
    requires named { IsChainNamed program.now (links_by chain.chains.now.keys chain.steps.now) }
    requires first { IsFirstNamed program.now.source chain.first.now (links_by chain.chains.now.keys chain.steps.now) }
    requires good { IsLock chain.first.now }
    requires known { AreKnown program.now.source chain.chains.now.keys known.old }
    ensures known { OnOk result (AreKnown program.now.source chain.entry.chains.now.keys known.new) }
    ensures words { IfOk result (λ words. words
        ≡ chain_words program.now.source lock (links_by chain.entry.chains.now.keys chain.entry.steps.now)) }
    ensures good { IfOk result IsChain }
{
    let mut steps = ChainSteps::with_capacity(alloc, chain.steps.len())?;
    for index in 0..chain.steps.len() {
        next_step(alloc, program, known, chain, index, &mut steps)?;
    }
    Ok(CertChain { lock, steps })
}

/// Writes the lines of the chains of the locks of an entry, in order, by their names, where those of the entry's locks
/// are given.
pub fn put_chains(
    alloc: Global,
    out: &mut Vec<u8>,
    program: &Program,
    chains: &NumberedChains,
    entry: &[CertLock],
) -> Result<(), AllocError>
    requires few { length chains.now.chains ≤ 4294967296 }
    requires named { (links : List Link) → Has (chains_in chains.now) links → IsChainNamed program.now links }
    requires first { AllZip (IsFirstNamed program.now.source) entry.now (chains_in chains.now) }
    requires good { AllByRecursion IsLock entry.now }
    ensures lines { OnOk result (out.new.items ≡ out.old.items
        ++ lines_text (chains_lines (chains_words program.now.source 0 (chains_in chains.now)) [])) }
    ensures good { OnOk result (AllByRecursion IsChain (chains_words program.now.source 0 (chains_in chains.now))) }
{
    let mut known = KnownLocks::new(alloc, chains.lock_count())?;
    for lock in 0..chains.len() {
        let steps = chains.chain(alloc, lock)?;
        let spelled = Spelled {
            chains,
            steps: steps.as_slice(),
            first: &entry[lock],
        };
        let chain = chain_of(alloc, program, &mut known, lock as u32, spelled)?;
        put_chain(alloc, out, &chain)?;
    }
    Ok(())
}
