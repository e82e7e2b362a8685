//! What a certificate claims of a section, by the program's numbers.

ghost use Rattle.std.specs.{Prelude.{◌≡◌, ◌<◌, ℕ, Some, length, take, slice_get, IfSome}, List.{AllZip}};
ghost use Rattle.sect_names.specs.Schemes.{SchemeView};
ghost use Rattle.sect_check.specs.{Names.{Denotes}, Meaning.{DenotesStep, DenotesChain, DenotesSection}};
ghost use Rattle.sect_check.specs.steps.Resolving.{Resolves, Extends};

use crate::claimed_links::ClaimedLinks;
use crate::claims::{ChainClaim, Claims};
use crate::covering::NEAR;
use crate::locks::lock_of;
use crate::naming::Naming;
use crate::same::is_same_lock;
use crate::unresolved::Unresolved;
use sect_cert::{CertChain, CertLock, CertSection, ChainSteps, Runs};
use sect_front::Items;
use sect_graph::Flow;
use sect_names::Lock;
use std::alloc::Global;

/// A list of a certificate, and the locks that it names.
#[derive(Clone, Copy)]
struct Known<'a> {
    named: &'a [CertLock],
    locks: &'a [Lock],
}

/// Where a list names a lock: at this place, or not far behind it.
fn place_of(list: &[CertLock], from: usize, named: &CertLock) -> Option<usize>
    ensures within { IfSome result (λ place. place < length list.now) }
    ensures there { IfSome result (λ place. slice_get list.now place ≡ Some named.now) }
{
    let end = list.len().min(from.saturating_add(NEAR));
    for place in from..end {
        if is_same_lock(&list[place], named) {
            return Some(place);
        }
    }
    None
}

/// The lock that is named next in a list. One that a known list names from a place on isn't looked up again, and the
/// place is then the one behind it.
fn next_lock(
    alloc: Global,
    naming: &Naming,
    known: Known<'_>,
    from: &mut usize,
    named: &CertLock,
) -> Result<Lock, Unresolved>
    requires { AllZip (Denotes naming.now.scheme naming.now.thread) known.named.now known.locks.now }
    ensures { Resolves result (Denotes naming.now.scheme naming.now.thread named.now) }
{
    match place_of(known.named, *from, named) {
        Some(place) => {
            *from = place + 1;
            Ok(known.locks[place].try_clone()?)
        }
        None => lock_of(alloc, naming, named),
    }
}

/// The locks of a list, which has many of a known list's.
#[tactic(auto, using(sect_lemmas::proofs::Places::zip_more))]
fn locks_of(
    alloc: Global,
    naming: &Naming,
    known: Known<'_>,
    list: &[CertLock],
) -> Result<Items<Lock>, Unresolved>
    requires { AllZip (Denotes naming.now.scheme naming.now.thread) known.named.now known.locks.now }
    ensures { Resolves result (AllZip (Denotes naming.now.scheme naming.now.thread) list.now) }
{
    let mut locks = Vec::with_capacity(alloc, list.len())?;
    let mut from = 0;
    for named in list {
        locks.push(next_lock(alloc, naming, known, &mut from, named)?)?;
    }
    Ok(Items::from_vec(locks))
}

/// The list of the node before this one, and its locks; before the first node, none.
fn known_before<'a>(
    nodes: &'a Runs<Items<CertLock>>,
    node: usize,
    lists: &'a Runs<Items<Lock>>,
) -> Known<'a>
    requires there { node < length nodes.now }
    requires count { length lists.now ≡ node }
    ensures { (s : SchemeView) (thread : ℕ) → AllZip (AllZip (Denotes s thread)) (take node nodes.now) lists.now
        → AllZip (Denotes s thread) result.named.now result.locks.now }
{
    if node == 0 {
        return Known {
            named: &[],
            locks: &[],
        };
    }
    Known {
        named: nodes.at(node - 1).as_slice(),
        locks: lists.at(node - 1).as_slice(),
    }
}

/// Puts a node's list behind those of the nodes before. One that repeats the list before isn't looked up again.
fn next_list(
    alloc: Global,
    naming: &Naming,
    nodes: &Runs<Items<CertLock>>,
    node: usize,
    lists: &mut Runs<Items<Lock>>,
) -> Result<(), Unresolved>
    requires there { node < length nodes.now }
    requires before { AllZip (AllZip (Denotes naming.now.scheme naming.now.thread)) (take node nodes.now) lists.old }
    ensures { Extends (AllZip (Denotes naming.now.scheme naming.now.thread)) nodes.now node lists.new result }
{
    if 0 < node && nodes.is_one(node, node - 1) {
        lists.push_again()?;
        return Ok(());
    }
    let known = known_before(nodes, node, lists);
    let list = locks_of(alloc, naming, known, nodes.at(node).as_slice())?;
    lists.push(list)?;
    Ok(())
}

/// The lists of the nodes.
fn lists_of(
    alloc: Global,
    naming: &Naming,
    nodes: &Runs<Items<CertLock>>,
) -> Result<Runs<Items<Lock>>, Unresolved>
    ensures { Resolves result (AllZip (AllZip (Denotes naming.now.scheme naming.now.thread)) nodes.now) }
{
    let mut lists = Runs::new(alloc);
    for node in 0..nodes.len() {
        next_list(alloc, naming, nodes, node, &mut lists)?;
    }
    Ok(lists)
}

/// Puts the link of a step behind those of the steps before. A lock that repeats the one before isn't looked up again.
fn next_link(
    alloc: Global,
    naming: &Naming,
    steps: &ChainSteps,
    index: usize,
    links: &mut ClaimedLinks,
) -> Result<(), Unresolved>
    requires there { index < length steps.now }
    requires before { AllZip (DenotesStep naming.now.scheme naming.now.thread) (take index steps.now) links.old }
    ensures { Extends (DenotesStep naming.now.scheme naming.now.thread) steps.now index links.new result }
{
    let node = steps.node(index);
    if 0 < index && steps.is_one(index, index - 1) {
        links.push_again(node)?;
        return Ok(());
    }
    let lock = lock_of(alloc, naming, steps.lock(index))?;
    links.push(node, lock)?;
    Ok(())
}

/// The steps of a chain.
fn links_of(alloc: Global, naming: &Naming, steps: &ChainSteps) -> Result<ClaimedLinks, Unresolved>
    ensures { Resolves result (AllZip (DenotesStep naming.now.scheme naming.now.thread) steps.now) }
{
    let mut links = ClaimedLinks::with_capacity(alloc, steps.len())?;
    for index in 0..steps.len() {
        next_link(alloc, naming, steps, index, &mut links)?;
    }
    Ok(links)
}

/// A chain.
fn chain_claim(alloc: Global, naming: &Naming, chain: &CertChain) -> Result<ChainClaim, Unresolved>
    ensures { Resolves result (DenotesChain naming.now.scheme naming.now.thread chain.now) }
{
    let links = links_of(alloc, naming, &chain.steps)?;
    Ok(ChainClaim {
        lock: chain.lock,
        links,
    })
}

/// The chains of a section.
#[tactic(auto, using(sect_lemmas::proofs::Places::zip_more))]
fn chain_claims(
    alloc: Global,
    naming: &Naming,
    chains: &[CertChain],
) -> Result<Items<ChainClaim>, Unresolved>
    ensures { Resolves result (AllZip (DenotesChain naming.now.scheme naming.now.thread) chains.now) }
{
    let mut claims = Vec::new(alloc);
    for chain in chains {
        claims.push(chain_claim(alloc, naming, chain)?)?;
    }
    Ok(Items::from_vec(claims))
}

/// What a certificate claims of a section.
pub fn claims_of(
    alloc: Global,
    naming: &Naming,
    flow: &Flow,
    section: &CertSection,
) -> Result<Claims, Unresolved>
    ensures { Resolves result (DenotesSection naming.now.scheme naming.now.thread flow.now section.now) }
{
    if section.nodes.len() != flow.exit() as usize + 1 {
        return Err(Unresolved::Wrong);
    }
    let nodes = lists_of(alloc, naming, &section.nodes)?;
    let none = Known {
        named: &[],
        locks: &[],
    };
    let entry = locks_of(alloc, naming, none, section.entry.as_slice())?;
    let chains = chain_claims(alloc, naming, section.chains.as_slice())?;
    Ok(Claims {
        nodes,
        entry,
        chains,
    })
}
