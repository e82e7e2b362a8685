//! Whether each lock of an entry list has its chain.

ghost use Rattle.std.specs.Prelude.{◌≡◌, ◌<◌, MatchOption};
ghost use Rattle.sect_lemmas.specs.Lists.{Has};
ghost use Rattle.sect_names.specs.Needed.{end_locks};
ghost use Rattle.sect_check.specs.declared.claims.ChainClaim.{ChainClaim};
ghost use Rattle.sect_check.specs.steps.Shapes.{DoRise, HasNumber, HaveNumbersBelow, AreLawfulChains};
ghost use Rattle.sect_check.specs.steps.Parts.{JudgesChain, JudgesChains};

use crate::claims::{ChainClaim, Claims};
use crate::fault::SectionFault;
use crate::judged::Judged;
use crate::links::first_wrong;
use sect_names::Lock;
use std::alloc::Global;

/// The chain of this number. Their numbers rise and each one below is there, so it stands at the place of its number or
/// nowhere.
fn chain_of(chains: &[ChainClaim], number: usize) -> Option<&ChainClaim>
    requires rise { DoRise chains.now }
    requires below { HaveNumbersBelow chains.now number }
    ensures { MatchOption result (HasNumber chains.now number → ⊥)
        (λ chain. Has chains.now chain.now × (chain.now.lock ≡ number)) }
{
    let chain = chains.get(number)?;
    if chain.lock as usize == number {
        Some(chain)
    } else {
        None
    }
}

/// Whether the lock of this number has its chain.
fn judge_chain(
    alloc: Global,
    section: Judged<'_>,
    claims: &Claims,
    number: usize,
    lock: &Lock,
) -> Result<(), SectionFault>
    requires rise { DoRise claims.now.chains }
    requires lawful { AreLawfulChains section.scheme.now section.thread claims.now.chains }
    requires below { HaveNumbersBelow claims.now.chains number }
    ensures { JudgesChain section.entry.scheme.now section.entry.thread
        (end_locks section.entry.locking) section.entry.flow.now claims.now number lock.now result }
{
    let Some(chain) = chain_of(claims.chains.as_slice(), number) else {
        return Err(SectionFault::NoChain { lock: number });
    };
    match first_wrong(alloc, section, lock, &chain.links)? {
        None => Ok(()),
        Some(step) => Err(SectionFault::BrokenChain { lock: number, step }),
    }
}

/// Whether each lock of the entry list has its chain, and there is no other.
pub fn judge_chains(alloc: Global, section: Judged<'_>, claims: &Claims) -> Result<(), SectionFault>
    requires rise { DoRise claims.now.chains }
    requires lawful { AreLawfulChains section.scheme.now section.thread claims.now.chains }
    ensures { JudgesChains section.entry.scheme.now section.entry.thread
        (end_locks section.entry.locking) section.entry.flow.now claims.now result }
{
    let entry = claims.entry.as_slice();
    for number in 0..entry.len() {
        let lock = &entry[number];
        judge_chain(alloc, section, claims, number, lock)?;
    }
    match claims.chains.as_slice().get(entry.len()) {
        None => Ok(()),
        Some(chain) => Err(SectionFault::BrokenChain {
            lock: chain.lock as usize,
            step: 0,
        }),
    }
}
