//! What a certificate claims of a section, by the program's numbers.

use crate::claimed_links::ClaimedLinks;
use sect_cert::Runs;
use sect_front::Items;
use sect_names::Lock;

/// A claimed chain: the number of its lock in the entry list, and its steps.
#[derive(Drop)]
pub struct ChainClaim {
    pub lock: u32,
    pub links: ClaimedLinks,
}

/// What is claimed of a section: the locks that are needed from each node on, by its number and the exit counted; those
/// to take at the entry; and why they are needed.
#[derive(Drop)]
pub struct Claims {
    pub nodes: Runs<Items<Lock>>,
    pub entry: Items<Lock>,
    pub chains: Items<ChainClaim>,
}
