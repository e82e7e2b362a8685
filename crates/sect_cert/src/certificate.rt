//! What a certificate says. It knows no program: its lists stand in any order, and may repeat a lock.

use crate::chain_steps::ChainSteps;
use crate::lock::CertLock;
use crate::runs::Runs;
use sect_front::Items;

/// A node, by its number, and a lock that is needed from there on.
#[derive(Drop)]
pub struct CertStep {
    /// The node, by its number in the section.
    pub node: u32,
    /// The lock that is needed from there on.
    pub lock: CertLock,
}

/// Why a lock of the entry list, by its number there, is needed: steps from the entry to where it is generated.
#[derive(Drop)]
pub struct CertChain {
    /// The lock, by its number in the entry list.
    pub lock: u32,
    /// At least one where the certificate has a text.
    pub steps: ChainSteps,
}

/// What is said of one section.
pub struct CertSection {
    /// For each node, by number and the exit counted, the locks that are needed from there on.
    pub nodes: Runs<Items<CertLock>>,
    /// The locks to take at the entry.
    pub entry: Items<CertLock>,
    /// The chains, by rising numbers where the certificate has a text.
    pub chains: Items<CertChain>,
}

impl Drop for CertSection {
    fn drop(self) {
        let CertSection {
            nodes: _,
            entry: _,
            chains: _,
        } = self;
    }
}

/// A certificate: what was inferred for each section, and why.
#[derive(Drop)]
pub struct Cert {
    /// The most fields of a path that was inferred.
    pub k: u32,
    /// The sections, by number.
    pub sections: Items<CertSection>,
}
