//! Certificates with long texts.

use crate::failure::Failure;
use sect_cert::{
    Cert, CertBase, CertChain, CertFault, CertLock, CertPath, CertSection, CertStep, ChainSteps,
    Runs, SharedPath, read_cert, write_cert,
};
use sect_front::{Items, Name};
use std::alloc::{AllocError, Global};

/// How many nodes a section has, and how many steps a chain.
const NODES: u32 = 8;

/// Makes a certificate of so many sections, whose lists have so many locks with a chain for each lock at the entry,
/// writes it, reads it back and writes that again. It gives how many bytes were written, and whether they were the same
/// both times.
pub fn written_twice(alloc: Global, sections: u32, locks: u32) -> Result<(usize, bool), Failure> {
    let text = written(alloc, sections, locks)?;
    let again = written_again(alloc, text.as_slice())?;
    Ok((text.len(), text.as_slice() == again.as_slice()))
}

/// The text of a certificate of so many sections, whose lists have so many locks.
fn written(alloc: Global, sections: u32, locks: u32) -> Result<Vec<u8>, AllocError> {
    let cert = certificate(alloc, sections, locks)?;
    write_cert(alloc, &cert)
}

/// The text of the certificate that is read from a text.
fn written_again(alloc: Global, text: &[u8]) -> Result<Vec<u8>, Failure> {
    let cert = read_cert(alloc, text)?;
    Ok(write_cert(alloc, &cert)?)
}

/// A certificate of so many sections, whose lists have so many locks.
fn certificate(alloc: Global, count: u32, locks: u32) -> Result<Cert, AllocError> {
    let mut sections = Items::new(alloc);
    for _ in 0..count {
        sections.push(section(alloc, locks)?)?;
    }
    Ok(Cert { k: 3, sections })
}

/// A section of `NODES` nodes, whose lists have so many locks.
fn section(alloc: Global, locks: u32) -> Result<CertSection, AllocError> {
    let mut nodes = Runs::new(alloc);
    for _ in 0..NODES {
        nodes.push(list(alloc, locks)?)?;
    }
    Ok(CertSection {
        nodes,
        entry: list(alloc, locks)?,
        chains: chains(alloc, locks)?,
    })
}

/// So many locks, the forms in turn.
fn list(alloc: Global, count: u32) -> Result<Items<CertLock>, AllocError> {
    let mut locks = Items::new(alloc);
    for number in 0..count {
        locks.push(lock(alloc, number)?)?;
    }
    Ok(locks)
}

/// A chain for each lock of a list.
fn chains(alloc: Global, count: u32) -> Result<Items<CertChain>, AllocError> {
    let mut chains = Items::new(alloc);
    for number in 0..count {
        chains.push(CertChain {
            lock: number,
            steps: steps(alloc, number)?,
        })?;
    }
    Ok(chains)
}

/// A step at each node, with the lock of this number.
fn steps(alloc: Global, number: u32) -> Result<ChainSteps, AllocError> {
    let mut steps = ChainSteps::new(alloc);
    for node in 0..NODES {
        steps.push(CertStep {
            node,
            lock: lock(alloc, number)?,
        })?;
    }
    Ok(steps)
}

/// The lock of a number.
fn lock(alloc: Global, number: u32) -> Result<CertLock, AllocError> {
    Ok(match number % 5 {
        0 => CertLock::ReadPath(path(alloc, number)?),
        1 => CertLock::WritePath(path(alloc, number)?),
        2 => CertLock::ReadClass(number),
        3 => CertLock::WriteClass(number),
        _ => CertLock::MakeClass(number),
    })
}

/// A path of no field to three, by the number.
fn path(alloc: Global, number: u32) -> Result<SharedPath, AllocError> {
    let mut fields = Items::new(alloc);
    for _ in 0..number % 4 {
        fields.push(Name::new(b"next"))?;
    }
    let path = CertPath {
        base: CertBase::Name(Name::new(b"first_of_the_list")),
        fields,
    };
    Ok(SharedPath::new(alloc, path)?)
}
