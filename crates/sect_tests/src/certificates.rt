//! Certificates that are read and written back, and texts that are refused, each with its number and its line, both
//! counted by hand.

use crate::programs::printed;
use sect_cert::{
    Cert, CertBase, CertChain, CertFault, CertLock, CertPath, CertSection, CertStep, ChainSteps,
    Runs, SharedPath, read_cert, write_cert,
};
use sect_front::{Items, Name, is_name};
use std::alloc::{AllocError, Global};
use std::process::Abort;
use std::test::Fail;

/// The certificate of a section that adds one to a field of a global.
pub const ADDS_ONE: &[u8] =
    b"sect-cert 2\nk 2\nsections 1\nsection 0 nodes 4\nnode 0: W a\nnode 1: W a\nnode 2: W a\n\
node 3: none\nentry: W a\nchain 0: 0 W a > 1 W a > 2 W a\nend\n";

/// Every form of a lock, of a list and of a chain, sections of no node and of no chain, and numbers at their ends.
const ALL_FORMS: &[u8] =
    b"sect-cert 2\nk 4294967295\nsections 3\nsection 0 nodes 0\nentry: none\nsection 1 nodes 2\n\
node 0: R a, W _b.next.val9, R class 0, W class 4294967295, M class 10, R a\nnode 1: none\nentry: M class 1, R x0\n\
chain 0: 4294967295 M class 1\nchain 4294967295: 0 R x0 > 10 W class 7 > 2 R a.b.c.d.e\nsection 2 nodes 1\n\
node 0: W a\nentry: none\nend\n";

/// What a text is answered with: nothing where it is read, else the fault as it is printed.
fn answer(alloc: Global, text: &[u8]) -> Result<String, AllocError> {
    match read_cert(alloc, text) {
        Ok(_) => Ok(String::new(alloc)),
        Err(fault) => printed(alloc, &fault),
    }
}

fn answers(rt: &(impl Abort + AllocGlobal), text: &[u8], wanted: &str) -> Result<(), Fail> {
    let found = answer(rt.alloc(), text)?;
    assert!(rt; found.as_str() == wanted, "{found}");
    Ok(())
}

/// The two texts, one behind the other.
fn joined(alloc: Global, front: &[u8], rest: &[u8]) -> Result<Vec<u8>, AllocError> {
    let mut text = Vec::from_slice(alloc, front)?;
    text.extend_from_slice(rest)?;
    Ok(text)
}

/// What follows these lines is refused so.
fn refused_after(
    rt: &(impl Abort + AllocGlobal),
    front: &[u8],
    rest: &[u8],
    wanted: &str,
) -> Result<(), Fail> {
    answers(rt, joined(rt.alloc(), front, rest)?.as_slice(), wanted)
}

/// The certificate is written so.
fn writes(rt: &(impl Abort + AllocGlobal), cert: &Cert, wanted: &[u8]) -> Result<(), Fail> {
    let written = write_cert(rt.alloc(), cert)?;
    assert!(rt; written.as_slice() == wanted);
    Ok(())
}

/// What is read is written back.
fn reads_back(rt: &(impl Abort + AllocGlobal), text: &[u8]) -> Result<(), Fail> {
    match read_cert(rt.alloc(), text) {
        Ok(cert) => writes(rt, &cert, text),
        Err(_) => Err(Fail::from("refused")),
    }
}

/// Locks on everything, and on paths that begin with locals of calls.
const ALL_AND_CALLS: &[u8] =
    b"sect-cert 2\nk 2\nsections 1\nsection 0 nodes 2\nnode 0: W all, R t#3.next\n\
node 1: W t#0, W t#4294967295.a.b, W all\nentry: W all\nchain 0: 0 W all > 1 R x#10\nend\n";

/// Texts that are read, and written as they were.
const WRITTEN_BACK: &[&[u8]] = &[
    ADDS_ONE,
    ALL_FORMS,
    ALL_AND_CALLS,
    b"sect-cert 2\nk 0\nsections 0\nend\n",
];

#[test]
fn certificates_are_written_back(rt: HostRuntime) -> Result<(), Fail> {
    for text in WRITTEN_BACK {
        reads_back(&rt, text)?;
    }
    Ok(())
}

/// What stands at a place.
fn at<T>(items: &[T], place: usize) -> Result<&T, Fail> {
    match items.get(place) {
        Some(item) => Ok(item),
        None => Err(Fail::from("too short")),
    }
}

/// How many locks the list of a node has.
fn list_len(nodes: &Runs<Items<CertLock>>, node: usize) -> Result<usize, Fail> {
    if node < nodes.len() {
        Ok(nodes.at(node).len())
    } else {
        Err(Fail::from("too short"))
    }
}

/// The node and the lock of the step at an index.
fn step_at(steps: &ChainSteps, index: usize) -> Result<(u32, &CertLock), Fail> {
    if index < steps.len() {
        Ok((steps.node(index), steps.lock(index)))
    } else {
        Err(Fail::from("too short"))
    }
}

#[test]
fn a_certificate_is_read_as_what_it_says(rt: HostRuntime) -> Result<(), Fail> {
    match read_cert(rt.alloc(), ADDS_ONE) {
        Ok(cert) => says_it_adds_one(&rt, &cert),
        Err(_) => Err(Fail::from("refused")),
    }
}

/// The certificate says what `ADDS_ONE` does.
fn says_it_adds_one(rt: &impl Abort, cert: &Cert) -> Result<(), Fail> {
    assert_eq!(rt; cert.k, 2);
    assert_eq!(rt; cert.sections.len(), 1);
    let section = at(cert.sections.as_slice(), 0)?;
    assert_eq!(rt; section.nodes.len(), 4);
    assert_eq!(rt; list_len(&section.nodes, 2)?, 1);
    assert_eq!(rt; list_len(&section.nodes, 3)?, 0);
    assert_eq!(rt; section.entry.len(), 1);
    assert_eq!(rt; section.chains.len(), 1);
    leads_to_the_store(rt, at(section.chains.as_slice(), 0)?)
}

/// The chain is that of `ADDS_ONE`.
fn leads_to_the_store(rt: &impl Abort, chain: &CertChain) -> Result<(), Fail> {
    assert_eq!(rt; chain.lock, 0);
    assert_eq!(rt; chain.steps.len(), 3);
    let (node, lock) = step_at(&chain.steps, 2)?;
    assert_eq!(rt; node, 2);
    match lock {
        CertLock::WritePath(path) => {
            assert_eq!(rt; path.path().fields.len(), 0);
            match path.path().base {
                CertBase::Name(name) => {
                    assert!(rt; name.as_bytes() == b"a".as_slice());
                    Ok(())
                }
                CertBase::InCall(_, _) => Err(Fail::from("another base")),
            }
        }
        _ => Err(Fail::from("another lock")),
    }
}

/// The name that these bytes are.
fn name(bytes: &[u8]) -> Result<Name, Fail> {
    if is_name(bytes) {
        Ok(Name::new(bytes))
    } else {
        Err(Fail::from("not a name"))
    }
}

/// The list of one item.
fn of_one<T: Drop>(alloc: Global, item: T) -> Result<Items<T>, AllocError> {
    let mut items = Items::new(alloc);
    items.push(item)?;
    Ok(items)
}

/// A path of one field.
fn made_path(alloc: Global) -> Result<SharedPath, Fail> {
    let path = CertPath {
        base: CertBase::Name(name(b"head")?),
        fields: of_one(alloc, name(b"next")?)?,
    };
    Ok(SharedPath::new(alloc, path)?)
}

/// The lists of two nodes: a path and a class, and nothing.
fn made_nodes(alloc: Global) -> Result<Runs<Items<CertLock>>, Fail> {
    let mut list = of_one(alloc, CertLock::ReadPath(made_path(alloc)?))?;
    list.push(CertLock::MakeClass(3))?;
    let mut nodes = Runs::new(alloc);
    nodes.push(list)?;
    nodes.push(Items::new(alloc))?;
    Ok(nodes)
}

/// A chain of one step.
fn made_chains(alloc: Global) -> Result<Items<CertChain>, AllocError> {
    let step = CertStep {
        node: 0,
        lock: CertLock::ReadClass(7),
    };
    let mut steps = ChainSteps::new(alloc);
    steps.push(step)?;
    of_one(alloc, CertChain { lock: 2, steps })
}

/// A section of two nodes and a chain.
fn made_section(alloc: Global) -> Result<CertSection, Fail> {
    Ok(CertSection {
        nodes: made_nodes(alloc)?,
        entry: of_one(alloc, CertLock::WriteClass(10))?,
        chains: made_chains(alloc)?,
    })
}

/// A certificate of one section.
fn made(alloc: Global) -> Result<Cert, Fail> {
    let sections = of_one(alloc, made_section(alloc)?)?;
    Ok(Cert { k: 1, sections })
}

/// The text of that certificate.
const MADE: &[u8] =
    b"sect-cert 2\nk 1\nsections 1\nsection 0 nodes 2\nnode 0: R head.next, M class 3\nnode 1: none\n\
entry: W class 10\nchain 2: 0 R class 7\nend\n";

#[test]
fn a_certificate_that_is_made_is_written(rt: HostRuntime) -> Result<(), Fail> {
    writes(&rt, &made(rt.alloc())?, MADE)
}

/// A beginning of a certificate ends early, in the line in which it is cut.
fn ends_early(rt: &(impl Abort + AllocGlobal), front: &[u8]) {
    let feeds = front.iter().filter(|byte| **byte == b'\n').count();
    match read_cert(rt.alloc(), front) {
        Err(CertFault::CertEnd { line }) => assert!(rt; line == feeds.saturating_add(1)),
        _ => assert!(rt; false, "not an early end"),
    }
}

#[test]
fn each_beginning_ends_early(rt: HostRuntime) {
    for length in 0..ADDS_ONE.len() {
        ends_early(&rt, &ADDS_ONE[..length]);
    }
}

/// What may follow no end.
const BEHIND_THE_END: &[(&[u8], &str)] = &[
    (b"x", "32 NotCanonical line 12"),
    (b"\n", "32 NotCanonical line 12"),
    (b"end\n", "32 NotCanonical line 12"),
    (b"\xff", "32 NotCanonical line 12"),
];

/// Texts that are refused at one of their first lines, or behind it.
const FIRST_LINES: &[(&[u8], &str)] = &[
    (b"", "31 CertEnd line 1"),
    (b"sect-cert 2", "31 CertEnd line 1"),
    (b"sect-cert 2\r\n", "30 BadCertLine line 1"),
    (b"sect-cert 01\n", "30 BadCertLine line 1"),
    (b"sect-cert 3\n", "30 BadCertLine line 1"),
    (b"\n", "30 BadCertLine line 1"),
    (b"sect-cert 2\n", "31 CertEnd line 2"),
    (b"sect-cert 2\nk 2", "31 CertEnd line 2"),
    (b"sect-cert 2\nk 02\n", "32 NotCanonical line 2"),
    (b"sect-cert 2\nk 00\n", "32 NotCanonical line 2"),
    (b"sect-cert 2\nk 4294967296\n", "30 BadCertLine line 2"),
    (b"sect-cert 2\nk 04294967296\n", "30 BadCertLine line 2"),
    (b"sect-cert 2\nk 04294967295\n", "32 NotCanonical line 2"),
    (b"sect-cert 2\nk\n", "30 BadCertLine line 2"),
    (b"sect-cert 2\nk 1 \n", "30 BadCertLine line 2"),
    (b"sect-cert 2\nk -1\n", "30 BadCertLine line 2"),
    (b"sect-cert 2\nsections 01\n", "30 BadCertLine line 2"),
    (b"sect-cert 2\nk 2\nk 2\n", "30 BadCertLine line 3"),
];

/// What may stand after the line `k 2`, and is refused.
const SECTION_LINES: &[(&[u8], &str)] = &[
    (b"sections 4294967295\n", "31 CertEnd line 4"),
    (b"sections 4294967296\n", "30 BadCertLine line 3"),
    (b"sections 00\n", "32 NotCanonical line 3"),
    (b"sections 0\nsection 0 nodes 1\n", "30 BadCertLine line 4"),
    (b"sections 0\nend", "31 CertEnd line 4"),
    (b"sections 0\nend \n", "30 BadCertLine line 4"),
    (b"sections 0\nend\nx", "32 NotCanonical line 5"),
    (b"sections 0\nend\n\n", "32 NotCanonical line 5"),
    (b"sections 1\nend\n", "30 BadCertLine line 4"),
    (b"sections 1\nsection 1 nodes 1\n", "32 NotCanonical line 4"),
    (
        b"sections 1\nsection 00 nodes 1\n",
        "32 NotCanonical line 4",
    ),
    (
        b"sections 1\nsection 0 nodes 01\n",
        "32 NotCanonical line 4",
    ),
    (b"sections 1\nsection 0 node 1\n", "30 BadCertLine line 4"),
    (
        b"sections 1\nsection 0 nodes 4294967296\n",
        "30 BadCertLine line 4",
    ),
    (
        b"sections 1\nsection 0 nodes 0\nnode 0: none\n",
        "30 BadCertLine line 5",
    ),
    (
        b"sections 1\nsection 0 nodes 0\nend\n",
        "30 BadCertLine line 5",
    ),
    (
        b"sections 1\nsection 0 nodes 4294967295\n",
        "31 CertEnd line 5",
    ),
];

/// The lines before a section's two nodes.
const BEFORE_NODES: &[u8] = b"sect-cert 2\nk 2\nsections 1\nsection 0 nodes 2\n";

/// What may stand where two nodes are due, and is refused.
const NODE_LINES: &[(&[u8], &str)] = &[
    (b"node 1: none\n", "32 NotCanonical line 5"),
    (b"node 00: none\n", "32 NotCanonical line 5"),
    (b"node 0 none\n", "30 BadCertLine line 5"),
    (b"node 0:\n", "30 BadCertLine line 5"),
    (b"node 0: \n", "30 BadCertLine line 5"),
    (b"node 0: none\r\n", "30 BadCertLine line 5"),
    (b"node 0: none", "31 CertEnd line 5"),
    (b"node 0: R none\n", "31 CertEnd line 6"),
    (b"entry: none\n", "30 BadCertLine line 5"),
    (b"section 1 nodes 2\n", "30 BadCertLine line 5"),
    (b"node 0: R class 00\n", "32 NotCanonical line 5"),
    (b"node 0: W a, R class 01\n", "32 NotCanonical line 5"),
    // A name as long as it may be.
    (
        b"node 0: R a1234567890123456789012345678901\n",
        "31 CertEnd line 6",
    ),
    (b"node 0: none\nnode 0: none\n", "32 NotCanonical line 6"),
    (
        b"node 0: none\nnode 1: none\nnode 2: none\n",
        "30 BadCertLine line 7",
    ),
    (
        b"node 0: none\nnode 1: none\nend\n",
        "30 BadCertLine line 7",
    ),
    (
        b"node 0: none\nnode 1: none\nchain 0: 0 W a\n",
        "30 BadCertLine line 7",
    ),
];

/// Lines of a node whose list is none.
const NO_LISTS: &[(&[u8], &str)] = &[
    (b"node 0: none, R a\n", "30 BadCertLine line 5"),
    (b"node 0: R a, none\n", "30 BadCertLine line 5"),
    (b"node 0: R a,W b\n", "30 BadCertLine line 5"),
    (b"node 0: R a ,W b\n", "30 BadCertLine line 5"),
    (b"node 0: R a,\n", "30 BadCertLine line 5"),
    (b"node 0: R a, \n", "30 BadCertLine line 5"),
    (b"node 0: R a,, W b\n", "30 BadCertLine line 5"),
    (b"node 0: R  a\n", "30 BadCertLine line 5"),
    (b"node 0: R a W b\n", "30 BadCertLine line 5"),
    (b"node 0: X a\n", "30 BadCertLine line 5"),
    (b"node 0: M a\n", "30 BadCertLine line 5"),
    (b"node 0: R\n", "30 BadCertLine line 5"),
    (b"node 0: R class\n", "30 BadCertLine line 5"),
    (b"node 0: R class a\n", "30 BadCertLine line 5"),
    (b"node 0: R class 4294967296\n", "30 BadCertLine line 5"),
    (b"node 0: R int\n", "30 BadCertLine line 5"),
    (b"node 0: R a.class\n", "30 BadCertLine line 5"),
    (b"node 0: R a.\n", "30 BadCertLine line 5"),
    (b"node 0: R .a\n", "30 BadCertLine line 5"),
    (b"node 0: R a..b\n", "30 BadCertLine line 5"),
    (b"node 0: R 9a\n", "30 BadCertLine line 5"),
    (b"node 0: R a.01\n", "30 BadCertLine line 5"),
    (b"node 0: R a# 1\n", "30 BadCertLine line 5"),
    (
        b"node 0: R a12345678901234567890123456789012\n",
        "30 BadCertLine line 5",
    ),
];

/// The lines before a section's chains.
const BEFORE_CHAINS: &[u8] =
    b"sect-cert 2\nk 2\nsections 1\nsection 0 nodes 1\nnode 0: none\nentry: W a\n";

/// What may stand where a chain is due, and is refused.
const CHAIN_LINES: &[(&[u8], &str)] = &[
    (b"chain 0:\n", "30 BadCertLine line 7"),
    (b"chain 0: 0 W a >\n", "30 BadCertLine line 7"),
    (b"chain 0: 0 W a > 1 W\n", "30 BadCertLine line 7"),
    (b"chain 0: 0 W a, 1 W a\n", "30 BadCertLine line 7"),
    (b"chain 0: 0 W a>1 W a\n", "30 BadCertLine line 7"),
    (b"chain 0: 0 none\n", "30 BadCertLine line 7"),
    (b"chain 0: W a\n", "30 BadCertLine line 7"),
    (b"chain 0: 4294967296 W a\n", "30 BadCertLine line 7"),
    (b"chain 0: 00 W a\n", "32 NotCanonical line 7"),
    (b"chain 00: 0 W a\n", "32 NotCanonical line 7"),
    (b"chain 0: 0 W a > 01 W a\n", "32 NotCanonical line 7"),
    (
        b"chain 0: 0 W a\nchain 0: 0 W a\n",
        "32 NotCanonical line 8",
    ),
    (
        b"chain 1: 0 W a\nchain 0: 0 W a\n",
        "32 NotCanonical line 8",
    ),
    (
        b"chain 4294967295: 0 W a\nchain 5: 0 W a\n",
        "32 NotCanonical line 8",
    ),
    (b"section 1 nodes 0\n", "30 BadCertLine line 7"),
    (b"entry: none\n", "30 BadCertLine line 7"),
    (b"node 1: none\n", "30 BadCertLine line 7"),
    (b"end\nend\n", "32 NotCanonical line 8"),
];

#[test]
fn want_of_memory_is_printed(rt: HostRuntime) -> Result<(), Fail> {
    let text = printed(rt.alloc(), &CertFault::Memory)?;
    assert!(rt; text.as_str() == "out of memory");
    Ok(())
}

// Version 2: everything locked, locals of calls, and the first line of version 1.

/// The first line of version 1, and what is near it.
const VERSION_ONE: &[(&[u8], &str)] = &[
    (b"sect-cert 1\n", "33 OldVersion line 1"),
    (b"sect-cert 1\nk 2\n", "33 OldVersion line 1"),
    (b"sect-cert 1\nk 02\n", "33 OldVersion line 1"),
    (b"sect-cert 1\n\xff", "33 OldVersion line 1"),
    (b"sect-cert 1", "31 CertEnd line 1"),
    (b"sect-cert 1 \n", "30 BadCertLine line 1"),
    (b"sect-cert 10\n", "30 BadCertLine line 1"),
    (b"sect-cert 3\n", "30 BadCertLine line 1"),
    (b"\nsect-cert 1\n", "30 BadCertLine line 1"),
];

#[test]
fn a_whole_certificate_of_version_one_is_refused(rt: HostRuntime) -> Result<(), Fail> {
    refused_after(&rt, b"sect-cert 1", &ADDS_ONE[11..], "33 OldVersion line 1")
}

/// Lists with locks of everything and of locals of calls.
const EVERYTHING_AND_CALLS: &[(&[u8], &str)] = &[
    (b"node 0: W all, R t#3.next\n", "31 CertEnd line 6"),
    (b"node 0: R all\n", "30 BadCertLine line 5"),
    (b"node 0: M all\n", "30 BadCertLine line 5"),
    (b"node 0: W all.next\n", "30 BadCertLine line 5"),
    (b"node 0: W a.all\n", "30 BadCertLine line 5"),
    (b"node 0: W all#1\n", "30 BadCertLine line 5"),
    (b"node 0: W alls\n", "31 CertEnd line 6"),
    (b"node 0: R t#03\n", "32 NotCanonical line 5"),
    (b"node 0: R t#00.next\n", "32 NotCanonical line 5"),
    (b"node 0: R t#\n", "30 BadCertLine line 5"),
    (b"node 0: R #3\n", "30 BadCertLine line 5"),
    (b"node 0: R t#3#4\n", "30 BadCertLine line 5"),
    (b"node 0: R t.f#3\n", "30 BadCertLine line 5"),
    (b"node 0: R t#a\n", "30 BadCertLine line 5"),
    (b"node 0: R t#4294967296\n", "30 BadCertLine line 5"),
    (b"node 0: R t#04294967296\n", "30 BadCertLine line 5"),
];

/// What follows these lines is refused so, row by row.
fn all_refused_after(
    rt: &(impl Abort + AllocGlobal),
    front: &[u8],
    rows: &[(&[u8], &str)],
) -> Result<(), Fail> {
    for (rest, wanted) in rows {
        refused_after(rt, front, rest, wanted)?;
    }
    Ok(())
}

#[test]
fn nothing_follows_the_end(rt: HostRuntime) -> Result<(), Fail> {
    all_refused_after(&rt, ADDS_ONE, BEHIND_THE_END)
}

#[test]
fn first_lines_are_refused(rt: HostRuntime) -> Result<(), Fail> {
    all_refused_after(&rt, b"", FIRST_LINES)
}

#[test]
fn lines_of_sections_are_refused(rt: HostRuntime) -> Result<(), Fail> {
    all_refused_after(&rt, b"sect-cert 2\nk 2\n", SECTION_LINES)
}

#[test]
fn lines_of_nodes_are_refused(rt: HostRuntime) -> Result<(), Fail> {
    all_refused_after(&rt, BEFORE_NODES, NODE_LINES)
}

#[test]
fn what_is_no_list_is_refused(rt: HostRuntime) -> Result<(), Fail> {
    all_refused_after(&rt, BEFORE_NODES, NO_LISTS)
}

#[test]
fn lines_of_chains_are_refused(rt: HostRuntime) -> Result<(), Fail> {
    all_refused_after(&rt, BEFORE_CHAINS, CHAIN_LINES)
}

#[test]
fn version_one_is_refused(rt: HostRuntime) -> Result<(), Fail> {
    all_refused_after(&rt, b"", VERSION_ONE)
}

#[test]
fn locks_of_everything_and_of_calls_are_refused(rt: HostRuntime) -> Result<(), Fail> {
    all_refused_after(&rt, BEFORE_NODES, EVERYTHING_AND_CALLS)
}
