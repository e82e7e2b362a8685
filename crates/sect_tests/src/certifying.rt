//! Certificates that are made of what is inferred, and what the checker says of them.

use crate::certificates::ADDS_ONE;
use crate::programs::{
    ACCOUNTS, ADDING, ALIASED, APART, CHAIN, EMPTY, EVERYTHING, GUARDED, LIST, NULL, SHARED,
    TWO_ADDING, printed,
};
use sect_cert::write_cert;
use sect_check::{CheckFault, check};
use sect_emit::{Compiled, compile};
use std::alloc::Global;
use std::process::Abort;
use std::test::Fail;

/// The text of a compiled program's certificate.
fn certificate_text(alloc: Global, compiled: &Compiled) -> Result<Vec<u8>, Fail> {
    let cert = compiled.certificate(alloc)?;
    Ok(write_cert(alloc, &cert)?)
}

/// The certificate of what is inferred of a text.
fn certificate(alloc: Global, source: &[u8], k: u16) -> Result<Vec<u8>, Fail> {
    certificate_text(alloc, &compile(alloc, source, k)?)
}

/// Programs whose sections need locks of all kinds.
const PROGRAMS: &[&[u8]] = &[
    EMPTY, ADDING, TWO_ADDING, LIST, SHARED, ALIASED, APART, NULL, CHAIN, GUARDED, ACCOUNTS,
    EVERYTHING,
];

/// The certificate of what is inferred of a text is valid.
fn is_valid(alloc: Global, source: &[u8], k: u16) -> Result<(), Fail> {
    let cert = certificate(alloc, source, k)?;
    Ok(check(alloc, source, k, cert.as_slice())?)
}

#[test]
fn what_is_inferred_is_valid(rt: HostRuntime) -> Result<(), Fail> {
    for source in PROGRAMS {
        for k in 0..4u16 {
            is_valid(rt.alloc(), source, k)?;
        }
    }
    Ok(())
}

#[test]
fn the_certificate_of_one_that_adds(rt: HostRuntime) -> Result<(), Fail> {
    let cert = certificate(rt.alloc(), ADDING, 2)?;
    assert!(rt; cert.as_slice() == ADDS_ONE);
    Ok(())
}

/// The fault is printed so.
fn is_printed(
    rt: &(impl Abort + AllocGlobal),
    fault: &CheckFault,
    wanted: &str,
) -> Result<(), Fail> {
    let text = printed(rt.alloc(), fault)?;
    assert!(rt; text.as_str() == wanted, "{text}");
    Ok(())
}

/// The bytes of a certificate are refused for the program that adds, and so.
fn refuses(
    rt: &(impl Abort + AllocGlobal),
    source: &[u8],
    cert: &[u8],
    wanted: &str,
) -> Result<(), Fail> {
    match check(rt.alloc(), source, 2, cert) {
        Ok(()) => Err(Fail::from("valid")),
        Err(fault) => is_printed(rt, &fault, wanted),
    }
}

#[test]
fn each_beginning_is_refused(rt: HostRuntime) -> Result<(), Fail> {
    for length in 0..ADDS_ONE.len() {
        let answer = check(rt.alloc(), ADDING, 2, &ADDS_ONE[..length]);
        assert!(rt; matches!(answer, Err(CheckFault::Text(_))), "{length}");
    }
    check(rt.alloc(), ADDING, 2, ADDS_ONE)?;
    Ok(())
}

/// Room for so many sections or nodes is more than the machine has: were it asked for, the answer would be that memory
/// is out.
#[test]
fn a_claimed_number_is_not_believed(rt: HostRuntime) -> Result<(), Fail> {
    let sections = b"sect-cert 2\nk 2\nsections 4294967295\n";
    refuses(&rt, ADDING, sections, "41 Text 31 CertEnd line 4")?;
    refuses(&rt, b"", sections, "41 Text 31 CertEnd line 4")?;
    let nodes = b"sect-cert 2\nk 2\nsections 1\nsection 0 nodes 4294967295\n";
    refuses(&rt, ADDING, nodes, "41 Text 31 CertEnd line 5")
}

/// A certificate says more than is inferred, and is valid all the same: a list of a node repeats a lock, and one that
/// lies under another stands in it.
#[test]
fn a_list_may_have_more(rt: HostRuntime) -> Result<(), Fail> {
    let cert =
        b"sect-cert 2\nk 2\nsections 1\nsection 0 nodes 4\nnode 0: R a, W a, W a\nnode 1: W a\n\
node 2: W a\nnode 3: none\nentry: W a\nchain 0: 0 W a > 1 W a > 2 W a\nend\n";
    check(rt.alloc(), ADDING, 2, cert)?;
    refuses(&rt, EMPTY, cert, "42 WrongProgram")
}
