//! The command `check` over memory.

use super::answer_of;
use std::process::Abort;
use std::sync::Wait;
use std::test::Fail;
use std::thread::Threads;
use std::time::{Clock, CpuClock};

/// A program whose section adds one to a field of a global.
const ADDING: &str = "record Acct { int bal; }
global Acct a;
thread p { int t; atomic { t = a.bal; t = t + 1; a.bal = t; } }
";

/// A certificate of the program, as a whole.
const CERTIFICATE: &[u8] =
    b"sect-cert 2\nk 2\nsections 1\nsection 0 nodes 4\nnode 0: W a\nnode 1: W a\nnode 2: W a\n\
    node 3: none\nentry: W a\nchain 0: 0 W a > 1 W a > 2 W a\nend\n";

/// The bytes before a program are no certificate.
fn expect_no_certificate(
    rt: &(impl Threads + Wait + Sync + Clock + CpuClock + AllocGlobal + Abort),
    bytes: &[u8],
) -> Result<(), Fail> {
    let mut input = Vec::from_slice(rt.alloc(), bytes)?;
    input.extend_from_slice(ADDING.as_bytes())?;
    let (status, text) = answer_of(rt, "check", input.as_slice())?;
    assert_eq!(rt; status, 1, "{text}");
    assert!(rt; text.as_str().starts_with("refused 41 Text "), "{text}");
    Ok(())
}

#[test]
fn each_beginning_before_the_program_is_refused(rt: HostRuntime) -> Result<(), Fail> {
    for length in 0..CERTIFICATE.len() {
        expect_no_certificate(&rt, &CERTIFICATE[..length])?;
    }
    Ok(())
}
