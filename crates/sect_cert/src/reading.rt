//! A text as a certificate.

ghost use Rattle.std.specs.Prelude.{◌≡◌, ◌≢◌, Err};
ghost use Rattle.sect_cert.specs.Texts.{HasText, certificate_text};
ghost use Rattle.sect_cert.specs.Verdicts.{is_old as old_text, Judges, Gives, Refuses};
ghost use Rattle.sect_cert.specs.steps.Closing.{is_finished_of, Closes, IsFaultOn, JudgesLines};

use crate::again::Lines;
use crate::certificate::Cert;
use crate::fault::{CertFault, LineFault};
use crate::known_paths::KnownPaths;
use crate::parts::Parts;
use crate::stage::{CertStage, read_line};
use std::alloc::Global;

/// Whether the last line has been read.
fn is_finished(stage: &CertStage) -> bool
    ensures { result ≡ is_finished_of stage.now }
{
    matches!(stage, CertStage::Finished(_))
}

/// The answer once no line feed is left: what stands behind the last one is on this line.
fn close(stage: CertStage, rest: &[u8], line: usize) -> Result<Cert, CertFault>
    ensures { Closes stage rest.now line result }
{
    match stage {
        CertStage::Finished(cert) => {
            if rest.is_empty() {
                Ok(cert)
            } else {
                Err(CertFault::NotCanonical { line })
            }
        }
        _ => Err(CertFault::CertEnd { line }),
    }
}

/// The fault of a text whose line of this number isn't taken.
fn fault_on(fault: LineFault, line: usize) -> CertFault
    ensures { IsFaultOn fault line result }
{
    match fault {
        LineFault::Memory => CertFault::Memory,
        LineFault::Bad => CertFault::BadCertLine { line },
        LineFault::Odd => CertFault::NotCanonical { line },
    }
}

/// Reads a text line by line; one of version 1 has a bad first line.
fn read_lines(paths: &mut KnownPaths, bytes: &[u8]) -> Result<Cert, CertFault>
    ensures { JudgesLines bytes.now result }
{
    let (mut text, mut others) = Parts::of(bytes, b'\n');
    let mut before = b"".as_slice();
    let mut stage = CertStage::Header;
    let mut line = 1usize;
    while let Some(next) = others.next_long() {
        if is_finished(&stage) {
            return Err(CertFault::NotCanonical { line });
        }
        stage = match read_line(paths, stage, Lines { before, text }) {
            Ok(stage) => stage,
            Err(fault) => return Err(fault_on(fault, line)),
        };
        before = text;
        text = next;
        line += 1;
    }
    close(stage, text, line)
}

/// Whether the first line is that of version 1.
fn is_old(bytes: &[u8]) -> bool
    ensures { result ≡ old_text bytes.now }
{
    bytes.starts_with(b"sect-cert 1\n")
}

/// Tells a text of version 1 from all others, and reads the others line by line.
fn judge(alloc: Global, bytes: &[u8]) -> Result<Cert, CertFault>
    ensures { Judges bytes.now result }
{
    if is_old(bytes) {
        return Err(CertFault::OldVersion);
    }
    let mut paths = KnownPaths::new(alloc);
    read_lines(&mut paths, bytes)
}

/// The certificate of which these bytes are the text, or why they are the text of none: the first line with which no
/// certificate's text goes on. `Memory` is answered only where a growth was refused, and none follows a number that the
/// text claims.
pub fn read_cert(alloc: Global, bytes: &[u8]) -> Result<Cert, CertFault>
    // A certificate that is given has this text, and a fault holds on its line.
    ensures judges { Judges bytes.now result }
    // A certificate that has this text is given, unless memory runs out.
    ensures only { (cert : Cert) → HasText cert → bytes.now ≡ certificate_text cert → Gives cert result }
    // A fault that the text has is the answer, unless memory runs out.
    ensures refuses { (fault : CertFault) → fault ≢ CertFault.Memory →
        Judges bytes.now (Err fault) → Refuses fault result }
{
    judge(alloc, bytes)
}
