//! The checker.

ghost use Rattle.std.specs.Prelude.{◌≡◌, ◌<◌, List, length, IfOk, IsOkUnless};
ghost use Rattle.sect_types.specs.{Sections.{SectionView, sections_of}, Sight.{names_of_globals}};
ghost use Rattle.sect_graph.specs.declared.flow.Node.{Node};
ghost use Rattle.sect_cert.specs.Texts.{HasText};
ghost use Rattle.sect_check.specs.{declared.fault.CheckFault.TheVariants.{Memory}, Meaning.{IsSectionAt, DenotesAll}};
ghost use Rattle.sect_check.specs.{Valid.{IsValid, AreEntriesLeast}, Verdicts.{IsRead, Judges}};
ghost use Rattle.sect_check.specs.steps.Resolving.{Resolves, DenotesAt};
ghost use Rattle.sect_check.specs.steps.Shapes.{HaveShape, AreLawfulLists, AreLawfulChains};
ghost use Rattle.sect_check.specs.steps.Parts.{JudgesAt, JudgesCert};

use crate::claiming::claims_of;
use crate::claims::Claims;
use crate::fault::{CheckFault, of_section};
use crate::judged::Judged;
use crate::naming::Naming;
use crate::section::judge_section;
use crate::unresolved::Unresolved;
use indexmap::IndexSet;
use sect_cert::{Cert, CertSection, read_cert};
use sect_front::{Items, Name};
use sect_hints::names_of;
use sect_names::{Scheme, accept};
use std::alloc::Global;

/// What a certificate claims of the section of this number.
fn claims_at(
    alloc: Global,
    scheme: &Scheme,
    globals: &IndexSet<Name>,
    sections: &[CertSection],
    number: u16,
) -> Result<Claims, Unresolved>
    requires globals { globals.now.keys ≡ names_of_globals scheme.now.program.source.globals }
    requires section { number < length (sections_of scheme.now.program.texts) }
    requires there { number < length sections.now }
    ensures { Resolves result (DenotesAt scheme.now sections.now number) }
{
    scheme.facts();
    scheme.program().facts();
    let thread = scheme.program().section(number).thread;
    let flow = scheme.graph().section(number);
    let naming = Naming::new(scheme, globals, thread);
    claims_of(alloc, &naming, flow, &sections[number as usize])
}

/// What a certificate claims of each section of a program.
fn all_claims(alloc: Global, scheme: &Scheme, cert: &Cert) -> Result<Items<Claims>, Unresolved>
    ensures { Resolves result (DenotesAll scheme.now cert.now) }
{
    scheme.facts();
    scheme.program().facts();
    let count = scheme.program().section_count();
    if cert.k != scheme.k() as u32 || cert.sections.len() != count as usize {
        return Err(Unresolved::Wrong);
    }
    let tree = scheme.program().tree();
    let globals = names_of(alloc, tree.globals())?;
    let mut all = Vec::new(alloc);
    for section in 0..count {
        all.push(claims_at(alloc, scheme, &globals, cert.sections.as_slice(), section)?)?;
    }
    Ok(Items::from_vec(all))
}

/// Whether what is claimed of the section of this number is right.
fn judge_at(alloc: Global, scheme: &Scheme, claims: &Claims, number: u16) -> Result<(), CheckFault>
    requires section { number < length (sections_of scheme.now.program.texts) }
    requires shape { (of : SectionView) (g : List Node) → IsSectionAt scheme.now number of g → HaveShape g claims.now }
    requires lawful { (of : SectionView) (g : List Node) → IsSectionAt scheme.now number of g
        → AreLawfulLists scheme.now of.thread claims.now }
    requires chains { (of : SectionView) (g : List Node) → IsSectionAt scheme.now number of g
        → AreLawfulChains scheme.now of.thread claims.now.chains }
    ensures { JudgesAt scheme.now number claims.now result }
{
    scheme.facts();
    let thread = scheme.program().section(number).thread;
    let locking = scheme.program().locking(number);
    let flow = scheme.graph().section(number);
    let section = Judged {
        scheme,
        thread,
        locking,
        flow,
    };
    match judge_section(alloc, section, claims) {
        Ok(()) => Ok(()),
        Err(fault) => Err(of_section(number, fault)),
    }
}

/// Whether a certificate that has a text is valid for a program: else its first fault.
fn judge_cert(alloc: Global, scheme: &Scheme, cert: &Cert) -> Result<(), CheckFault>
    requires { HasText cert.now }
    ensures { JudgesCert scheme.now cert.now result }
{
    scheme.facts();
    let all = match all_claims(alloc, scheme, cert) {
        Ok(all) => all,
        Err(Unresolved::Memory) => return Err(CheckFault::Memory),
        Err(Unresolved::Wrong) => return Err(CheckFault::WrongProgram),
    };
    let claims = all.as_slice();
    for section in 0..scheme.program().section_count() {
        judge_at(alloc, scheme, &claims[section as usize], section)?;
    }
    Ok(())
}

/// Whether these bytes are the text of a certificate that is valid for a source text and paths of at most `k` fields:
/// else the first fault. The source is judged before the bytes, those before what the certificate says, and that
/// section by section. `Memory` is answered only where a growth was refused, and none follows a number that the
/// certificate merely claims.
pub fn check(alloc: Global, source: &[u8], k: u16, cert: &[u8]) -> Result<(), CheckFault>
    // The certificate is valid, or the fault is the first that is there.
    ensures judges { Judges source.now k cert.now result }
    // A valid certificate is never refused, unless memory runs out.
    ensures only { IsRead source.now k cert.now IsValid → IsOkUnless result Memory }
    // The entry lists of a certificate that isn't refused are the least lock sets of the sections.
    ensures least { IfOk result (λ _. IsRead source.now k cert.now AreEntriesLeast) }
{
    let scheme = accept(alloc, source, k)?;
    let read = read_cert(alloc, cert)?;
    judge_cert(alloc, &scheme, &read)
}
