//! A certificate, line by line.

ghost use Rattle.std.specs.Prelude.{◌≡◌};
ghost use Rattle.sect_cert.specs.steps.{Again.{IsAfter}, Certificates.{is_rising}};
ghost use Rattle.sect_cert.specs.steps.Stages.{GoesTo, ClosesTo, begin_of, close_of, node_of, chain_of, stage_of};
ghost use Rattle.sect_cert.specs.steps.Stages.{later_of, header_of, read_of, is_header_due};

use crate::again::{Lines, is_next};
use crate::certificate::{Cert, CertChain, CertSection};
use crate::fault::LineFault;
use crate::known_paths::KnownPaths;
use crate::line::{CertLine, line_of};
use crate::lock::CertLock;
use crate::runs::Runs;
use crate::zeros::{is_exact, without_zeros};
use sect_front::Items;
use std::alloc::Global;

/// The sections that are whole, and how many there are to be.
#[derive(Drop)]
pub struct Open {
    /// The number k of the second line.
    pub k: u32,
    /// How many sections there are to be.
    pub count: u32,
    /// The sections that are whole, by number.
    pub done: Items<CertSection>,
}

/// What has been read.
#[derive(Drop)]
pub enum CertStage {
    /// Nothing.
    Header,
    /// The first line.
    K,
    /// The lines before the number of sections.
    Count(u32),
    /// The lines before the first section.
    Between(Open),
    /// A section's first line, with its number of nodes, and lists of nodes.
    Nodes(Open, u32, Runs<Items<CertLock>>),
    /// A section's entry list, and chains.
    Chains(Open, CertSection),
    /// The whole.
    Finished(Cert),
}

/// Takes the line of the next section, or the end.
fn begin(alloc: Global, begun: Open, line: CertLine) -> Result<CertStage, LineFault>
    ensures { GoesTo result (begin_of begun line) }
{
    let here = begun.done.len();
    let more = here < begun.count as usize;
    match line {
        CertLine::Section(section, nodes) => {
            if !more {
                Err(LineFault::Bad)
            } else if section as usize == here {
                Ok(CertStage::Nodes(begun, nodes, Runs::new(alloc)))
            } else {
                Err(LineFault::Odd)
            }
        }
        CertLine::End => {
            if more {
                Err(LineFault::Bad)
            } else {
                Ok(CertStage::Finished(Cert {
                    k: begun.k,
                    sections: begun.done,
                }))
            }
        }
        _ => Err(LineFault::Bad),
    }
}

/// The sections with one more.
fn close(begun: Open, section: CertSection) -> Result<Open, LineFault>
    ensures { ClosesTo result (close_of begun section) }
{
    let Open { k, count, mut done } = begun;
    done.push(section)?;
    Ok(Open { k, count, done })
}

/// Takes a line of a node, or the entry list.
fn node(
    alloc: Global,
    begun: Open,
    count: u32,
    mut lists: Runs<Items<CertLock>>,
    line: CertLine,
) -> Result<CertStage, LineFault>
    ensures { GoesTo result (node_of begun count lists line) }
{
    let here = lists.len();
    let more = here < count as usize;
    match line {
        CertLine::Node(number, locks) => {
            if !more {
                Err(LineFault::Bad)
            } else if number as usize == here {
                lists.push(locks)?;
                Ok(CertStage::Nodes(begun, count, lists))
            } else {
                Err(LineFault::Odd)
            }
        }
        CertLine::Entry(entry) => {
            if more {
                return Err(LineFault::Bad);
            }
            let section = CertSection {
                nodes: lists,
                entry,
                chains: Items::new(alloc),
            };
            Ok(CertStage::Chains(begun, section))
        }
        _ => Err(LineFault::Bad),
    }
}

/// Whether a chain of this number may come after these.
fn rises(chains: &[CertChain], lock: u32) -> bool
    ensures { result ≡ is_rising chains.now lock }
{
    match chains.last() {
        Some(chain) => chain.lock < lock,
        None => true,
    }
}

/// Takes a chain, or what comes after the last chain of a section.
fn chain(
    alloc: Global,
    begun: Open,
    mut section: CertSection,
    line: CertLine,
) -> Result<CertStage, LineFault>
    ensures { GoesTo result (chain_of begun section line) }
{
    match line {
        CertLine::Chain(chain) => {
            if rises(section.chains.as_slice(), chain.lock) {
                section.chains.push(chain)?;
                Ok(CertStage::Chains(begun, section))
            } else {
                Err(LineFault::Odd)
            }
        }
        other => begin(alloc, close(begun, section)?, other),
    }
}

/// Takes one more line after the first.
fn take_line(alloc: Global, stage: CertStage, line: CertLine) -> Result<CertStage, LineFault>
    ensures { GoesTo result (stage_of stage line) }
{
    match stage {
        CertStage::Header => Err(LineFault::Bad),
        CertStage::K => match line {
            CertLine::K(k) => Ok(CertStage::Count(k)),
            _ => Err(LineFault::Bad),
        },
        CertStage::Count(k) => match line {
            CertLine::Sections(count) => {
                let done = Items::new(alloc);
                Ok(CertStage::Between(Open { k, count, done }))
            }
            _ => Err(LineFault::Bad),
        },
        CertStage::Between(begun) => begin(alloc, begun, line),
        CertStage::Nodes(begun, count, lists) => node(alloc, begun, count, lists, line),
        CertStage::Chains(begun, section) => chain(alloc, begun, section, line),
        CertStage::Finished(_) => Err(LineFault::Bad),
    }
}

/// Whether the first line is still to come.
fn is_header(stage: &CertStage) -> bool
    ensures { result ≡ is_header_due stage.now }
{
    matches!(stage, CertStage::Header)
}

/// Takes the text of the first line.
fn header(text: &[u8]) -> Result<CertStage, LineFault>
    ensures { GoesTo result (header_of text.now) }
{
    if text == b"sect-cert 2".as_slice() {
        Ok(CertStage::K)
    } else {
        Err(LineFault::Bad)
    }
}

/// Takes the text of a line after the first, and reads all of it. One with leading zeros is read without them, and then
/// refused.
#[tactic(auto, using(crate::proofs::ZerosLemmas::plain_exact))]
fn whole(paths: &mut KnownPaths, stage: CertStage, text: &[u8]) -> Result<CertStage, LineFault>
    ensures { GoesTo result (later_of stage text.now) }
{
    if is_exact(text) {
        let line = line_of(paths, text)?;
        return take_line(paths.alloc(), stage, line);
    }
    let plain = without_zeros(paths.alloc(), text)?;
    let line = line_of(paths, plain.as_slice())?;
    take_line(paths.alloc(), stage, line)?;
    Err(LineFault::Odd)
}

/// Takes the text of a line in a section's nodes. The list of the node before isn't read again.
fn behind_nodes(
    paths: &mut KnownPaths,
    begun: Open,
    count: u32,
    mut lists: Runs<Items<CertLock>>,
    lines: Lines<'_>,
) -> Result<CertStage, LineFault>
    requires { IsAfter (CertStage.Nodes begun count lists) lines.before.now }
    ensures { GoesTo result (later_of (CertStage.Nodes begun count lists) lines.entry.text.now) }
{
    let here = lists.len();
    if 0 < here && here < count as usize && is_next(lines, here) {
        lists.push_again()?;
        return Ok(CertStage::Nodes(begun, count, lists));
    }
    whole(paths, CertStage::Nodes(begun, count, lists), lines.text)
}

/// Takes the text of a line after the first.
fn later(paths: &mut KnownPaths, stage: CertStage, lines: Lines<'_>) -> Result<CertStage, LineFault>
    requires { IsAfter stage lines.before.now }
    ensures { GoesTo result (later_of stage lines.entry.text.now) }
{
    match stage {
        CertStage::Nodes(begun, count, lists) => behind_nodes(paths, begun, count, lists, lines),
        other => whole(paths, other, lines.text),
    }
}

/// Takes the text of one more line.
pub fn read_line(
    paths: &mut KnownPaths,
    stage: CertStage,
    lines: Lines<'_>,
) -> Result<CertStage, LineFault>
    requires { IsAfter stage lines.before.now }
    ensures { GoesTo result (read_of stage lines.entry.text.now) }
{
    if is_header(&stage) {
        header(lines.text)
    } else {
        later(paths, stage, lines)
    }
}
