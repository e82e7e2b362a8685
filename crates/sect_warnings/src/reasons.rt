//! Chains that are kept from one warning of a section to its next.

ghost use Rattle.std.specs.Prelude.{◌≡◌, ◌<◌, IfOk, IfSome, length};
ghost use Rattle.sect_types.specs.Sections.{sections_of};
ghost use Rattle.sect_warnings.specs.steps.Reasons.{AreReasons};

use sect_chains::Chain;
use sect_emit::{Compiled, section_chains};
use std::alloc::{AllocError, Global};
use std::marker::Model;

/// The chains of a section: for each of its locks, in order, the steps to where it is needed.
#[derive(Drop)]
pub struct Reasons {
    pub section: u16,
    pub chains: Vec<Chain>,
}

impl Model for Reasons {
    ghost use Rattle.std.specs.Coded.{codes};
    ghost use Rattle.sect_points.specs.Paths.{path_code};
    ghost use Rattle.sect_warnings.specs.steps.Reasons.{ReasonsView};

    ghost Value = { ReasonsView };

    ghost coded = { Prim.hlevel (codes, path_code) };

    ghost view = { λ r. record { section = r.section; chains = r.chains.items } };
}

/// The chains of a section: those that are kept, if they are its own.
pub fn reasons_of(
    alloc: Global,
    compiled: &Compiled,
    section: u16,
    kept: Option<Reasons>,
) -> Result<Reasons, AllocError>
    requires section { section < length (sections_of compiled.now.scheme.program.texts) }
    requires kept { IfSome kept (AreReasons compiled.now) }
    ensures own { IfOk result (λ r. r.section ≡ section) }
    ensures kept { IfOk result (AreReasons compiled.now) }
{
    match kept {
        Some(reasons) if reasons.section == section => Ok(reasons),
        _ => {
            let chains = section_chains(alloc, compiled, section)?;
            Ok(Reasons { section, chains })
        }
    }
}
