//! Source texts: their programs, and the schemes of those that are accepted.

ghost use Rattle.std.specs.Prelude.{◌≡◌, IfOk, IfErr, IsOkUnless};
ghost use Rattle.sect_types.specs.Programs.{ProgramView};
ghost use Rattle.sect_names.specs.{declared.refusal.SourceRefusal.TheVariants.{Memory}, Schemes.{SchemeView}};
ghost use Rattle.sect_names.specs.Sources.{IsTypedText, IsAccepted, GivesProgram, IsRefused, IsDue};
ghost use Rattle.sect_names.specs.Refusals.{reason_of, IsKnown};

use crate::fault::SchemeFault;
use crate::refusal::SourceRefusal;
use crate::scheme::{MOST_PATH_FIELDS, Scheme, Unguarded, guard};
use sect_front::{PlacedFault, parse, parse_placed};
use sect_types::{Mistyped, Program, check_tree, check_types};
use std::alloc::Global;

/// Why a source text has no scheme, with what was known of it by then.
#[derive(Drop)]
pub enum Refused {
    /// No path may have so many fields.
    BadK,
    /// The text spells no tree: its fault, and where that stands.
    Front(PlacedFault),
    /// A rule of the types is broken: the fault, and the tree.
    Types(Mistyped),
    /// A rule of the hints is broken: the fault, and the program.
    Hints(Unguarded),
}

impl From<PlacedFault> for Refused {
    ghost use Rattle.std.specs.Prelude.{◌≡◌};
    ghost use Rattle.sect_names.specs.declared.source.Refused.TheVariants.{Front};

    ghost from_gives = { λ placed r. r ≡ Front placed };

    fn from(placed: PlacedFault) -> Refused {
        Refused::Front(placed)
    }
}

impl From<Mistyped> for Refused {
    ghost use Rattle.std.specs.Prelude.{◌≡◌};
    ghost use Rattle.sect_names.specs.declared.source.Refused.TheVariants.{Types};

    ghost from_gives = { λ mistyped r. r ≡ Types mistyped };

    fn from(mistyped: Mistyped) -> Refused {
        Refused::Types(mistyped)
    }
}

impl From<Unguarded> for Refused {
    ghost use Rattle.std.specs.Prelude.{◌≡◌};
    ghost use Rattle.sect_names.specs.declared.source.Refused.TheVariants.{Hints};

    ghost from_gives = { λ unguarded r. r ≡ Hints unguarded };

    fn from(unguarded: Unguarded) -> Refused {
        Refused::Hints(unguarded)
    }
}

impl Refused {
    /// The refusal alone.
    pub fn reason(self) -> SourceRefusal
        ensures { result ≡ reason_of self }
    {
        match self {
            Refused::BadK => SourceRefusal::Scheme(SchemeFault::BadK),
            Refused::Front(placed) => SourceRefusal::from(placed.fault),
            Refused::Types(mistyped) => SourceRefusal::from(mistyped.fault),
            Refused::Hints(unguarded) => SourceRefusal::from(unguarded.fault),
        }
    }
}

/// The scheme of a source text for paths of at most `k` fields, or the first refusal that is due, with what was known
/// of the text by then. How many fields a path may have is judged before the source; then the text, its types and its
/// hints, each once.
pub fn judge(alloc: Global, source: &[u8], k: u16) -> Result<Scheme, Refused>
    // The text is accepted, with this scheme.
    ensures accepted { IfOk result (IsAccepted source.now k) }
    // A text that is accepted is given its scheme, unless memory runs out.
    ensures only { (s : SchemeView) → IsAccepted source.now k s → IfErr result (λ r. reason_of r ≡ Memory) }
    // A refusal is due, and what is said to be known of the text is so.
    ensures known { IfErr result (IsKnown source.now k) }
{
    if k > MOST_PATH_FIELDS {
        return Err(Refused::BadK);
    }
    let tree = parse_placed(alloc, source)?;
    let program = check_tree(alloc, tree)?;
    let _facts = program.tree();
    let scheme = guard(alloc, program, k)?;
    scheme.facts();
    Ok(scheme)
}

/// The scheme of a source text for paths of at most `k` fields. How many fields a path may have is judged before the
/// source; then the first fault of the text, of its types or of its hints is answered. `Memory` is answered only where
/// a growth was refused.
pub fn accept(alloc: Global, source: &[u8], k: u16) -> Result<Scheme, SourceRefusal>
    // The text is accepted, with this scheme.
    ensures accepted { IfOk result (IsAccepted source.now k) }
    // A text that is accepted is given its scheme, unless memory runs out.
    ensures only { (s : SchemeView) → IsAccepted source.now k s → IsOkUnless result Memory }
    // A refusal is due, and it is the first that is.
    ensures refuses { IfErr result (IsDue source.now k) }
{
    match judge(alloc, source, k) {
        Ok(scheme) => Ok(scheme),
        Err(refused) => Err(refused.reason()),
    }
}

/// The program of a source text: the first fault of the text or of its types where it has none. `Memory` is answered
/// only where a growth was refused.
pub fn program_of(alloc: Global, source: &[u8]) -> Result<Program, SourceRefusal>
    ensures answers { IfOk result (IsTypedText source.now) }
    ensures only { (p : ProgramView) → IsTypedText source.now p → GivesProgram p result }
    ensures refuses { IfErr result (IsRefused source.now) }
{
    let tree = parse(alloc, source)?;
    let program = check_types(alloc, tree)?;
    let _facts = program.tree();
    Ok(program)
}
