//! What is said of a lost update.

ghost use Rattle.std.specs.{Prelude.{◌≡◌, ◌++◌, length, map, IfOk, OnOk}, String.{string_bytes}};
ghost use Rattle.sect_places.specs.Spans.{AreProper};
ghost use Rattle.sect_warnings.specs.{Warnings.{IsDueOf}, steps.Losing.{IsInSection}};
ghost use Rattle.sect_warnings.specs.Labels.{first_start as first_start_by, load_text, place_text};
ghost use Rattle.sect_warnings.specs.Labels.{lost_text as lost_text_by};

use crate::access::Access;
use crate::lost::LostUpdate;
use crate::remedy::Accepted;
use crate::warning::Finding;
use sect_emit::{Compiled, put_section_node};
use sect_places::{NameSpan, Position, position_of};
use std::alloc::{AllocError, Global};
use std::fmt::Write;

/// Where the first name of an item begins, or 0 where it has none.
fn first_start(names: &[NameSpan], item: usize) -> usize
    ensures { result ≡ first_start_by item names.now }
{
    for named in names {
        if named.used.item == item {
            return named.span.start;
        }
    }
    0
}

/// Adds a load and its section.
#[tactic(auto, unfolding(crate::specs::Labels::load_text))]
fn put_load(text: &mut String, compiled: &Compiled, load: &Access) -> Result<(), AllocError>
    requires { IsInSection compiled.now load.now }
    ensures { OnOk result (string_bytes text.new ≡ string_bytes text.old ++ load_text compiled.now load.now) }
{
    text.push_str("`")?;
    put_section_node(text, compiled, load.section, load.node as u32)?;
    let section = load.section;
    Ok(write!(text, "` in section {section}")?)
}

/// Adds where something stands.
#[tactic(auto, unfolding(crate::specs::Labels::place_text))]
fn put_place(text: &mut String, place: Position) -> Result<(), AllocError>
    ensures { OnOk result (string_bytes text.new ≡ string_bytes text.old ++ place_text place) }
{
    let Position { line, column } = place;
    Ok(write!(text, ", at {line}:{column}")?)
}

/// From which load the value comes that is stored, and where that stands.
pub fn lost_text(
    alloc: Global,
    accepted: Accepted<'_>,
    update: LostUpdate,
) -> Result<String, AllocError>
    requires due { IsDueOf accepted.compiled.now update.store.section (Finding.LostUpdate update) }
    requires names { AreProper (length accepted.source.now) (map (λ n. n.span) accepted.names.now) }
    ensures { IfOk result (λ text. string_bytes text ≡ lost_text_by accepted.entry.source.now
        accepted.entry.names.now accepted.entry.compiled.now update) }
{
    let at = first_start(accepted.names, update.load.item);
    let mut text = String::new(alloc);
    text.push_str("the value comes from ")?;
    put_load(&mut text, accepted.compiled, &update.load)?;
    put_place(&mut text, position_of(accepted.source, at))?;
    Ok(text)
}
