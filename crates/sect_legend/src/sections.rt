//! What stands behind the number of a section.

ghost use Rattle.std.specs.{Prelude.{◌≡◌, ◌<◌, ◌++◌, OnOk, length}, String.{string_bytes}};
ghost use Rattle.sect_types.specs.Sections.{sections_of};
ghost use Rattle.sect_emit.specs.{Compiled.{program_of}, Explaining.{section_at}, Labels.{thread_name}};
ghost use Rattle.sect_legend.specs.Legend.{ArePlaced, mark_of, section_mark};

use crate::places::{Places, put_spot};
use sect_emit::{Compiled, put_thread_name};
use std::alloc::AllocError;

/// The thread of a section.
fn thread_of(compiled: &Compiled, section: u16) -> u16
    requires { section < length (sections_of (program_of compiled.now).texts) }
    ensures thread { result ≡ (section_at compiled.now section).thread }
    ensures within { result < length (program_of compiled.now).texts }
{
    compiled.scheme().program().section(section).thread
}

/// Adds the name of a section's thread.
fn put_thread(text: &mut String, compiled: &Compiled, section: u16) -> Result<(), AllocError>
    requires { section < length (sections_of (program_of compiled.now).texts) }
    ensures { OnOk result (string_bytes text.new ≡ string_bytes text.old
        ++ thread_name (program_of compiled.now).source (section_at compiled.now section).thread) }
{
    let thread = thread_of(compiled, section);
    put_thread_name(text, compiled.scheme().program(), thread)
}

/// Adds the thread of a section, and where the section stands.
pub fn put_section(text: &mut String, places: &Places<'_>, section: u16) -> Result<(), AllocError>
    requires placed { ArePlaced places.now }
    requires section { section < length (sections_of (program_of places.now.compiled.now).texts) }
    ensures { OnOk result (string_bytes text.new ≡ string_bytes text.old ++ section_mark places.now.compiled.now
        (mark_of places.now) places.now.source.now places.now.spans.now.heads section) }
{
    text.push_str("thread ")?;
    put_thread(text, places.compiled, section)?;
    text.push_str(", ")?;
    put_spot(text, places, places.spans.head(section).start)
}
