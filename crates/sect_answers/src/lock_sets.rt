//! The command `locks`.

ghost use Rattle.std.specs.Prelude.{◌≡◌, ◌<◌, ◌++◌, List, Some, length, slice_get, IfOk, IfErr, OnOk, IsOkUnless};
ghost use Rattle.std.specs.String.{string_bytes};
ghost use Rattle.sect_types.specs.Sections.{SectionView, sections_of};
ghost use Rattle.sect_names.specs.{declared.lock.Lock.{Lock}, Schemes.{SchemeView}, Sources.{IsAccepted}};
ghost use Rattle.sect_answers.specs.declared.refusal.Refusal.TheVariants.{Memory};
ghost use Rattle.sect_answers.specs.Listing.{IsLeastInOrder, IsListing, IsSetsDocument, AreSetsPrinted, section_line};
ghost use Rattle.sect_answers.specs.Answers.{IsAnswer, IsDue};

use crate::format::Format;
use crate::refusal::Refusal;
use sect_emit::compile_scheme;
use sect_infer::entry_locks;
use sect_json::locks_document;
use sect_names::{Scheme, accept, put_locks};
use std::alloc::{AllocError, Global};
use std::fmt::Write;

/// The lock set of each section of a source text, a line a section, or the document of them. How many fields a path may
/// have is judged before the source.
pub fn locks(alloc: Global, source: &[u8], k: u16, format: Format) -> Result<String, Refusal>
    // The text is accepted, and each section has a line, or a value, with the least set of locks that protects it.
    ensures answers { IfOk result (λ text. IsAnswer source.now k format (string_bytes text)) }
    // A text that is accepted is answered, unless memory runs out.
    ensures only { (s : SchemeView) → IsAccepted source.now k s → IsOkUnless result Memory }
    // A refusal is due, and it is the first that is.
    ensures refuses { IfErr result (IsDue source.now k) }
{
    let scheme = accept(alloc, source, k)?;
    Ok(sets_printed(alloc, scheme, format)?)
}

/// The lock sets of all sections, as they are printed.
fn sets_printed(alloc: Global, scheme: Scheme, format: Format) -> Result<String, AllocError>
    ensures { IfOk result (λ text. AreSetsPrinted scheme format (string_bytes text)) }
{
    match format {
        Format::Text => lines(alloc, &scheme),
        Format::Json => sets_document(alloc, scheme),
    }
}

/// The document of all sections' lock sets.
fn sets_document(alloc: Global, scheme: Scheme) -> Result<String, AllocError>
    ensures { IfOk result (λ text. IsSetsDocument scheme (string_bytes text)) }
{
    let compiled = compile_scheme(alloc, scheme)?;
    compiled.facts();
    locks_document(alloc, &compiled)
}

/// A line for each section of the program. What inference found of a section is let go before the next one.
fn lines(alloc: Global, scheme: &Scheme) -> Result<String, AllocError>
    ensures { IfOk result (λ text. IsListing scheme.now (length (sections_of scheme.now.program.texts))
        (string_bytes text)) }
{
    let mut text = String::new(alloc);
    for section in 0..scheme.program().section_count() {
        put_section(alloc, &mut text, scheme, section)?;
    }
    Ok(text)
}

/// Adds the line of a section.
fn put_section(
    alloc: Global,
    text: &mut String,
    scheme: &Scheme,
    section: u16,
) -> Result<(), AllocError>
    requires { section < length (sections_of scheme.now.program.texts) }
    ensures { OnOk result ((of : SectionView) → slice_get (sections_of scheme.now.program.texts) section ≡ Some of
        → (locks : List Lock) × IsLeastInOrder scheme.now section of locks
        × (string_bytes text.new ≡ string_bytes text.old ++ section_line scheme.now.program.source section locks)) }
{
    scheme.facts();
    let locks = entry_locks(alloc, scheme, section)?;
    write!(text, "section {section}: ")?;
    put_locks(text, scheme.program(), locks.as_slice())?;
    text.push_str("\n")?;
    Ok(())
}
