//! Sections.

ghost use Rattle.sect_types.specs.{Limits.{most_threads}, Sections.{section_from, AreNumbered, AllNumbered}};
ghost use Rattle.sect_types.specs.Statements.{section_body};
ghost use Rattle.std.specs.Prelude.{◌≡◌, ◌≤◌, ℕ, length, option_copied};
ghost use Rattle.sect_types.specs.steps.FoundSections.{section_in};

use crate::expansion::text::Text;

/// A section: the number of its thread, and its body.
#[derive(Clone, Copy)]
pub struct Section<'a> {
    pub thread: u16,
    pub body: &'a Text,
}

/// The body of the section of this number, if it is in this text, whose sections are numbered in text order.
fn body_in(text: &Text, number: u16) -> Option<&Text>
    requires { (m : ℕ) × AreNumbered m text.now }
    ensures { option_copied result ≡ section_body number text.now }
{
    // A text often ends with a section, and then none of its other statements has to be looked at.
    if text.ends_below(number) {
        return None;
    }
    text.section(number)
}

/// The section of this number in the texts of the threads, whose sections are numbered in text order.
pub(crate) fn find<'a>(texts: &'a [Text], number: u16) -> Option<Section<'a>>
    requires few { length texts.now ≤ most_threads }
    requires numbered { AllNumbered 0 texts.now }
    ensures { section_in result ≡ section_from number 0 texts.now }
{
    let mut thread = 0;
    for text in texts {
        if let Some(body) = body_in(text, number) {
            return Some(Section { thread, body });
        }
        thread += 1;
    }
    None
}
