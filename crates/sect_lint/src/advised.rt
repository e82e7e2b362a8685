//! What is wanted in place of a mistake.

ghost use Rattle.std.specs.{Prelude.{◌≡◌, ◌++◌, OnOk, length}, String.{string_bytes}};
ghost use Rattle.sect_front.specs.FaultPlaces.{IsWithin};
ghost use Rattle.sect_lint.specs.Advised.{advice_of as advice_by, wanted as wanted_by, advised};

use crate::diagnostic::{Detail, Diagnostic};
use crate::label::bytes_of;
use crate::mistake::Mistake;
use sect_advice::{Advice, on_byte, on_name, on_token};
use std::alloc::AllocError;

/// What is said of a mistake by which other languages have what stands there.
fn advice_of(source: &[u8], diagnostic: &Diagnostic) -> Option<Advice>
    requires { IsWithin (length source.now) diagnostic.now.span }
    ensures { result ≡ advice_by source.now diagnostic.now }
{
    let span = diagnostic.span;
    match (diagnostic.mistake, &diagnostic.detail) {
        (Mistake::BadByte, _) => on_byte(source, span.start),
        (Mistake::Unexpected, Detail::Expected(kinds)) => on_token(source, span, kinds.as_slice()),
        (Mistake::Unknown, _) => on_name(bytes_of(source, span)),
        _ => None,
    }
}

/// What is to be written instead, where that is known, and else what the rule wants.
pub fn wanted(source: &[u8], diagnostic: &Diagnostic) -> &'static str
    requires { IsWithin (length source.now) diagnostic.now.span }
    ensures { result.now ≡ wanted_by source.now diagnostic.now }
{
    match advice_of(source, diagnostic) {
        Some(advice) => advice.words(),
        None => diagnostic.mistake.note(),
    }
}

/// Adds what is to be written instead, behind what is wrong.
pub fn put_advised(
    text: &mut String,
    source: &[u8],
    diagnostic: &Diagnostic,
) -> Result<(), AllocError>
    requires { IsWithin (length source.now) diagnostic.now.span }
    ensures { OnOk result (string_bytes text.new
        ≡ string_bytes text.old ++ advised (advice_by source.now diagnostic.now)) }
{
    match advice_of(source, diagnostic) {
        Some(advice) => {
            text.push_str("; ")?;
            text.push_str(advice.words())
        }
        None => Ok(()),
    }
}
