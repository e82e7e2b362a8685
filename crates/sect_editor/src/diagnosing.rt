//! What is found of a text when it is opened or changed.

ghost use Rattle.std.specs.Prelude.{◌≤◌, IfOk};
ghost use Rattle.serde_json.specs.View.{view};
ghost use Rattle.sect_editor.specs.{Accepted.{IsCompiledIf}, Diagnosing.{AreDiagnostics}};

use crate::mistakes::mistake_value;
use crate::text::Reading;
use crate::warned::warnings_of;
use sect_emit::{Compiled, compile_scheme};
use sect_lint::{Judgment, lint};
use sect_names::SourceRefusal;
use serde_json::{Value, json};
use std::alloc::{AllocError, Global};

/// What is found of a text: its diagnostics, and its compiled program, unless it is refused.
#[derive(Drop)]
pub struct Judged {
    pub diagnostics: Value,
    pub compiled: Option<Compiled>,
}

/// The diagnostics of a text, those of `lint`, and what it is compiled to.
#[tactic(auto, unfolding(crate::specs::Diagnosing::AreDiagnostics))]
pub fn judge(alloc: Global, reading: Reading, uri: &str, text: &[u8]) -> Result<Judged, AllocError>
    requires { reading.k ≤ 3 }
    ensures diagnostics { IfOk result (λ j.
        AreDiagnostics reading.encoding reading.k uri.now text.now (view j.diagnostics)) }
    ensures compiled { IfOk result (λ j. IsCompiledIf text.now reading.k j.compiled) }
{
    match lint(alloc, text, reading.k) {
        Err(SourceRefusal::Memory) => Err(AllocError),
        // k is small enough
        Err(_) => unreachable!(),
        Ok(Judgment::Refused(diagnostic)) => {
            let mistake = mistake_value(alloc, reading.encoding, uri, text, &diagnostic)?;
            let diagnostics = json!(in alloc; [mistake])?;
            Ok(Judged {
                diagnostics,
                compiled: None,
            })
        }
        Ok(Judgment::Accepted(scheme)) => {
            let compiled = compile_scheme(alloc, scheme)?;
            let diagnostics = warnings_of(alloc, text, &compiled)?;
            Ok(Judged {
                diagnostics,
                compiled: Some(compiled),
            })
        }
    }
}
