//! Warnings as a log of SARIF 2.1.0.

ghost use Rattle.std.specs.{Prelude.{◌≡◌, map, IfOk, length}, String.{string_bytes}};
ghost use Rattle.serde_json.specs.View.{view};
ghost use Rattle.sect_front.specs.FaultPlaces.{IsWithin};
ghost use Rattle.sect_lint.specs.Json.{list};
ghost use Rattle.sect_warnings.specs.Reports.{AreWithin};
ghost use Rattle.sect_warnings.specs.Sarif.{result_json, rule_json, finding_rule, spare_rule, message_of as message_by};
ghost use Rattle.sect_warnings.specs.Sarif.{rules as rules_by, warnings_log as log_by};

use crate::lost::LostUpdate;
use crate::placed::{Placed, put_behind};
use crate::report::title;
use crate::warning::{Finding, Spare};
use sect_lint::{location_value, log_value, run_value, tool_value};
use sect_names::Effect;
use sect_places::{LineIndex, Thing};
use serde_json::{Value, json};
use std::alloc::{AllocError, Global};

/// What is told, and what is said of the marked bytes.
fn message_of(alloc: Global, placed: &Placed) -> Result<String, AllocError>
    ensures { IfOk result (λ text. string_bytes text ≡ message_by placed.now) }
{
    let mut text = title(alloc, placed.told())?;
    put_behind(&mut text, ": ", placed.label())?;
    Ok(text)
}

/// A warning, and where it stands.
fn result_value(
    alloc: Global,
    uri: &str,
    source: &LineIndex<'_>,
    placed: &Placed,
) -> Result<Value, AllocError>
    requires { IsWithin (length source.now) placed.now.span }
    ensures { IfOk result (λ v. view v ≡ result_json uri.now source.now placed.now) }
{
    let rule = placed.told().name();
    json!(in alloc; {
        "level": "warning",
        "locations": [location_value(alloc, uri, source, placed.span())?],
        "message": {"text": message_of(alloc, placed)?},
        "ruleId": rule
    })
}

/// All of them.
fn results_value(
    alloc: Global,
    uri: &str,
    source: &LineIndex<'_>,
    placed: &[Placed],
) -> Result<Value, AllocError>
    requires { AreWithin (length source.now) placed.now }
    ensures { IfOk result (λ v. view v ≡ list (map (result_json uri.now source.now) placed.now)) }
{
    let mut results = Vec::new(alloc);
    for warning in placed {
        results.push(result_value(alloc, uri, source, warning)?)?;
    }
    Ok(Value::Array(results))
}

/// What is told under this name, and what that means.
fn rule_value(alloc: Global, name: &str, note: &str) -> Result<Value, AllocError>
    ensures { IfOk result (λ v. view v ≡ rule_json name.now note.now) }
{
    json!(in alloc; {"help": {"text": note}, "id": name})
}

/// What a finding is.
fn finding_value(alloc: Global, finding: Finding) -> Result<Value, AllocError>
    ensures { IfOk result (λ v. view v ≡ finding_rule finding) }
{
    rule_value(alloc, finding.name(), finding.note())
}

/// The same of what is told of a declaration.
fn spare_value(alloc: Global, spare: Spare) -> Result<Value, AllocError>
    ensures { IfOk result (λ v. view v ≡ spare_rule spare) }
{
    rule_value(alloc, spare.name(), spare.note())
}

/// What may be told.
fn rules_value(alloc: Global) -> Result<Value, AllocError>
    ensures { IfOk result (λ v. view v ≡ rules_by) }
{
    json!(in alloc; [
        finding_value(alloc, Finding::NoLock)?,
        finding_value(alloc, Finding::AllForOne)?,
        finding_value(alloc, Finding::ClassLock { class: 0, effect: Effect::Read })?,
        finding_value(alloc, Finding::NeverFilled { node: 0, local: 0 })?,
        finding_value(alloc, Finding::NoCommonField { other: 0 })?,
        finding_value(alloc, Finding::LostUpdate(LostUpdate::default()))?,
        spare_value(alloc, Spare::Unused(Thing::Local))?,
        spare_value(alloc, Spare::Hint)?
    ])
}

/// The log of the warnings of the source text of this URI.
pub fn warnings_log(
    alloc: Global,
    uri: &str,
    source: &[u8],
    placed: &[Placed],
) -> Result<Value, AllocError>
    requires { AreWithin (length source.now) placed.now }
    ensures { IfOk result (λ v. view v ≡ log_by uri.now source.now placed.now) }
{
    let tool = tool_value(alloc, rules_value(alloc)?)?;
    let lines = LineIndex::new(alloc, source)?;
    let results = results_value(alloc, uri, &lines, placed)?;
    log_value(alloc, run_value(alloc, results, tool)?)
}
