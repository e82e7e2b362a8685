//! Whether a source text is refused, for which mistake, and where that stands.

ghost use Rattle.std.specs.Prelude.{◌≡◌, ◌≢◌, ◌≤◌, ◌<◌, ℕ, true, Err, Some, IfOk, IfErr, MatchOption, OnOk, length};
ghost use Rattle.sect_front.specs.Front.{IsSpelled};
ghost use Rattle.sect_front.specs.{FaultPlaces.{IsFaultSpan, IsWithin, AreKindsFor}, LongGaps.{AreGaps}};
ghost use Rattle.sect_types.specs.Items.{items};
ghost use Rattle.sect_names.specs.Sources.{IsTypedText};
ghost use Rattle.sect_lint.specs.{Places.{of_types, item_number, marked_name}, Mistakes.{of_types as mistake_by}};
ghost use Rattle.sect_lint.specs.Details.{IsFrontDetail, IsDetailWithin, IsToldOf, item_detail as item_detail_by};
ghost use Rattle.sect_lint.specs.Reports.{IsDiagnosisOf, IsJudged, IsNotJudged};
ghost use Rattle.sect_lint.specs.steps.Plain.{is_plain as is_plain_by};
ghost use Rattle.sect_types.specs.First as types;
ghost use Rattle.sect_names.specs.Verdicts as schemes;
ghost use Rattle.sect_names.specs.declared.refusal.SourceRefusal.TheVariants as refusal;

use crate::arguments::mistyped_detail;
use crate::call_counts::counts_detail;
use crate::circle::circle_detail;
use crate::culprit::Culprit;
use crate::diagnostic::{Detail, Diagnostic};
use crate::layout::{Words, item_span, opening_of, opening_span, told_by, words_of};
use crate::limit::Limit;
use crate::mistake::Mistake;
use crate::naming::{declared_at, earlier_detail, found, unknown_name};
use crate::plain::{is_plain, plain_detail};
use crate::wishes::wish_of;
use sect_front::{FrontFault, GappedText, PlacedFault, Span, Token, Tree, innermost_brace};
use sect_names::{Refused, Scheme, SchemeFault, SourceRefusal, Unguarded, judge};
use sect_places::NameSpan;
use sect_types::{Mistyped, Program, TypeFault};
use std::alloc::{AllocError, Global};

/// What a source text is found to be.
#[derive(Drop)]
pub enum Judgment {
    /// It is accepted, with this scheme.
    Accepted(Scheme),
    /// It is refused for this mistake.
    Refused(Diagnostic),
}

/// What is said beside the carets of a text that spells no tree.
fn front_detail(alloc: Global, text: GappedText, placed: PlacedFault) -> Result<Detail, AllocError>
    requires gaps { AreGaps text.bytes.now text.gaps.now }
    requires span { placed.span.start ≤ placed.span.end }
    requires expected { AreKindsFor text.bytes.now placed.fault placed.span placed.expected.items }
    ensures detail { IfOk result (IsFrontDetail text.entry.bytes.now placed.fault placed.span) }
    ensures within { IfOk result (IsDetailWithin (length text.entry.bytes.now)) }
{
    let detail = match placed.fault {
        FrontFault::LongName { .. } => Detail::Bytes(placed.span.end - placed.span.start),
        FrontFault::TooLarge => Detail::Bytes(text.bytes.len()),
        FrontFault::UnexpectedEnd { .. } => match innermost_brace(alloc, text)? {
            Some(at) => Detail::OpenBrace(at),
            None => Detail::Nothing,
        },
        FrontFault::Unexpected { .. } => Detail::Expected(placed.expected),
        _ => Detail::Nothing,
    };
    Ok(detail)
}

/// What is told of a text that spells no tree.
fn front_diagnostic(
    alloc: Global,
    text: GappedText,
    placed: PlacedFault,
) -> Result<Diagnostic, SourceRefusal>
    requires gaps { AreGaps text.bytes.now text.gaps.now }
    requires span { IsFaultSpan text.bytes.now placed.fault placed.span }
    requires within { placed.fault ≢ FrontFault.Memory → IsWithin (length text.bytes.now) placed.span }
    requires expected { AreKindsFor text.bytes.now placed.fault placed.span placed.expected.items }
    ensures told { IfOk result (IsDiagnosisOf text.entry.bytes.now (refusal.Front placed.fault)) }
    ensures known { IfOk result (λ _. placed.fault ≢ FrontFault.Memory) }
    ensures fails { IfErr result (λ why. why ≡ refusal.Memory) }
{
    let Some(mistake) = Mistake::of_front(&placed.fault) else {
        return Err(SourceRefusal::Memory);
    };
    let span = placed.span;
    let detail = front_detail(alloc, text, placed)?;
    Ok(Diagnostic {
        mistake,
        span,
        detail,
    })
}

/// The bytes that are marked in an item that breaks a rule on types.
fn marked_span(names: &[NameSpan], fault: &TypeFault, item: Span) -> Span
    ensures { MatchOption (marked_name names.now fault.now) (result ≡ item) (λ n. result ≡ n.span) }
{
    match fault {
        TypeFault::Unknown { item: number } => match unknown_name(names, *number as usize) {
            Some(named) => named.span,
            None => item,
        },
        _ => item,
    }
}

/// What is said beside the carets of a text whose tree breaks a rule on types. `tokens` and
/// `spans` have the tokens of the item at fault and their bytes.
fn item_detail(
    tree: &Tree,
    names: &[NameSpan],
    tokens: &[Token],
    spans: &[Span],
    fault: &TypeFault,
) -> Detail
    ensures { result ≡ item_detail_by tree.now names.now tokens.now spans.now fault.now }
{
    match fault {
        TypeFault::Twice { item } => earlier_detail(names, *item as usize),
        TypeFault::WrongType { item } => {
            mistyped_detail(tree.procedures(), names, *item as usize, tokens, spans)
        }
        TypeFault::TooMany { item } => {
            let declared = found(names, declared_at(names, *item as usize));
            Detail::Limit(Limit::of_item(declared, tokens))
        }
        TypeFault::Arguments { .. } => counts_detail(tree.procedures(), tokens, spans),
        _ => Detail::Nothing,
    }
}

/// What is said beside the carets of a text whose tree breaks a rule on types: of a call that leads back by which calls
/// it does, and of all else this.
fn told_of(
    alloc: Global,
    names: &[NameSpan],
    fault: &TypeFault,
    other: Detail,
) -> Result<Detail, AllocError>
    ensures { IfOk result (IsToldOf names.now fault.now other) }
{
    match fault {
        TypeFault::Recursion { item } => circle_detail(alloc, names, *item as usize),
        _ => Ok(other),
    }
}

/// What is said beside the carets of a text whose item of these tokens breaks a rule on types.
fn told_item(
    alloc: Global,
    tree: &Tree,
    names: &[NameSpan],
    words: &Words,
    fault: &TypeFault,
) -> Result<Detail, AllocError>
    ensures { IfOk result (IsToldOf names.now fault.now
        (item_detail_by tree.now names.now words.now.tokens.items words.now.spans.items fault.now)) }
{
    let tokens = words.tokens.as_slice();
    let other = item_detail(tree, names, tokens, words.spans.as_slice(), fault);
    told_of(alloc, names, fault, other)
}

/// What is told of a text whose tree breaks a rule on types, by the names of the text that matter to the item at fault.
fn named_diagnostic(
    alloc: Global,
    text: GappedText,
    mistyped: &Mistyped,
    mistake: Mistake,
) -> Result<Diagnostic, AllocError>
    requires gaps { AreGaps text.bytes.now text.gaps.now }
    requires spelled { IsSpelled text.bytes.now mistyped.now.tree }
    requires mistake { mistake_by mistyped.now.fault ≡ Some mistake }
    requires there { item_number mistyped.now.tree (of_types mistyped.now.fault) < length (items mistyped.now.tree) }
    ensures { IfOk result (IsDiagnosisOf text.entry.bytes.now (refusal.Types mistyped.now.fault)) }
{
    let Mistyped { fault, tree } = mistyped;
    let culprit = Culprit::of_types(fault);
    let item = culprit.item(tree)?;
    let wish = wish_of(alloc, tree, item, fault)?;
    let told = told_by(alloc, text, tree, item, wish)?;
    let whole = item_span(&told.words, mistake);
    let names = told.names.as_slice();
    let span = marked_span(names, fault, whole);
    let detail = told_item(alloc, tree, names, &told.words, fault)?;
    Ok(Diagnostic {
        mistake,
        span,
        detail,
    })
}

/// What is told of a text whose tree breaks a rule on types, where that takes the place of no name.
fn plain_diagnostic(
    alloc: Global,
    text: GappedText,
    mistyped: &Mistyped,
    mistake: Mistake,
) -> Result<Diagnostic, AllocError>
    requires gaps { AreGaps text.bytes.now text.gaps.now }
    requires spelled { IsSpelled text.bytes.now mistyped.now.tree }
    requires mistake { mistake_by mistyped.now.fault ≡ Some mistake }
    requires there { item_number mistyped.now.tree (of_types mistyped.now.fault) < length (items mistyped.now.tree) }
    requires plain { is_plain_by mistyped.now.fault ≡ true }
    ensures { IfOk result (IsDiagnosisOf text.entry.bytes.now (refusal.Types mistyped.now.fault)) }
{
    let Mistyped { fault, tree } = mistyped;
    let culprit = Culprit::of_types(fault);
    let item = culprit.item(tree)?;
    let opening = opening_of(alloc, text, tree, item)?;
    let detail = plain_detail(alloc, tree, &opening, fault)?;
    let span = opening_span(&opening);
    Ok(Diagnostic {
        mistake,
        span,
        detail,
    })
}

/// What is told of a text whose tree breaks a rule on types.
fn types_diagnostic(
    alloc: Global,
    text: GappedText,
    mistyped: &Mistyped,
) -> Result<Diagnostic, SourceRefusal>
    requires gaps { AreGaps text.bytes.now text.gaps.now }
    requires spelled { IsSpelled text.bytes.now mistyped.now.tree }
    requires judged { types.Judges {A = ℕ} mistyped.now.tree (Err mistyped.now.fault) }
    ensures told { IfOk result (IsDiagnosisOf text.entry.bytes.now (refusal.Types mistyped.now.fault)) }
    ensures known { IfOk result (λ _. mistyped.now.fault ≢ TypeFault.Memory) }
    ensures fails { IfErr result (λ why. why ≡ refusal.Memory) }
{
    let Some(mistake) = Mistake::of_types(&mistyped.fault) else {
        return Err(SourceRefusal::Memory);
    };
    if is_plain(&mistyped.fault) {
        let diagnostic = plain_diagnostic(alloc, text, mistyped, mistake)?;
        Ok(diagnostic)
    } else {
        let diagnostic = named_diagnostic(alloc, text, mistyped, mistake)?;
        Ok(diagnostic)
    }
}

/// What is told of a text whose program breaks a rule on hints.
fn hints_diagnostic(
    alloc: Global,
    text: GappedText,
    program: &Program,
    fault: &SchemeFault,
) -> Result<Diagnostic, SourceRefusal>
    requires gaps { AreGaps text.bytes.now text.gaps.now }
    requires text { IsTypedText text.bytes.now program.now }
    requires known { fault.now ≢ SchemeFault.BadK }
    requires refused { (k : ℕ) × schemes.Judges program.now k (Err fault.now) }
    ensures told { IfOk result (IsDiagnosisOf text.entry.bytes.now (refusal.Scheme fault.now)) }
    ensures known { IfOk result (λ _. fault.now ≢ SchemeFault.Memory) }
    ensures fails { IfErr result (λ why. why ≡ refusal.Memory) }
{
    let Some(mistake) = Mistake::of_scheme(fault) else {
        return Err(SourceRefusal::Memory);
    };
    let tree = program.tree();
    let culprit = Culprit::of_scheme(fault);
    let item = culprit.item(tree)?;
    let words = words_of(alloc, text, tree, item)?;
    let span = item_span(&words, mistake);
    Ok(Diagnostic {
        mistake,
        span,
        detail: Detail::Nothing,
    })
}

/// Whether a source text is accepted, and with which scheme, or refused, for which mistake, and where that stands. How
/// many fields a path may have is judged before the source. `Memory` is answered only where a growth was refused.
pub fn lint(alloc: Global, source: &[u8], k: u16) -> Result<Judgment, SourceRefusal>
    // The text is accepted with the scheme, or the mistake is that for which it is refused.
    ensures judged { IfOk result (IsJudged source.now k) }
    // A text is judged only where a path may have so many fields.
    ensures within { OnOk result (k ≤ 3) }
    // Nothing else is answered but that no path may have so many fields.
    ensures fails { IfErr result (IsNotJudged k) }
{
    let text = GappedText::new(source);
    match judge(alloc, source, k) {
        Ok(scheme) => Ok(Judgment::Accepted(scheme)),
        Err(Refused::BadK) => Err(SourceRefusal::Scheme(SchemeFault::BadK)),
        Err(Refused::Front(placed)) => {
            let diagnostic = front_diagnostic(alloc, text, placed)?;
            Ok(Judgment::Refused(diagnostic))
        }
        Err(Refused::Types(mistyped)) => {
            let diagnostic = types_diagnostic(alloc, text, &mistyped)?;
            Ok(Judgment::Refused(diagnostic))
        }
        Err(Refused::Hints(unguarded)) => {
            let Unguarded { fault, program } = &unguarded;
            let diagnostic = hints_diagnostic(alloc, text, program, fault)?;
            Ok(Judgment::Refused(diagnostic))
        }
    }
}
