//! What is printed for a request that is not refused.

ghost use Rattle.std.specs.Prelude.{◌≡◌, false, true, IfOk, IfErr, option_map};
ghost use Rattle.sect_infer.specs.Workers.{AreOffered};
ghost use Rattle.sect_answers.specs.Compiling.{IsCompileDue};
ghost use Rattle.sect_command.specs.Requests.{Answers, AnswersPlaced, AreMeantBy, IsCompiledIn};
ghost use Rattle.sect_command.specs.Requests.{IsPlacedDue, IsRefusalDue};
ghost use Rattle.sect_command.specs.Requests.{file_of as file_by, is_linting, is_ordered, is_plain};

use crate::request::{Form, Placed, PlacedRun, Request};
use sect_answers::{
    PlacedText, Refusal, all_outcomes, inspection, locks, placed_chart, placed_outcomes,
    placed_run, placed_serial, placed_turns, program_certificate, program_conflicts,
    program_document, program_explanation, program_graph, program_in_c, program_listing,
    run_outcome, schedule_chart, schedule_outcome, serial_outcome, verbose_answer, verdict,
};
use sect_run::OpenGate;
use std::alloc::Global;
use std::sync::Wait;
use std::thread::Threads;
use std::time::{Clock, CpuClock};

/// The name that stands for standard input.
pub const INPUT: &str = "-";

/// A source text, and its name.
#[derive(Clone, Copy)]
pub struct Text<'a> {
    pub name: &'a str,
    pub source: &'a [u8],
}

/// The file of the text of a name: that on standard input has none.
pub fn file_of(name: &str) -> Option<&str>
    ensures { option_map (λ file. file.now) result ≡ file_by name.now }
{
    if name == INPUT { None } else { Some(name) }
}

/// A source text with its file.
pub fn placed_text(text: Text<'_>) -> PlacedText<'_>
    ensures file { option_map (λ file. file.now) result.file ≡ file_by text.entry.name.now }
    ensures source { result.source.now ≡ text.entry.source.now }
{
    PlacedText {
        file: file_of(text.name),
        source: text.source,
    }
}

/// What is printed for a request, whose words mean these threads, that is not refused and asks for no warnings.
pub fn printed<R: Threads + Wait + Sync + Clock + CpuClock>(
    rt: &R,
    alloc: Global,
    request: &Request,
    threads: Vec<u16>,
    text: Text<'_>,
) -> Result<Vec<u8>, Refusal>
    requires meant { AreMeantBy text.source.now request.now threads.items }
    requires unlinted { is_linting request.now ≡ false }
    ensures answers { IfOk result (λ answer. Answers text.entry.name.now request.now text.entry.source.now
        answer.items) }
    ensures refuses { IfErr result (IsRefusalDue text.entry.name.now request.now text.entry.source.now) }
{
    match request {
        Request::Serial { .. } | Request::Schedule { .. } | Request::Chart { .. } => {
            in_order(alloc, request, threads, text)
        }
        Request::Placed(placed) => with_places(rt, alloc, placed, threads, text),
        _ => plain(rt, alloc, request, text),
    }
}

/// The same for a request whose words name threads, in an order.
fn in_order(
    alloc: Global,
    request: &Request,
    threads: Vec<u16>,
    text: Text<'_>,
) -> Result<Vec<u8>, Refusal>
    requires ordered { is_ordered request.now ≡ true }
    requires meant { AreMeantBy text.source.now request.now threads.items }
    ensures answers { IfOk result (λ answer. Answers text.entry.name.now request.now text.entry.source.now
        answer.items) }
    ensures refuses { IfErr result (IsRefusalDue text.entry.name.now request.now text.entry.source.now) }
{
    let source = text.source;
    match request {
        Request::Serial { fuel, format, .. } => {
            Ok(serial_outcome(alloc, source, *fuel, threads, *format)?.into_bytes())
        }
        Request::Schedule {
            k,
            fuel,
            format,
            ..
        } => Ok(schedule_outcome(alloc, source, *k, *fuel, threads, *format)?.into_bytes()),
        Request::Chart { k, fuel, .. } => {
            Ok(schedule_chart(alloc, source, *k, *fuel, threads)?.into_bytes())
        }
        _ => unreachable!(),
    }
}

/// The same for a run with places, whose words mean these threads.
fn with_places<R: Threads + Wait + Sync + Clock + CpuClock>(
    rt: &R,
    alloc: Global,
    placed: &Placed,
    threads: Vec<u16>,
    text: Text<'_>,
) -> Result<Vec<u8>, Refusal>
    ensures answers { IfOk result (λ answer. AnswersPlaced text.entry.name.now text.entry.source.now placed.now
        threads.items placed.now.of answer.items) }
    ensures refuses { IfErr result (IsPlacedDue text.entry.source.now placed.now threads.items placed.now.of) }
{
    let text = placed_text(text);
    let (k, fuel) = (placed.k, placed.fuel);
    match &placed.of {
        PlacedRun::Serial(_) => { Ok(placed_serial(alloc, text, k, fuel, threads)?.into_bytes()) }
        PlacedRun::Outcomes(most) => {
            Ok(placed_outcomes(alloc, text, k, fuel, *most)?.into_bytes())
        }
        PlacedRun::Schedule(_) => Ok(placed_turns(alloc, text, k, fuel, threads)?.into_bytes()),
        PlacedRun::Chart(_) => Ok(placed_chart(alloc, text, k, fuel, threads)?.into_bytes()),
        PlacedRun::Run | PlacedRun::TimedRun => {
            Ok(placed_run(rt, alloc, text, k, fuel)?.into_bytes())
        }
    }
}

/// The same for a request that goes by the text alone, asks for no warnings, and tells no places of faults.
fn plain<R: Threads + Wait + Sync + Clock + CpuClock>(
    rt: &R,
    alloc: Global,
    request: &Request,
    text: Text<'_>,
) -> Result<Vec<u8>, Refusal>
    requires { is_plain request.now ≡ true }
    ensures answers { IfOk result (λ answer. Answers text.entry.name.now request.now text.entry.source.now
        answer.items) }
    ensures refuses { IfErr result (IsRefusalDue text.entry.name.now request.now text.entry.source.now) }
{
    let source = text.source;
    match request {
        Request::Compile { k, workers, form } => {
            let compiling = Compiling {
                k: *k,
                workers: *workers,
                form: *form,
            };
            compiled(rt, alloc, source, compiling)
        }
        Request::C { k } => program_in_c(alloc, source, *k),
        Request::Locks { k, format } => Ok(locks(alloc, source, *k, *format)?.into_bytes()),
        Request::Explain { k, format } => program_explanation(alloc, source, *k, *format),
        Request::Conflicts { k, format } => {
            Ok(program_conflicts(alloc, source, *k, *format)?.into_bytes())
        }
        Request::Verbose { k, of } => {
            Ok(verbose_answer(alloc, file_of(text.name), source, *k, *of)?.into_bytes())
        }
        Request::Graph { k, section } => program_graph(alloc, source, *k, *section),
        Request::Inspect { k } => inspection(alloc, source, *k),
        Request::Outcomes { fuel, most, format } => {
            Ok(all_outcomes(alloc, source, *fuel, *most, *format)?.into_bytes())
        }
        Request::Run { k, fuel, format } | Request::TimedRun { k, fuel, format } => {
            Ok(run_outcome(rt, alloc, source, *k, *fuel, &OpenGate, *format)?.into_bytes())
        }
        Request::Check { k } => Ok(verdict(alloc, source, *k)?.into_bytes()),
        _ => unreachable!(),
    }
}

/// A program that is compiled with paths of at most k fields by so many workers, and how it is printed.
#[derive(Clone, Copy)]
struct Compiling {
    k: u16,
    workers: u16,
    form: Form,
}

/// The compiled program of a source text.
fn compiled<R: Threads + Wait + Sync + Clock + CpuClock>(
    rt: &R,
    alloc: Global,
    source: &[u8],
    of: Compiling,
) -> Result<Vec<u8>, Refusal>
    ensures offered { IfOk result (λ _. AreOffered of.workers) }
    ensures answers { IfOk result (λ answer. IsCompiledIn of.form source.now of.k answer.items) }
    ensures refuses { IfErr result (IsCompileDue source.now of.k of.workers) }
{
    match of.form {
        Form::Listing => program_listing(rt, alloc, source, of.k, of.workers),
        Form::Document => program_document(rt, alloc, source, of.k, of.workers),
        Form::Certificate => program_certificate(rt, alloc, source, of.k, of.workers),
    }
}
