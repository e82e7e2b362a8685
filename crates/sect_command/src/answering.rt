//! What is answered to the texts of which a request is asked.

ghost use Rattle.std.specs.Prelude.{◌≡◌, ◌++◌, false, [], if◌then◌else◌, IfOk, IfErr, OnOk, option_map};
ghost use Rattle.std.specs.String.{string_bytes};
ghost use Rattle.sect_answers.specs.Naming.{AreMeant};
ghost use Rattle.sect_command.specs.declared.failure.Failure.TheVariants.{Memory};
ghost use Rattle.sect_command.specs.Requests.{AddsPlaceOf, IsDone, IsLineFor, IsRefusalDue, IsRightFor};
ghost use Rattle.sect_command.specs.Requests.{IsWrittenFor, warned_status};
ghost use Rattle.sect_command.specs.Requests.{is_marked as is_marked_for, threads_of};
ghost use Rattle.sect_command.specs.Requests.{spread_placed as spread_placed_by};
ghost use Rattle.sect_command.specs.Statuses.{done as done_status};
ghost use Rattle.sect_command.specs.Requests.{AreMeantBy, near_text, spread_by, unknown_text, wanted_text};
ghost use Rattle.sect_command.specs.Reporting.{AddsComplaint, AddsRight, AddsShown, AddsText, IsGiven, IsReport};
ghost use Rattle.sect_command.specs.Reporting.{has_headings, heading, hint_text};

use crate::colours::{Screen, is_painted, shown};
use crate::failure::Failure;
use crate::printing::{INPUT, Text, file_of, placed_text, printed};
use crate::report::{Answer, Report};
use crate::request::{Asked, PlacedRun, Request};
use crate::statuses::{DONE, FAILED, REFUSED, WRONG_WORDS};
use crate::texts::{Around, Texts, first_bytes};
use crate::turns::repeated;
use sect_answers::{
    Refusal, ThreadFault, Timed, findings, placed_timed_run, put_mistake_place, put_refusal,
    refusal_document, threads_named, timed_outcome,
};
use sect_warnings::{Telling, Warned};
use std::alloc::{AllocError, Global};
use std::io;
use std::io::{ErrorKind, Read};
use std::sync::Wait;
use std::thread::Threads;
use std::time::{Clock, CpuClock};

/// A request with all that its answers come from: threads, what the run finds around it, the text on standard input.
#[derive(Drop)]
struct Setting<'a, R: Threads + Wait + Sync + Clock + CpuClock, T: Texts> {
    rt: &'a R,
    around: &'a Around<'a, T>,
    asked: &'a Asked,
    given: &'a [u8],
}

/// What is answered to each text of which a request is asked, one after another.
pub fn reported<R: Threads + Wait + Sync + Clock + CpuClock, T: Texts, I: Read + Drop>(
    rt: &R,
    alloc: Global,
    around: &Around<'_, T>,
    asked: &Asked,
    input: I,
) -> Result<Report, Failure>
    ensures { IfOk result (IsReport (T.bytes_of around.now.texts.now) around.now.screen (I.remaining input)
        asked.now) }
{
    let given = given_text(alloc, asked, input)?;
    let setting = Setting {
        rt,
        around,
        asked,
        given: given.as_slice(),
    };
    let mut report = Report {
        status: DONE,
        text: Vec::new(alloc),
        complaints: Vec::new(alloc),
    };
    if asked.files.is_empty() {
        add_text(alloc, &setting, INPUT, &mut report)?;
    }
    for name in &asked.files {
        add_text(alloc, &setting, name.as_str(), &mut report)?;
    }
    Ok(report)
}

/// The text on standard input, if it is asked for.
fn given_text<I: Read + Drop>(alloc: Global, asked: &Asked, input: I) -> Result<Vec<u8>, Failure>
    ensures { IfOk result (λ given. IsGiven (I.remaining input) asked.now given.items) }
{
    if !asked.reads_input() {
        return Ok(Vec::new(alloc));
    }
    Ok(first_bytes(alloc, input, asked.request.most_kept())?)
}

/// Adds what is answered to the text of a name.
fn add_text<R: Threads + Wait + Sync + Clock + CpuClock, T: Texts>(
    alloc: Global,
    setting: &Setting<'_, R, T>,
    name: &str,
    report: &mut Report,
) -> Result<(), Failure>
    ensures { OnOk result (AddsText (T.bytes_of setting.now.around.now.texts.now) setting.now.around.now.screen
        setting.now.given.now setting.now.asked.now name.now report.old report.new) }
{
    if name == INPUT {
        return add_answer_to(alloc, setting, name, setting.given, report);
    }
    let most = setting.asked.request.most_kept();
    match setting.around.texts.text_of(alloc, name, most) {
        Ok(source) => add_answer_to(alloc, setting, name, source.as_slice(), report),
        Err(failed) if failed.kind() == ErrorKind::OutOfMemory => Err(Failure::Memory),
        Err(failed) => Ok(add_complaint(alloc, name, failed, report)?),
    }
}

/// Adds what is answered to a text of this name.
fn add_answer_to<R: Threads + Wait + Sync + Clock + CpuClock, T: Texts>(
    alloc: Global,
    setting: &Setting<'_, R, T>,
    name: &str,
    source: &[u8],
    report: &mut Report,
) -> Result<(), Failure>
    ensures { OnOk result (AddsRight setting.now.around.now.screen setting.now.asked.now name.now source.now
        report.old report.new) }
{
    let text = Text { name, source };
    let answer = worked(setting.rt, alloc, &setting.asked.request, text)?;
    put_head(&mut report.text, setting.asked, name)?;
    add_answer(alloc, setting.around.screen, setting.asked, answer, report)
}

/// Adds an answer: its text as it is shown, what is said of it on standard error, and its status.
fn add_answer(
    alloc: Global,
    screen: Screen,
    asked: &Asked,
    answer: Answer,
    report: &mut Report,
) -> Result<(), Failure>
    ensures { OnOk result (AddsShown screen asked.now answer report.old report.new) }
{
    let Answer {
        status,
        text,
        remarks,
        is_linted,
    } = answer;
    let text = shown(
        alloc,
        &asked.request,
        is_painted(asked.colour, screen),
        text,
    )?;
    report.text.extend_from_slice(text.as_slice())?;
    report.complaints.extend_from_slice(remarks.as_slice())?;
    report
        .complaints
        .extend_from_slice(hint(screen.hints && is_linted))?;
    report.status = report.status.max(status);
    Ok(())
}

/// What is said behind a refusal of which `lint` says more.
fn hint(is_due: bool) -> &'static [u8]
    ensures { result.now ≡ hint_text is_due }
{
    if is_due {
        b"sectc lint says where and why\n"
    } else {
        b""
    }
}

/// Adds what stands above the answer to a text.
fn put_head(text: &mut Vec<u8>, asked: &Asked, name: &str) -> Result<(), AllocError>
    ensures { OnOk result (text.new.items ≡ text.old.items
        ++ (if has_headings asked.now then heading text.old.items name.now else [])) }
{
    if asked.has_headings() {
        put_heading(text, name)
    } else {
        Ok(())
    }
}

/// Adds the heading of a text, behind an empty line where others stand before it.
fn put_heading(text: &mut Vec<u8>, name: &str) -> Result<(), AllocError>
    ensures { OnOk result (text.new.items ≡ text.old.items ++ heading text.old.items name.now) }
{
    if !text.is_empty() {
        text.push(b'\n')?;
    }
    text.extend_from_slice(b"==> ")?;
    text.extend_from_slice(name.as_bytes())?;
    text.extend_from_slice(b" <==\n")
}

/// Adds that the text of a name can't be read, and why.
fn add_complaint(
    alloc: Global,
    name: &str,
    failed: io::Error,
    report: &mut Report,
) -> Result<(), AllocError>
    ensures { OnOk result (AddsComplaint name.now report.old report.new) }
{
    let reason = format!(in alloc; "{failed}")?;
    let complaints = &mut report.complaints;
    complaints.extend_from_slice(name.as_bytes())?;
    complaints.extend_from_slice(b": ")?;
    complaints.extend_from_slice(reason.as_bytes())?;
    complaints.push(b'\n')?;
    report.status = FAILED;
    Ok(())
}

/// What a request is answered of a text.
fn worked<R: Threads + Wait + Sync + Clock + CpuClock>(
    rt: &R,
    alloc: Global,
    request: &Request,
    text: Text<'_>,
) -> Result<Answer, Failure>
    ensures answers { IfOk result (IsRightFor text.entry.name.now request.now text.entry.source.now) }
    ensures fails { IfErr result (λ failure. failure ≡ Memory) }
{
    match threads_named(alloc, text.source, request.threads()) {
        Ok(threads) => answered(rt, alloc, request, threads, text),
        Err(ThreadFault::Memory) => Err(Failure::Memory),
        Err(ThreadFault::Unknown { name, near }) => Ok(Answer {
            status: WRONG_WORDS,
            text: unknown_line(alloc, name.as_str(), &near)?.into_bytes(),
            remarks: Vec::new(alloc),
            is_linted: false,
        }),
    }
}

/// The same, where the words of the request mean these threads.
fn answered<R: Threads + Wait + Sync + Clock + CpuClock>(
    rt: &R,
    alloc: Global,
    request: &Request,
    threads: Vec<u16>,
    text: Text<'_>,
) -> Result<Answer, Failure>
    requires { AreMeant text.source.now (threads_of request.now) threads.items }
    ensures answers { IfOk result (IsRightFor text.entry.name.now request.now text.entry.source.now) }
    ensures fails { IfErr result (λ failure. failure ≡ Memory) }
{
    let threads = meant_by(alloc, request, threads, text)?;
    match done(rt, alloc, request, threads, text) {
        Ok(answer) => Ok(answer),
        Err(Refusal::Memory) => Err(Failure::Memory),
        Err(refusal) => Ok(Answer {
            status: REFUSED,
            text: refusal_written(alloc, request, text, &refusal)?.into_bytes(),
            remarks: Vec::new(alloc),
            is_linted: refusal.has_report(),
        }),
    }
}

/// These threads of a request, each as often as it has turns.
fn spread(alloc: Global, request: &Request, threads: Vec<u16>) -> Result<Vec<u16>, AllocError>
    ensures { IfOk result (λ spread. spread.items ≡ spread_by request.now threads.items) }
{
    match request {
        Request::Schedule { schedule, .. } | Request::Chart { schedule, .. } => {
            repeated(alloc, schedule.counts.as_slice(), threads.as_slice())
        }
        Request::Placed(placed) => spread_placed(alloc, &placed.of, threads),
        _ => Ok(threads),
    }
}

/// The same of a run with places.
fn spread_placed(alloc: Global, of: &PlacedRun, threads: Vec<u16>) -> Result<Vec<u16>, AllocError>
    ensures { IfOk result (λ spread. spread.items ≡ spread_placed_by of.now threads.items) }
{
    match of {
        PlacedRun::Schedule(schedule) | PlacedRun::Chart(schedule) => {
            repeated(alloc, schedule.counts.as_slice(), threads.as_slice())
        }
        _ => Ok(threads),
    }
}

/// The threads that the words of a request mean, where they name these: each as often as it has turns.
fn meant_by(
    alloc: Global,
    request: &Request,
    threads: Vec<u16>,
    text: Text<'_>,
) -> Result<Vec<u16>, AllocError>
    requires { AreMeant text.source.now (threads_of request.now) threads.items }
    ensures { IfOk result (λ meant. AreMeantBy text.entry.source.now request.now meant.items) }
{
    spread(alloc, request, threads)
}

/// The answer to a request, whose words mean these threads, that is not refused.
fn done<R: Threads + Wait + Sync + Clock + CpuClock>(
    rt: &R,
    alloc: Global,
    request: &Request,
    threads: Vec<u16>,
    text: Text<'_>,
) -> Result<Answer, Refusal>
    requires { AreMeantBy text.source.now request.now threads.items }
    ensures answers { IfOk result (IsDone text.entry.name.now request.now text.entry.source.now) }
    ensures refuses { IfErr result (IsRefusalDue text.entry.name.now request.now text.entry.source.now) }
{
    if let Request::TimedRun { k, fuel, format } = request {
        let timed = timed_outcome(rt, alloc, text.source, *k, *fuel, *format)?;
        return Ok(timed_answer(timed));
    }
    if let Request::Placed(placed) = request {
        if let PlacedRun::TimedRun = &placed.of {
            let timed = placed_timed_run(rt, alloc, placed_text(text), placed.k, placed.fuel)?;
            return Ok(timed_answer(timed));
        }
    }
    if let Request::Lint { k, format, rulings } = request {
        let telling = Telling {
            format: *format,
            rulings: rulings.as_slice(),
        };
        let warned = findings(alloc, file_of(text.name), text.source, *k, telling)?;
        return Ok(warned_answer(alloc, warned));
    }
    Ok(Answer {
        status: DONE,
        text: printed(rt, alloc, request, threads, text)?,
        remarks: Vec::new(alloc),
        is_linted: false,
    })
}

/// The answer that tells of warnings.
fn warned_answer(alloc: Global, warned: Warned) -> Answer
    ensures status { result.status ≡ warned_status warned.is_refused }
    ensures text { result.text.items ≡ string_bytes warned.text }
    ensures remarks { result.remarks.items ≡ [] }
    ensures linted { result.is_linted ≡ false }
{
    Answer {
        status: if warned.is_refused { REFUSED } else { DONE },
        text: warned.text.into_bytes(),
        remarks: Vec::new(alloc),
        is_linted: false,
    }
}

/// The answer that tells of a run, and what it took.
fn timed_answer(timed: Timed) -> Answer
    ensures status { result.status ≡ done_status }
    ensures text { result.text.items ≡ string_bytes timed.outcome }
    ensures linted { result.is_linted ≡ false }
{
    Answer {
        status: DONE,
        text: timed.outcome.into_bytes(),
        remarks: timed.times.into_bytes(),
        is_linted: false,
    }
}

/// Adds the name of a thread in place of one that is near it.
fn put_near(text: &mut String, near: &str) -> Result<(), AllocError>
    ensures { OnOk result (string_bytes text.new ≡ string_bytes text.old ++ near_text near.now) }
{
    text.push_str("did you mean `")?;
    text.push_str(near)?;
    text.push_str("`?")?;
    Ok(())
}

/// Adds what is wanted in the place of the name of no thread.
fn put_wanted(text: &mut String, near: &Option<String>) -> Result<(), AllocError>
    ensures { OnOk result (string_bytes text.new
        ≡ string_bytes text.old ++ wanted_text (option_map string_bytes near.now)) }
{
    match near {
        Some(near) => put_near(text, near.as_str()),
        None => text.push_str("a number from 0 to 65535 or a thread's name is wanted"),
    }
}

/// That no thread has a name, and what is wanted in its place.
fn unknown_line(alloc: Global, name: &str, near: &Option<String>) -> Result<String, AllocError>
    ensures { IfOk result (λ line. string_bytes line
        ≡ unknown_text name.now (option_map string_bytes near.now)) }
{
    let mut line = String::new(alloc);
    line.push_str("error: unknown thread '")?;
    line.push_str(name)?;
    line.push_str("': ")?;
    put_wanted(&mut line, near)?;
    line.push_str("\n")?;
    Ok(line)
}

/// What is written for a refusal: a document, where documents are asked for and the refusal has one, or its line.
fn refusal_written(
    alloc: Global,
    request: &Request,
    text: Text<'_>,
    refusal: &Refusal,
) -> Result<String, AllocError>
    ensures { IfOk result (λ written. IsWrittenFor text.entry.name.now request.now text.entry.source.now refusal.now
        (string_bytes written)) }
{
    if !request.asks_document() {
        return refusal_line(alloc, request, text, refusal);
    }
    match refusal_document(alloc, placed_text(text), request.path_length(), refusal)? {
        Some(document) => Ok(document),
        None => refusal_line(alloc, request, text, refusal),
    }
}

/// The line of a refusal. Before it stands the name of the file whose text is refused, and where its mistake stands.
fn refusal_line(
    alloc: Global,
    request: &Request,
    text: Text<'_>,
    refusal: &Refusal,
) -> Result<String, AllocError>
    ensures { IfOk result (λ line. IsLineFor text.entry.name.now request.now text.entry.source.now refusal.now
        (string_bytes line)) }
{
    let mut line = String::new(alloc);
    if is_marked(text.name, refusal) {
        line.push_str(text.name)?;
        put_place(alloc, &mut line, request, text.source, refusal)?;
        line.push_str(": ")?;
    }
    put_refusal(&mut line, refusal)?;
    line.push_str("\n")?;
    Ok(line)
}

/// Adds where the mistake stands for which a text is refused. Other refusals have no place.
fn put_place(
    alloc: Global,
    line: &mut String,
    request: &Request,
    source: &[u8],
    refusal: &Refusal,
) -> Result<(), AllocError>
    ensures { OnOk result (AddsPlaceOf request.now source.now refusal.now (string_bytes line.old)
        (string_bytes line.new)) }
{
    match refusal {
        Refusal::Source(_) => put_mistake_place(alloc, line, source, request.path_length()),
        _ => Ok(()),
    }
}

/// Whether the name of a text stands before the line of its refusal: that of a file does, but for a report, which has
/// lines of its own.
fn is_marked(name: &str, refusal: &Refusal) -> bool
    ensures { result ≡ is_marked_for name.now refusal.now }
{
    match refusal {
        Refusal::Report(_) => false,
        _ => name != INPUT,
    }
}
