//! One run of the program, over any reader and writers, and any texts.

ghost use Rattle.std.specs.{Prelude.{◌≡◌, ◌⊎◌, [], true, false, IfOk, IfErr, map}, Io.KnownBytes.{Appends}};
ghost use Rattle.std.specs.String.{string_bytes};
ghost use Rattle.sect_command.specs.declared.failure.Failure.TheVariants.{Memory};
ghost use Rattle.sect_command.specs.Statuses.{failed, wrong_words};
ghost use Rattle.sect_command.specs.Telling.{IsAnswered, IsAnsweredAloud, IsTold, IsReportTold, no_texts};

use crate::answering::reported;
use crate::colours::DARK;
use crate::failure::Failure;
use crate::options::wanted_of;
use crate::report::Report;
use crate::request::Wanted;
use crate::serving::served;
use crate::statuses::{FAILED, WRONG_WORDS};
use crate::texts::{Around, NoTexts, Texts};
use crate::usage::UsageFault;
use std::alloc::Global;
use std::io::{Read, Write};
use std::sync::Wait;
use std::thread::Threads;
use std::time::{Clock, CpuClock};

/// What a run writes that lacked memory.
pub const OUT_OF_MEMORY: &[u8] = b"out of memory\n";

/// Standard output and standard error of a run.
#[derive(Drop)]
pub struct Writers<O: Write, E: Write> {
    pub output: O,
    pub errors: E,
}

/// The status of a run, and what is to be said on standard error.
#[derive(Drop)]
struct Ended {
    status: u8,
    complaints: Vec<u8>,
}

/// Judges the words (the program's name first), reads the whole input, works, and writes the answer; or serves an
/// editor, if they ask for that. It gives the exit status: 0 done, 1 refused, 2 the words are wrong, 3 want of memory,
/// or the input or the output failed. There are no files: one that the words name can't be read. What it writes isn't
/// shown anywhere.
pub fn command<R: Threads + Wait + Sync + Clock + CpuClock + AllocGlobal, I: Read + Drop, O: Write>(
    rt: &R,
    words: &[String],
    input: I,
    output: &mut O,
) -> u8
    ensures { IsTold (map string_bytes words.now) (I.remaining input) (O.contents output.old) (O.contents output.new)
        result }
{
    let around = Around {
        texts: &NoTexts,
        screen: DARK,
    };
    answered(rt, words, &around, input, output).status
}

/// As `command`, for words that may name texts. What is said of one that can't be read goes to standard error, the
/// status is 3 then, and the others are answered.
pub fn command_on_texts<
    R: Threads + Wait + Sync + Clock + CpuClock + AllocGlobal,
    T: Texts,
    I: Read + Drop,
    O: Write,
    E: Write,
>(rt: &R, words: &[String], around: &Around<'_, T>, input: I, writers: &mut Writers<O, E>) -> u8
    ensures { IsAnsweredAloud (map string_bytes words.now) (T.bytes_of around.now.texts.now) around.now.screen
        (I.remaining input)
        (O.contents writers.old.output) (O.contents writers.new.output) (E.contents writers.old.errors)
        (E.contents writers.new.errors) result }
{
    let ended = answered(rt, words, around, input, &mut writers.output);
    if !is_written(&mut writers.errors, ended.complaints.as_slice()) {
        return FAILED;
    }
    ended.status
}

/// Judges the words and answers what they ask for.
fn answered<
    R: Threads + Wait + Sync + Clock + CpuClock + AllocGlobal,
    T: Texts,
    I: Read + Drop,
    O: Write,
>(rt: &R, words: &[String], around: &Around<'_, T>, input: I, output: &mut O) -> Ended
    ensures { IsAnswered (map string_bytes words.now) (T.bytes_of around.now.texts.now) around.now.screen
        (I.remaining input)
        (O.contents output.old) (O.contents output.new) result.status result.complaints.items }
{
    match wanted_of(rt.alloc(), words) {
        Ok(Wanted::Session) => Ended {
            status: served(rt.alloc(), input, output),
            complaints: Vec::new(rt.alloc()),
        },
        Ok(Wanted::Answers(asked)) => {
            let report = reported(rt, rt.alloc(), around, &asked, input);
            report_told(rt.alloc(), output, report)
        }
        Err(fault) => {
            let report = words_refused(rt.alloc(), fault);
            report_told(rt.alloc(), output, report)
        }
    }
}

/// Writes what a run answers, or why there is no answer.
fn report_told<O: Write>(alloc: Global, output: &mut O, report: Result<Report, Failure>) -> Ended
    ensures { IsReportTold report (O.contents output.old) (O.contents output.new) result.status
        result.complaints.items }
{
    match report {
        Ok(report) if is_written(output, report.text.as_slice()) => Ended {
            status: report.status,
            complaints: report.complaints,
        },
        Ok(_) => failed(alloc),
        Err(Failure::Memory) => {
            told(output, FAILED, OUT_OF_MEMORY);
            failed(alloc)
        }
        Err(Failure::Streams) => {
            told(output, FAILED, b"input or output failed\n");
            failed(alloc)
        }
    }
}

/// The end of a run that failed, of which no more is said.
fn failed(alloc: Global) -> Ended
    ensures status { result.status ≡ failed }
    ensures complaints { result.complaints.items ≡ [] }
{
    Ended {
        status: FAILED,
        complaints: Vec::new(alloc),
    }
}

/// Writes a text, and gives the status, or `FAILED` where the writer failed.
pub fn told<O: Write>(output: &mut O, status: u8, text: &[u8]) -> u8
    ensures { (result ≡ failed)
        ⊎ ((result ≡ status) × Appends (O.contents output.old) (O.contents output.new) text.now) }
{
    if is_written(output, text) {
        status
    } else {
        FAILED
    }
}

/// Writes a text, and says whether the writer took it.
fn is_written<O: Write>(output: &mut O, text: &[u8]) -> bool
    ensures { (result ≡ false)
        ⊎ ((result ≡ true) × Appends (O.contents output.old) (O.contents output.new) text.now) }
{
    match output.write_all(text) {
        Ok(()) => output.flush().is_ok(),
        Err(_) => false,
    }
}

/// What is answered to words that are wrong.
fn words_refused(alloc: Global, fault: UsageFault) -> Result<Report, Failure>
    ensures answers { IfOk result (λ report. (report.status ≡ wrong_words) × (report.complaints.items ≡ [])) }
    ensures fails { IfErr result (λ failure. failure ≡ Memory) }
{
    match fault {
        UsageFault::Memory => Err(Failure::Memory),
        fault => Ok(Report {
            status: WRONG_WORDS,
            text: format!(in alloc; "{fault}")?.into_bytes(),
            complaints: Vec::new(alloc),
        }),
    }
}
