//! What `run --time` tells of a run beside its outcome.

use sect_draw::put_key;
use sect_run::{Measured, Tally};
use sect_types::Program;
use sect_world::Trace;
use std::alloc::AllocError;
use std::fmt::Write;
use std::time::{Clock, CpuClock, Duration, Instant};

/// What a clock on the wall and the processors' own say; none where one couldn't be read.
#[derive(Clone, Copy)]
pub struct Reading {
    clock: Option<Instant>,
    processors: Option<Duration>,
}

/// What a run took, on the clock and of all processors; none where that isn't known.
#[derive(Clone, Copy)]
pub struct Took {
    clock: Option<Duration>,
    processors: Option<Duration>,
}

impl Reading {
    /// What both say now.
    pub fn of<R: Clock + CpuClock>(rt: &R) -> Reading {
        Reading {
            clock: Instant::now(rt).ok(),
            processors: rt.process_cpu_time().ok(),
        }
    }

    /// The time between an earlier reading and this one.
    pub fn since(&self, earlier: Reading) -> Took {
        let clock = match (self.clock, earlier.clock) {
            (Some(now), Some(then)) => Some(now.saturating_duration_since(then)),
            _ => None,
        };
        let processors = match (self.processors, earlier.processors) {
            (Some(now), Some(then)) => Some(now.saturating_sub(then)),
            _ => None,
        };
        Took { clock, processors }
    }
}

/// Adds a time in seconds.
fn put_seconds(text: &mut String, time: Duration) -> Result<(), AllocError> {
    Ok(write!(text, "{}.{:06} s", time.as_secs(), time.subsec_micros())?)
}

/// Adds a line with a time, if it is known.
fn put_time(text: &mut String, name: &str, time: Option<Duration>) -> Result<(), AllocError> {
    text.push_str(name)?;
    match time {
        Some(time) => put_seconds(text, time)?,
        None => text.push_str("unknown")?,
    }
    text.push_str("\n")
}

/// Adds a line for the waits for one key at a section.
fn put_tally(text: &mut String, program: &Program, tally: &Tally) -> Result<(), AllocError> {
    let section = tally.awaited.section;
    let times = if tally.count == 1 { "time" } else { "times" };
    write!(
        text,
        "section {section} waited {} {times} for ",
        tally.count
    )?;
    put_key(text, program, tally.awaited.grip.key)?;
    text.push_str(", ")?;
    put_seconds(text, tally.total)?;
    text.push_str("\n")
}

/// Adds a line for each key for which threads have waited at a section, or one that says that none has.
fn put_section(
    text: &mut String,
    program: &Program,
    section: u16,
    tallies: &[Tally],
) -> Result<(), AllocError> {
    let mut has_waited = false;
    for tally in tallies {
        if tally.awaited.section == section {
            put_tally(text, program, tally)?;
            has_waited = true;
        }
    }
    if !has_waited {
        writeln!(text, "section {section} never waited")?;
    }
    Ok(())
}

/// Adds what a run took, how often a thread gave all back to enter its section anew, how many stretches couldn't be
/// added, and what the sections waited for.
pub fn put_times(
    text: &mut String,
    program: &Program,
    took: Took,
    events: &Trace,
    measured: &Measured,
) -> Result<(), AllocError> {
    put_time(text, "clock ", took.clock)?;
    put_time(text, "processors ", took.processors)?;
    writeln!(text, "agains {}", events.agains())?;
    writeln!(text, "stale stretches {}", measured.stale)?;
    for section in 0..program.section_count() {
        put_section(text, program, section, measured.tallies.as_slice())?;
    }
    Ok(())
}
