//! What threads wait for in a run, and how long.

use crate::gate::{Awaited, Gate};
use sect_world::EventKind;
use std::alloc::{AllocError, Global};
use std::rt::Clock;
use std::sync::atomic::{AtomicU32, Ordering};
use std::sync::{Mutex, Wait};
use std::time::{Duration, Instant};

/// How often threads have waited for a key at a section, and how long in all.
#[derive(Clone, Copy)]
pub struct Tally {
    pub awaited: Awaited,
    pub count: u32,
    pub total: Duration,
}

/// What a thread waits for, and since when, where the clock could be read.
#[derive(Clone, Copy)]
struct Waiting {
    awaited: Awaited,
    since: Option<Instant>,
}

/// What each thread waits for, if it waits; the waits that are over; and whether one more couldn't be noted.
#[derive(Drop)]
struct Waits {
    waiting: Vec<Option<Waiting>>,
    tallies: Vec<Tally>,
    was_refused: bool,
}

/// Whether both wait for the same key at the same section.
fn are_alike(one: Awaited, other: Awaited) -> bool {
    one.section == other.section && one.grip.key == other.grip.key
}

/// The time from one reading of a clock to another, or none where one failed.
fn time_between(since: Option<Instant>, now: Option<Instant>) -> Duration {
    match (since, now) {
        (Some(since), Some(now)) => now.saturating_duration_since(since),
        _ => Duration::ZERO,
    }
}

impl Waits {
    /// None of so many threads waits or has waited.
    fn none(alloc: Global, threads: u16) -> Result<Waits, AllocError> {
        let mut waiting = Vec::new(alloc);
        for _ in 0..threads {
            waiting.push(None)?;
        }
        Ok(Waits {
            waiting,
            tallies: Vec::new(alloc),
            was_refused: false,
        })
    }

    /// A thread begins to wait.
    fn begin(&mut self, thread: u16, waiting: Waiting) {
        if let Some(place) = self.waiting.get_mut(thread as usize) {
            *place = Some(waiting);
        }
    }

    /// Adds a wait of so long.
    fn add(&mut self, awaited: Awaited, time: Duration) -> Result<(), AllocError> {
        for tally in self.tallies.as_mut_slice() {
            if are_alike(tally.awaited, awaited) {
                tally.count = tally.count.saturating_add(1);
                tally.total = tally.total.saturating_add(time);
                return Ok(());
            }
        }
        self.tallies.push(Tally {
            awaited,
            count: 1,
            total: time,
        })?;
        Ok(())
    }

    /// A thread has waited until now.
    fn end(&mut self, thread: u16, now: Option<Instant>) {
        let Some(Some(waiting)) = self.waiting.get(thread as usize).copied() else {
            return;
        };
        let time = time_between(waiting.since, now);
        if self.add(waiting.awaited, time).is_err() {
            self.was_refused = true;
        }
    }
}

/// A gate that is open and measures what threads wait for, by the clock of `rt`.
#[derive(Drop)]
pub struct Meter<'a, R: Clock + Wait + Sync> {
    rt: &'a R,
    waits: Mutex<Waits>,
    stale: AtomicU32,
}

/// What a meter has measured.
#[derive(Drop)]
pub struct Measured {
    /// How many stretches couldn't be added to the run.
    pub stale: u32,
    /// The waits, each key of a section once, in the order in which they were first over.
    pub tallies: Vec<Tally>,
}

impl<'a, R: Clock + Wait + Sync> Meter<'a, R> {
    /// A meter of a run of so many threads.
    pub fn new(rt: &'a R, alloc: Global, threads: u16) -> Result<Meter<'a, R>, AllocError> {
        Ok(Meter {
            rt,
            waits: Mutex::new(Waits::none(alloc, threads)?),
            stale: AtomicU32::new(0),
        })
    }

    /// What was measured. Refused where a wait couldn't be noted for want of memory.
    pub fn measured(self) -> Result<Measured, AllocError> {
        let Meter {
            rt: _,
            waits,
            stale,
        } = self;
        let waits = waits.into_inner();
        if waits.was_refused {
            return Err(AllocError);
        }
        Ok(Measured {
            stale: stale.into_inner(),
            tallies: waits.tallies,
        })
    }
}

impl<'a, R: Clock + Wait + Sync> Gate for Meter<'a, R> {
    fn starts(&self, _thread: u16) -> bool {
        true
    }

    fn is_open(&self) -> bool {
        true
    }

    fn at(&self, _thread: u16, _kind: EventKind) {}

    fn was_stale(&self, _thread: u16) {
        self.stale.fetch_add(1, Ordering::SeqCst);
    }

    fn waits(&self, thread: u16, awaited: Awaited) {
        let since = Instant::now(self.rt).ok();
        self.waits
            .lock(self.rt)
            .begin(thread, Waiting { awaited, since });
    }

    fn has_waited(&self, thread: u16) {
        let now = Instant::now(self.rt).ok();
        self.waits.lock(self.rt).end(thread, now);
    }
}
