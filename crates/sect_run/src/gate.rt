//! Where threads pass after each event of their own turns.

use sect_emit::Grip;
use sect_world::EventKind;

/// What a thread waits for: the key that it wants first, and its mode, at the section of this number.
#[derive(Clone, Copy)]
pub struct Awaited {
    pub section: u16,
    pub grip: Grip,
}

/// Is told of each event of a thread's own turns, by whoever made the turn and without the run's lock: the other
/// threads may go on meanwhile. A gate may keep the thread for a while; it has to let it go.
pub trait Gate: Sync {
    /// Whether the worker of this thread is to be started. The turns of a thread without a worker are the caller's, as
    /// where the system can't start one.
    fn starts(&self, thread: u16) -> bool;

    /// Whether threads needn't pass here: then nobody tells the gate of an event, and a worker may make several turns
    /// of its thread in a row. It is asked once a run, before the first worker is started.
    fn is_open(&self) -> bool;

    /// This thread has made an event of this kind.
    fn at(&self, thread: u16, kind: EventKind);

    /// The worker of this thread is about to run a stretch of the thread's section without the run's lock. Only where
    /// the gate is open does it run any.
    fn apart(&self, _thread: u16) {}

    /// The worker of this thread has brought a stretch that could not be added to the run, since the thread or what the
    /// stretch knew of the store wasn't as it was. Its events are made anew, by turns.
    fn was_stale(&self, _thread: u16) {}

    /// The worker of this thread is about to wait, without the run's lock, until the thread is let in to a key. An open
    /// gate is told of it too.
    fn waits(&self, _thread: u16, _awaited: Awaited) {}

    /// The worker of this thread has waited.
    fn has_waited(&self, _thread: u16) {}
}

/// A gate that is open.
#[derive(Clone, Copy)]
pub struct OpenGate;

impl Gate for OpenGate {
    fn starts(&self, _thread: u16) -> bool {
        true
    }

    fn is_open(&self) -> bool {
        true
    }

    fn at(&self, _thread: u16, _kind: EventKind) {}
}

/// A run's gate, and whether it was open when the run began.
#[derive(Drop)]
pub struct Passage<'a, G: Gate> {
    pub gate: &'a G,
    pub is_open: bool,
}

impl<'a, G: Gate> Passage<'a, G> {
    /// The passage by a gate, which is asked whether it is open.
    pub fn by(gate: &'a G) -> Passage<'a, G> {
        let is_open = gate.is_open();
        Passage { gate, is_open }
    }

    /// Tells the gate of an event of a thread, unless it is open.
    pub fn tell(&self, thread: u16, kind: EventKind) {
        if !self.is_open {
            self.gate.at(thread, kind);
        }
    }
}
