//! Whether a worker takes a stretch along, by how long the last ones were.

/// A stretch of fewer events is short: it isn't worth the copy.
const FEW_EVENTS: u32 = 16;

/// The most visits in a row in which a worker takes none along.
const LONGEST_PAUSE: u8 = 15;

/// How a worker has fared with stretches: for how many visits it paused after the last short one, and for how many
/// visits more it pauses. Each short one behind a short one makes the pause longer.
#[derive(Clone, Copy)]
pub struct Patience {
    pause: u8,
    left: u8,
}

impl Patience {
    /// Nothing is known.
    pub fn new() -> Patience {
        Patience { pause: 0, left: 0 }
    }

    /// Whether a stretch is taken along from the next visit.
    pub fn takes_next(&mut self) -> bool {
        if self.left > 0 {
            self.left -= 1;
            return false;
        }
        true
    }

    /// A stretch of so many events was run.
    pub fn learn(&mut self, events: u32) {
        self.pause = if events < FEW_EVENTS {
            self.pause
                .saturating_mul(2)
                .saturating_add(1)
                .min(LONGEST_PAUSE)
        } else {
            0
        };
        self.left = self.pause;
    }
}
