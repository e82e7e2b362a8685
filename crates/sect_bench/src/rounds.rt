//! Rounds of requests to the lock table.

use crate::failure::Failure;
use sect_modes::{Key, Mode};
use sect_table::{Answer, Grants, Table, TableFault};
use std::alloc::Global;

/// How many threads ask in each round.
pub const THREADS: u16 = 64;

/// Does so many rounds: each thread asks for one key in exclusive mode, in turn over so many keys, and then each gives
/// back what it holds. It gives how many requests were granted at once.
pub fn granted(alloc: Global, keys: u32, rounds: u32) -> Result<u64, Failure> {
    let mut table = Table::with_threads(alloc, usize::from(THREADS))?;
    let mut grants = Grants::with_threads(alloc, usize::from(THREADS))?;
    let mut granted: u64 = 0;
    for round in 0..rounds {
        granted = granted.saturating_add(asked(&mut table, keys, round)?);
        given_back(&mut table, &mut grants);
    }
    Ok(granted)
}

/// Each thread asks for one key; how many were granted.
fn asked(table: &mut Table, keys: u32, round: u32) -> Result<u64, TableFault> {
    let mut granted = 0;
    for thread in 0..THREADS {
        let place = round
            .wrapping_mul(u32::from(THREADS))
            .wrapping_add(u32::from(thread));
        let key = Key::Made {
            thread: 0,
            number: place.checked_rem(keys).unwrap_or(0),
        };
        if usize::from(thread) < table.threads()
            && table.request(thread, key, Mode::Exclusive)? == Answer::Granted
        {
            granted += 1;
        }
    }
    Ok(granted)
}

/// Each thread in order gives back what it holds.
fn given_back(table: &mut Table, grants: &mut Grants) {
    for thread in 0..THREADS {
        if usize::from(thread) < table.threads()
            && !table.is_waiting(thread)
            && table.threads() <= grants.threads()
        {
            table.release_all(thread, grants);
        }
    }
}
