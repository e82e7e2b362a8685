//! All outcomes that a program can have. The states to which whole sections lead are gone through as a graph is by
//! breadth-first search, so equal states are gone on from once. States are equal where they differ only in locals of
//! threads that have ended.

ghost use Rattle.std.specs.Prelude.{◌≡◌, ◌<◌, length, MatchResult};
ghost use Rattle.sect_serial.specs.Exploring.{Explores, IsUnlisted};
ghost use Rattle.sect_serial.specs.declared.exploring.OutcomesFault.TheVariants.{Memory};
ghost use Rattle.sect_serial.specs.steps.States.{AreStates, AreAhead, AreAll, AreEnds, IsFollowed, Keeps, Leads};

use crate::run::Run;
use crate::states::{Ends, Order, Outcomes, States};
use crate::whole::SerialFault;
use sect_types::Program;
use std::alloc::{AllocError, AllocFailed, Global};
use thiserror::Error;

/// Why the outcomes of a program aren't listed.
#[derive(Debug, Drop, Error)]
pub enum OutcomesFault {
    /// Want of memory.
    #[error("out of memory")]
    Memory,
    /// Whole sections lead to more states than may be kept.
    #[error("90 TooManyStates")]
    TooManyStates,
}

impl From<AllocError> for OutcomesFault {
    ghost use Rattle.std.specs.Prelude.{◌≡◌};
    ghost use Rattle.sect_serial.specs.declared.exploring.OutcomesFault.TheVariants.{Memory};

    ghost from_gives = { λ _ r. r ≡ Memory };

    fn from(_refused: AllocError) -> OutcomesFault {
        OutcomesFault::Memory
    }
}

impl<T: Drop> From<AllocFailed<T>> for OutcomesFault {
    ghost use Rattle.std.specs.Prelude.{◌≡◌};
    ghost use Rattle.sect_serial.specs.declared.exploring.OutcomesFault.TheVariants.{Memory};

    ghost from_gives = { λ _ r. r ≡ Memory };

    fn from(_refused: AllocFailed<T>) -> OutcomesFault {
        OutcomesFault::Memory
    }
}

/// A program whose outcomes are sought, the fuel of each thread, and the most states that may be kept.
#[derive(Drop)]
struct Search<'a> {
    program: &'a Program,
    fuel: u32,
    most: u32,
}

impl<'a> Search<'a> {
    /// Keeps a state with the order that leads to it, unless it is there.
    fn keep(&self, states: &mut States<'a>, run: Run<'a>, order: Order) -> Result<(), OutcomesFault>
        requires states { AreStates self.now.program.now self.now.fuel self.now.most states.old }
        requires leads { Leads self.now.program.now self.now.fuel order run }
        ensures { MatchResult result (λ _. Keeps self.now.most run.entry order states.old states.new)
            (IsUnlisted self.now.program.now self.now.fuel self.now.most) }
    {
        if states.has(&run) {
            return Ok(());
        }
        if states.len() >= self.most as usize {
            return Err(OutcomesFault::TooManyStates);
        }
        states.add(run, order)?;
        Ok(())
    }

    /// Keeps the states to which one section more of some thread leads from the state at this place.
    fn follow(
        &self,
        alloc: Global,
        states: &mut States<'a>,
        place: usize,
    ) -> Result<(), OutcomesFault>
        requires states { AreStates self.now.program.now self.now.fuel self.now.most states.old }
        requires there { place < length states.old }
        requires ahead { AreAhead states.old place }
        ensures { MatchResult result
            (λ _. IsFollowed self.now.program.now self.now.fuel self.now.most states.old place states.new)
            (IsUnlisted self.now.program.now self.now.fuel self.now.most) }
    {
        for thread in 0..self.program.thread_count() {
            let (run, order) = states.at(place);
            let mut next = run.try_clone()?;
            let mut longer = order.try_clone()?;
            if next.run_section(alloc, self.program, thread)? {
                longer.push(thread)?;
                self.keep(states, next, longer)?;
            }
        }
        Ok(())
    }

    /// The states to which whole sections lead, each once.
    fn states(&self, alloc: Global) -> Result<States<'a>, OutcomesFault>
        ensures { MatchResult result (AreAll self.now.program.now self.now.fuel self.now.most)
            (IsUnlisted self.now.program.now self.now.fuel self.now.most) }
    {
        let mut states = States::new(alloc);
        let run = Run::begin(alloc, self.program, self.fuel)?;
        self.keep(&mut states, run, Order::new(alloc))?;
        let mut place = 0;
        'places: while place < states.len() {
            self.follow(alloc, &mut states, place)?;
            place += 1;
        }
        Ok(states)
    }

    /// The ends of the states in which no thread has a section left, each once.
    fn ends(&self, alloc: Global, states: &States<'a>) -> Result<Ends, OutcomesFault>
        requires { AreAll self.now.program.now self.now.fuel self.now.most states.now }
        ensures { MatchResult result
            (AreEnds self.now.program.now self.now.fuel states.now (length states.now)) (λ why. why ≡ Memory) }
    {
        let mut ends = Ends::new(alloc);
        for place in 0..states.len() {
            let (run, order) = states.at(place);
            match run.try_clone()?.finish(alloc, self.program) {
                Ok(end) => ends.keep(end, order)?,
                Err(SerialFault::SectionsLeft { .. }) => (),
                Err(SerialFault::NoSection { .. }) => unreachable!(),
                Err(SerialFault::Memory) => return Err(OutcomesFault::Memory),
            }
        }
        Ok(ends)
    }
}

/// All outcomes that a program can have where each thread has this much fuel, each once, with the first order of whole
/// sections that gives it, and as these orders come: the shorter first, and those of one length as their threads do, by
/// number. Where whole sections lead to more than `most` states, the first included, none is listed.
/// Hints aren't looked at.
pub fn outcomes(
    alloc: Global,
    program: &Program,
    fuel: u32,
    most: u32,
) -> Result<Outcomes, OutcomesFault>
    ensures { MatchResult result (Explores program.now fuel most) (IsUnlisted program.now fuel most) }
{
    let search = Search {
        program,
        fuel,
        most,
    };
    let states = search.states(alloc)?;
    let ends = search.ends(alloc, &states)?;
    Ok(Outcomes::new(states.len(), ends))
}
