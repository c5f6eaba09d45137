// Halting, resuming, and the clock call.
ghost use Rattle.room.specs.Calls.{answer_told, Gives};
ghost use Rattle.room.specs.Halts.{halt_call, resume_call, clock_call};

use crate::Room;
use crate::limits::Time;
use crate::refusal::Refusal;
use allocation::cause::EndCause;
use allocation::ranking::Ranking;
use interval::source::IntervalSource;
use market::Market;

impl<M: Market, R: Ranking, S: IntervalSource> Room<M, R, S> {
    /// Halts the room at this time, in milliseconds, or at its own if that is later; an open auction ends for H.
    /// Refusal: 1. A halted room may be halted again.
    pub fn halt(&mut self, time: u64) -> Result<(), Refusal<M::Fault>>
        ensures { Gives M.Market R.Ranking S.IntervalSource self.old self.new (answer_told M.Market result)
            (λ w s. halt_call s time) }
    {
        let time = Time::checked(time)?;
        self.step_clock(time);
        self.end(EndCause::Halt);
        self.halted = true;
        Ok(())
    }

    /// Lets auctions be opened again. Refusal: 1. A room that is not halted may be resumed.
    pub fn resume(&mut self, time: u64) -> Result<(), Refusal<M::Fault>>
        ensures { Gives M.Market R.Ranking S.IntervalSource self.old self.new (answer_told M.Market result)
            (λ w s. resume_call s time) }
    {
        let time = Time::checked(time)?;
        self.step_clock(time);
        self.halted = false;
        Ok(())
    }

    /// Tells the room the time, in milliseconds: an auction whose deadline is reached ends for T. Refusal: 1.
    pub fn clock(&mut self, time: u64) -> Result<(), Refusal<M::Fault>>
        ensures { Gives M.Market R.Ranking S.IntervalSource self.old self.new (answer_told M.Market result)
            (λ w s. clock_call s time) }
    {
        let time = Time::checked(time)?;
        self.step_clock(time);
        Ok(())
    }
}
