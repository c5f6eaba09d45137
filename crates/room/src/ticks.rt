// Ticks: the market takes them, and the open auction takes notice of what is then shown.
ghost use Rattle.room.specs.Calls.{answer_told, Gives, HasEffect};
ghost use Rattle.room.specs.Ticks.{after_shown, tick_call};

use crate::Room;
use crate::limits::Time;
use crate::refusal::Refusal;
use allocation::ranking::Ranking;
use interval::source::IntervalSource;
use market::Market;
use market::range::TurnedQuote;

impl<M: Market, R: Ranking, S: IntervalSource> Room<M, R, S> {
    // The open auction, if there is one, ends for the first cause that the prices now shown bring, or takes
    // the floor.
    fn take_notice(&mut self)
        ensures { HasEffect M.Market S.IntervalSource self.old self.new
            (λ s. after_shown s.current (M.Market.meaning.shows s.position) s) }
    {
        let Some(open) = &mut self.current else {
            return;
        };
        let shown = TurnedQuote::of(&self.market, open.auction.order().side);
        match open.tick_cause(&shown) {
            Some(cause) => self.end(cause),
            None => open.take_floor(&shown),
        }
    }
}

impl<M: Market, R: Ranking, S: IntervalSource> Room<M, R, S>
where
    M::Tick: Drop,
{
    /// Hands a tick to the market. Where what is then shown brings a cause, the open auction ends for it: B,
    /// C, D or F. Otherwise a floor that is shown counts from then on. Refusals: 1, and 31 with the market's
    /// fault, whole.
    pub fn tick(&mut self, time: u64, tick: M::Tick) -> Result<(), Refusal<M::Fault>>
        ensures { Gives M.Market R.Ranking S.IntervalSource self.old self.new (answer_told M.Market result)
            (λ w s. tick_call w s time tick) }
    {
        let time = Time::checked(time)?;
        self.step_clock(time);
        self.market.tick(tick)?;
        self.take_notice();
        Ok(())
    }
}
