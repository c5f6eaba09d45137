// The end of the open auction.
ghost use Rattle.allocation.specs.Cause.{cause_letter};
ghost use Rattle.room.specs.Calls.{HasEffect};
ghost use Rattle.room.specs.State.{after_end};

use crate::Room;
use allocation::auction::Auction;
use allocation::cause::EndCause;
use allocation::ranking::Ranking;
use interval::source::IntervalSource;
use market::Market;

// An auction as it was when it ended.
#[derive(Drop)]
pub(crate) struct EndedAuction {
    pub(crate) number: u32,
    pub(crate) auction: Auction,
    pub(crate) cause: EndCause,
}

impl<M: Market, R: Ranking, S: IntervalSource> Room<M, R, S> {
    // The open auction, if there is one, ends for this cause and waits to be collected.
    pub(crate) fn end(&mut self, cause: EndCause)
        ensures { HasEffect M.Market S.IntervalSource self.old self.new (after_end (cause_letter cause)) }
    {
        if let Some(open) = self.current.take() {
            self.waiting.push(EndedAuction {
                number: open.number,
                auction: open.auction,
                cause,
            });
        }
    }
}
