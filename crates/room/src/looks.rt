// Looking: what everybody may know.
ghost use Rattle.std.specs.Prelude.{◌≡◌};
ghost use Rattle.room.specs.Calls.{room_state};
ghost use Rattle.room.specs.Looks.{look_call};

use crate::Room;
use crate::answers::View;
use allocation::ranking::Ranking;
use interval::source::IntervalSource;
use market::Market;

impl<M: Market, R: Ranking, S: IntervalSource> Room<M, R, S> {
    /// The room's time, whether it is halted, how many auctions wait, and the open auction, if any.
    pub fn look(&self) -> View
        ensures { result ≡ look_call (room_state M.Market S.IntervalSource self.now) }
    {
        View {
            time: self.time,
            halted: self.halted,
            waiting: self.waiting.len(),
            auction: self.current.as_ref().map(|open| open.view()),
        }
    }
}
