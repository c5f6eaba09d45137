// Taking a room apart.
ghost use Rattle.std.specs.Prelude.{◌≡◌, is_ok, IfOk, IfErr};
ghost use Rattle.room.specs.Calls.{room_state};
ghost use Rattle.room.specs.Parts.{holds_none, PartsOf};

use crate::Room;
use allocation::ranking::Ranking;
use interval::source::IntervalSource;
use market::Market;

/// What a room was made over, as it is when the room is taken apart.
#[derive(Drop)]
pub struct RoomParts<M, R, S> {
    /// The market.
    pub market: M,
    /// The ranking.
    pub ranking: R,
    /// The interval source.
    pub source: S,
}

impl<M: Market, R: Ranking, S: IntervalSource> Room<M, R, S> {
    // No auction is open, and none waits.
    fn holds_none(&self) -> bool
        ensures { result ≡ holds_none (room_state M.Market S.IntervalSource self.now) }
    {
        self.current.is_none() && self.waiting.is_empty()
    }

    /// Takes a room apart, and gives its market, ranking and interval source back. A room that holds an
    /// auction, open or waiting to be collected, comes back as it was.
    pub fn into_parts(self) -> Result<RoomParts<M, R, S>, Room<M, R, S>>
        ensures none_held { is_ok result ≡ holds_none (room_state M.Market S.IntervalSource self) }
        ensures parts { IfOk result (λ parts. PartsOf self parts) }
        ensures back { IfErr result (λ back. back ≡ self) }
    {
        if !self.holds_none() {
            return Err(self);
        }
        let Room {
            number: _,
            time: _,
            halted: _,
            market,
            ranking,
            source,
            current: _,
            waiting: _,
            opened: _,
        } = self;
        Ok(RoomParts {
            market,
            ranking,
            source,
        })
    }
}
