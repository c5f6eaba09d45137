// The statements of a script, one a line.
ghost use Rattle.std.specs.Prelude.{◌≡◌};

use crate::chosen::ChosenRanking;
use market::better_of::Half;
use market::cube::CubeTick;
use market::leg::LegTerms;
use market::side::Side;
use session::call::Call;

/// What a line says: something to set before the room is made, a call on the room, or a question about the
/// market.
#[derive(Drop)]
pub enum Statement {
    /// A piece of what makes the room.
    Setting(Setting),
    /// A call on the room.
    Call(Call<CubeTick>),
    /// A question for the range that the market permits.
    Range(RangeQuestion),
}

/// What the room is made of, piece by piece.
#[derive(Clone, Copy)]
pub enum Setting {
    /// The room's number.
    Room { number: u32 },
    /// One leg more.
    Leg(LegTerms),
    /// Which response is ahead.
    Ranking(ChosenRanking),
    /// Where the lengths of response intervals come from.
    Interval(IntervalTerms),
}

/// An interval source as it is asked for: one of a fixed length, or one that steps a seed.
#[derive(Clone, Copy, PartialEq, Eq, Debug)]
pub enum IntervalTerms {
    /// Each has this length: 100 to 1,000 milliseconds, and otherwise it is refused.
    Fixed { milliseconds: u32 },
    /// The lengths follow from this seed.
    Drawn { seed: u32 },
}

/// What does the market now permit an order of this side and limit? The limit is not turned.
#[derive(Clone, Copy)]
pub struct RangeQuestion {
    pub side: Side,
    pub limit: i64,
}

/// A tick once more: a room takes the tick that it is handed.
pub fn same_tick(tick: &CubeTick) -> CubeTick
    ensures { result ≡ tick.now }
{
    match tick {
        Half::Left(quote) => Half::Left(*quote),
        Half::Right(tick) => Half::Right(*tick),
    }
}
