// The room that holds auctions: what members hand in, what they are answered, and for what a call is refused.
#![tactic(auto)]

ghost use Rattle.std.specs.Prelude.{◌≡◌, ◌+◌, ◌≤◌, length};
ghost use Rattle.room.specs.Waiting.{count_of, waiting_list};

pub mod answers;
mod checked;
pub mod claim;
mod clock;
pub mod collecting;
mod ended;
pub mod halts;
mod limits;
pub mod looks;
mod open_auction;
pub mod opening;
pub mod parts;
pub mod refusal;
pub mod requests;
pub mod responses;
mod storing;
pub mod ticks;
mod waiting;

use crate::open_auction::OpenAuction;
use crate::waiting::WaitingAuctions;
use allocation::ranking::Ranking;
use interval::source::IntervalSource;
use market::Market;

/// A room over any market, ranking and interval source. It keeps no heap memory: it holds two auctions at
/// most, one that is open and one that waits to be collected, or two that wait.
// Contracts read a room by `room_state` and not by an `impl Model`, whose value could not name the positions
// of M and S. The ranking is no part of that state, so the relations of a call say besides that it stays.
#[derive(Drop)]
pub struct Room<M, R, S> {
    number: u32,
    time: u64,
    halted: bool,
    market: M,
    ranking: R,
    source: S,
    current: Option<OpenAuction>,
    waiting: WaitingAuctions,
    opened: u32,
    ghost in_time: { time ≤ 4000000000000 },
    ghost few: { opened ≤ 1000000 },
    ghost two: { count_of current + length (waiting_list waiting.first waiting.second) ≤ 2 },
}

impl<M: Market, R: Ranking, S: IntervalSource> Room<M, R, S> {
    ghost use Rattle.room.specs.Calls.{room_state};
    ghost use Rattle.room.specs.State.{new_room};

    /// A room of this number with time 0, not halted, without an auction.
    pub fn new(number: u32, market: M, ranking: R, source: S) -> Self
        ensures state { room_state M.Market S.IntervalSource result
            ≡ new_room number (M.position market) (S.position source) }
        ensures market { result.market ≡ market }
        ensures ranking { result.ranking ≡ ranking }
        ensures source { result.source ≡ source }
    {
        Room {
            number,
            time: 0,
            halted: false,
            market,
            ranking,
            source,
            current: None,
            waiting: WaitingAuctions::new(),
            opened: 0,
        }
    }
}
