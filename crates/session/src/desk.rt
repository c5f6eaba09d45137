// A desk keeps a room together with the claims to all the auctions that it holds, so that no claim is left
// over: it makes calls one by one, and can be closed at any time.
ghost use Rattle.std.specs.Prelude.{◌≡◌, ◌≤◌, IfErr, IfOk, OnErr, OnOk, vec_items};
ghost use Rattle.session.specs.Claims.{claims_of_room};

use crate::Session;
use crate::answer::Answer;
use crate::call::Call;
use crate::closed::{Closed, ClosedAuction};
use allocation::ranking::Ranking;
use interval::source::IntervalSource;
use market::Market;
use room::Room;
use std::alloc::{AllocError, Global};

/// A room with the claims to the auctions that it holds, and no others.
pub struct Desk<M, R, S> {
    session: Session<M, R, S>,
    ghost every_claim: { session.purse.numbers ≡ claims_of_room session.room },
}

impl<M: Market, R: Ranking, S: IntervalSource> Desk<M, R, S> {
    ghost use Rattle.room.specs.Calls.{room_state, room_world};
    ghost use Rattle.room.specs.State.{new_room};
    ghost use Rattle.session.specs.Closed.{ClosedByCalls, after_close, listed_told, told_at_close};
    ghost use Rattle.session.specs.Desk.{desk_after, desk_answer};
    ghost use Rattle.session.specs.Session.{session_world, RunAsModelled};
    ghost use Rattle.session.specs.Answer.{told};

    /// A desk with a new room of this number, which holds no auction: at time 0, not halted. It takes no
    /// memory.
    pub fn new(heap: Global, number: u32, market: M, ranking: R, source: S) -> Self
        ensures state { room_state M.Market S.IntervalSource result.session.room
            ≡ new_room number (M.Market.position market) (S.IntervalSource.position source) }
        ensures ranking { result.session.room.ranking ≡ ranking }
    {
        Desk {
            session: Session::new(
                heap,
                Room::new(number, market, ranking, source),
                Vec::new(heap),
            ),
        }
    }

    /// Makes a call. A collecting hands in the claim of its numbers, if that is one to an auction of this
    /// room. Where memory is wanting, no call was made.
    pub fn call(
        &mut self,
        heap: Global,
        call: Call<M::Tick>,
    ) -> Result<Answer<M::Fault>, AllocError>
    where
        M::Tick: Drop,
        ensures state { OnOk result (
            room_state M.Market S.IntervalSource self.new.session.room
            ≡ desk_after
            (room_world M.Market R.Ranking S.IntervalSource self.old.session.room)
            (room_state M.Market S.IntervalSource self.old.session.room) call) }
        ensures answer { IfOk result (λ a.
            told M.Market.told a
            ≡ desk_answer
            (room_world M.Market R.Ranking S.IntervalSource self.old.session.room)
            (room_state M.Market S.IntervalSource self.old.session.room) call) }
        ensures unmade { OnErr result (self.new.session.room ≡ self.old.session.room) }
        ensures lists_back { OnErr result (self.new.session.lists ≡ self.old.session.lists) }
        ensures ranking { self.new.session.room.ranking ≡ self.old.session.room.ranking }
    {
        self.session.reserve(heap, 1, call.lists())?;
        Ok(self.session.make_call(call))
    }

    /// Carries out calls, one after another: the answers in their order. Where memory is wanting, no call was
    /// made, and the calls come back.
    pub fn run(
        &mut self,
        heap: Global,
        calls: Vec<Call<M::Tick>>,
    ) -> Result<Vec<Answer<M::Fault>>, Vec<Call<M::Tick>>>
    where
        M::Tick: Drop,
        ensures run { IfOk result (λ answers.
            RunAsModelled M.Market.told M.Market.position S.IntervalSource.position
            (session_world M.Market.meaning S.IntervalSource.meaning R.Ranking.ahead self.old.session)
            self.old.session self.new.session (vec_items calls) (vec_items answers)) }
        ensures calls_back { IfErr result (λ back. back ≡ calls) }
        ensures unmade { OnErr result (self.new.session.room ≡ self.old.session.room) }
        ensures lists_back { OnErr result (self.new.session.lists ≡ self.old.session.lists) }
        ensures no_more_lists { self.new.session.lists ≤ self.old.session.lists }
    {
        self.session.run(heap, calls)
    }

    /// Halts the room at its own time, and collects each auction that then waits.
    pub fn close(self) -> Closed<M, R, S>
        ensures as_calls { ClosedByCalls
            (room_world M.Market R.Ranking S.IntervalSource self.session.room)
            (room_state M.Market S.IntervalSource self.session.room)
            (listed_told result.first result.second)
            (room_state M.Market S.IntervalSource result.room) }
        ensures told { listed_told result.first result.second
            ≡ told_at_close
            (room_world M.Market R.Ranking S.IntervalSource self.session.room)
            (room_state M.Market S.IntervalSource self.session.room) }
        ensures state { room_state M.Market S.IntervalSource result.room
            ≡ after_close
            (room_world M.Market R.Ranking S.IntervalSource self.session.room)
            (room_state M.Market S.IntervalSource self.session.room) }
        ensures ranking { result.room.ranking ≡ self.session.room.ranking }
    {
        let Desk { session } = self;
        let Session {
            room,
            purse,
            lists: _,
        } = session;
        let mut room = room;
        let mut claims = purse.into_claims();
        room.halt(0).unwrap();
        let first = ClosedAuction::collect_first(&mut room, &mut claims);
        let second = ClosedAuction::collect_first(&mut room, &mut claims);
        claims.destroy_empty();
        Closed {
            room,
            first,
            second,
        }
    }
}
