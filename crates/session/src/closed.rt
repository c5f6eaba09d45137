// What a desk is closed to: its room, and the auctions that it held, collected.
ghost use Rattle.std.specs.Prelude.{◌≡◌, ◌≤◌, ◌∷◌, map, drop, None as Nothing};

use allocation::fill::{FillRow, LEAST_ROWS};
use allocation::ranking::Ranking;
use interval::source::IntervalSource;
use market::Market;
use room::Room;
use room::answers::{ClaimNumbers, Collection};
use room::claim::Claim;

/// An auction that was collected when its desk was closed.
#[derive(Clone, Copy)]
pub struct ClosedAuction {
    /// The numbers of its claim: the room's, and its own.
    pub claim: ClaimNumbers,
    /// How many rows its fill list has, 129 at most, and why it ended.
    pub collection: Collection,
    rows: [FillRow; LEAST_ROWS],
    ghost fits: { collection.count ≤ 129 },
}

/// What is left of a desk that was closed: the room, and the auctions that it held, the older one first.
#[derive(Drop)]
pub struct Closed<M, R, S> {
    /// The room. It is halted and holds no auction.
    pub room: Room<M, R, S>,
    /// The auction that had waited longest, if there was one.
    pub first: Option<ClosedAuction>,
    /// The other one, if there were two.
    pub second: Option<ClosedAuction>,
}

impl ClosedAuction {
    ghost use Rattle.std.specs.Option.{option_map};
    ghost use Rattle.room.specs.Rooms.{claim_numbers};
    ghost use Rattle.room.specs.Calls.{room_state, room_world};
    ghost use Rattle.room.specs.State.{with_waiting};
    ghost use Rattle.session.specs.Claims.{claims_of_room};
    ghost use Rattle.session.specs.Closed.{closed_told, first_of, told_of_waiting};

    /// The rows of its fill list.
    pub fn rows(&self) -> &[FillRow]
        ensures { result.now ≡ (closed_told self.now).rows }
    {
        &self.rows[..self.collection.count]
    }

    // Collects, in a room where none is open, the auction that has waited longest, with the first of the
    // claims.
    pub(crate) fn collect_first<M: Market, R: Ranking, S: IntervalSource>(
        room: &mut Room<M, R, S>,
        claims: &mut Vec<Claim>,
    ) -> Option<ClosedAuction>
        requires none_open { (room_state M.Market S.IntervalSource room.old).current ≡ Nothing }
        requires every_claim { map claim_numbers claims.old.items ≡ claims_of_room room.old }
        ensures told { option_map closed_told result
            ≡ first_of (told_of_waiting
            (room_world M.Market R.Ranking S.IntervalSource room.old)
            (room_state M.Market S.IntervalSource room.old)) }
        ensures state { room_state M.Market S.IntervalSource room.new
            ≡ with_waiting
            (drop 1 (room_state M.Market S.IntervalSource room.old).waiting)
            (room_state M.Market S.IntervalSource room.old) }
        ensures ranking { room.new.ranking ≡ room.old.ranking }
        ensures every_claim { map claim_numbers claims.new.items ≡ claims_of_room room.new }
    {
        if claims.is_empty() {
            return None;
        }
        let claim = claims.remove(0);
        let numbers = claim.numbers();
        let mut rows = [FillRow::BLANK; LEAST_ROWS];
        let collection = room.collect(claim, &mut rows).unwrap();
        Some(ClosedAuction {
            claim: numbers,
            collection,
            rows,
        })
    }
}
