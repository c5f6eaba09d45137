// An auction from its quote to its fill list by a room's own methods: by their contracts the calls are a run.
ghost use Rattle.std.specs.Prelude.{◌≡◌, map, IfOk};
ghost use Rattle.room.specs.Rooms.{world_of};
ghost use Rattle.session.specs.Laws.{LawsOfRun};
ghost use Rattle.session.specs.Runs.{run};
ghost use Rattle.room_examples.specs.Collected.{auction_answers, auction_calls};

use crate::answer::verdict;
use crate::made::{OPENING, QUOTE, RESPONSE, ROOM};
use allocation::fill::{FillRow, LEAST_ROWS};
use allocation::ranking::{EarlierArrival, Ranking};
use interval::fixed::FixedInterval;
use interval::source::IntervalSource;
use market::Market;
use market::touch::Touch;
use room::Room;
use room::answers::{ClaimNumbers, Collection, StoredTerms};
use room::refusal::Refusal;
use room::requests::{OpeningRequest, ResponseRequest};
use session::laws::calls_in_turn_are_a_run;
use std::io;

/// What is handed in to a room for one auction.
pub struct AuctionRequests<T> {
    /// The time of the tick, in milliseconds.
    pub time: u64,
    /// The market's tick.
    pub tick: T,
    /// The order and its guarantee.
    pub opening: OpeningRequest,
    /// A response to the auction.
    pub response: ResponseRequest,
}

/// A room whose first auction was opened, responded to, ended by a halt and collected, and what its calls
/// were answered.
#[derive(Drop)]
pub struct CollectedRoom<M, R, S, F> {
    /// The room afterwards.
    pub room: Room<M, R, S>,
    /// What the tick was answered.
    pub ticked: Result<(), Refusal<F>>,
    /// The numbers of the claim that the opening was answered.
    pub claim: ClaimNumbers,
    /// What the response was answered.
    pub responded: Result<StoredTerms, Refusal<F>>,
    /// What the collecting told.
    pub collection: Collection,
    /// The fill list stands in as many of these as the collection counts.
    pub rows: [FillRow; LEAST_ROWS],
}

/// Makes a room, hands it a tick, opens an auction, responds to it, halts the room and collects. The answers
/// are those of a run of these calls, and its laws hold. Where the opening is refused, the refusal.
pub fn collected_room<M: Market + Drop, R: Ranking + Drop, S: IntervalSource + Drop>(
    market: M,
    ranking: R,
    source: S,
    requests: AuctionRequests<M::Tick>,
) -> Result<CollectedRoom<M, R, S, M::Fault>, Refusal<M::Fault>>
where
    M::Tick: Drop,
    M::Fault: Drop,
    ensures answers { IfOk result (λ done.
        map (λ m. m.answer) (run
        (world_of M.Market.meaning S.IntervalSource.meaning (R.Ranking.ahead ranking))
        1 (M.Market.position market) (S.IntervalSource.position source)
        (auction_calls requests done.claim))
        ≡ auction_answers M.Market.told done) }
    ensures laws { IfOk result (λ done.
        LawsOfRun
        (world_of M.Market.meaning S.IntervalSource.meaning (R.Ranking.ahead ranking))
        1 (M.Market.position market) (S.IntervalSource.position source)
        (auction_calls requests done.claim)) }
{
    calls_in_turn_are_a_run::<M, S, R>();
    let AuctionRequests {
        time,
        tick,
        opening,
        response,
    } = requests;
    let mut room = Room::new(ROOM, market, ranking, source);
    let ticked = room.tick(time, tick);
    let claim = room.open(opening)?;
    let numbers = claim.numbers();
    let responded = room.respond(response);
    room.halt(0).unwrap();
    let mut rows = [FillRow::BLANK; LEAST_ROWS];
    let collection = room.collect(claim, &mut rows).unwrap();
    Ok(CollectedRoom {
        room,
        ticked,
        claim: numbers,
        responded,
        collection,
        rows,
    })
}

/// Carries one auction through a room over a touch.
pub fn work(rt: &HostRuntime) -> io::Result<()> {
    let Ok(source) = FixedInterval::new(100) else {
        return println!(rt; "no interval");
    };
    println!(rt; "An auction from its quote to its fill list, by a room's own methods:")?;
    let requests = AuctionRequests {
        time: 0,
        tick: QUOTE,
        opening: OPENING,
        response: RESPONSE,
    };
    let done = match collected_room(Touch::new(), EarlierArrival, source, requests) {
        Ok(done) => done,
        Err(refusal) => return println!(rt; "    refusal {}", refusal.number()),
    };
    let count = done.collection.count;
    println!(rt;
        "    collected, cause {}, {} rows{}",
        done.collection.cause.letter(),
        count,
        verdict(done.ticked.is_ok() && done.responded.is_ok() && count == 2)
    )
}
