// Claims that are handed in elsewhere: to a room of another number, and to one of the same number.
ghost use Rattle.std.specs.Prelude.{◌≡◌, false, [], ◌∷◌, ◌==◌};
ghost use Rattle.room.specs.Rooms.{claim_numbers};
ghost use Rattle.session.specs.Claims.{claim_to, claims_of_room};

use crate::answer::verdict;
use crate::made::{OPENING, QUOTE};
use allocation::fill::{FillRow, LEAST_ROWS};
use allocation::ranking::{EarlierArrival, Ranking};
use interval::fixed::FixedInterval;
use interval::source::IntervalSource;
use market::Market;
use market::fault::Fault;
use market::touch::Touch;
use room::Room;
use room::answers::Collection;
use room::claim::Claim;
use room::refusal::Refusal;
use std::io;

/// A room over a touch.
pub type TouchRoom = Room<Touch, EarlierArrival, FixedInterval>;

/// A room in which an auction is open, its first, and the claim to it.
pub struct Opened {
    /// The room.
    pub room: TouchRoom,
    /// The claim to its auction.
    pub claim: Claim,
}

/// A room of this number with its first auction.
pub fn open_in(number: u32, source: FixedInterval) -> Opened
    ensures number { result.room.number ≡ number }
    ensures claim { claim_numbers result.claim ≡ claim_to number 1 }
    ensures held { claims_of_room result.room ≡ claim_to number 1 ∷ [] }
{
    let mut room = Room::new(number, Touch::new(), EarlierArrival, source);
    room.tick(0, QUOTE).unwrap();
    let claim = room.open(OPENING).unwrap();
    Opened { room, claim }
}

/// Halts the room and collects its auction.
pub fn settle<M: Market, R: Ranking, S: IntervalSource>(
    room: &mut Room<M, R, S>,
    claim: Claim,
) -> Collection
    requires { claims_of_room room.old ≡ claim_numbers claim ∷ [] }
    ensures { room.new.number ≡ room.old.number }
{
    let mut rows = [FillRow::BLANK; LEAST_ROWS];
    room.halt(0).unwrap();
    room.collect(claim, &mut rows).unwrap()
}

// Hands a claim in to a room of another number, which refuses it; the claim comes back.
fn hand_in(room: &mut TouchRoom, claim: Claim) -> (Refusal<Fault>, Claim)
    requires other { (claim_numbers claim).room == room.old.number ≡ false }
    ensures back { result.1 ≡ claim }
    ensures room { claims_of_room room.new ≡ claims_of_room room.old }
    ensures number { room.new.number ≡ room.old.number }
{
    let mut rows = [FillRow::BLANK; LEAST_ROWS];
    room.collect(claim, &mut rows).unwrap_err()
}

/// Prints what a collecting told.
pub fn show_collected(rt: &HostRuntime, told: Collection) -> io::Result<()> {
    println!(rt;
        "    collected, cause {}, {} row",
        told.cause.letter(),
        told.count
    )
}

fn show_refused(rt: &HostRuntime, refusal: &Refusal<Fault>) -> io::Result<()> {
    println!(rt;
        "    refusal {}{}",
        refusal.number(),
        verdict(refusal.number() == 42)
    )
}

// A claim of room 1, handed in to room 2 while an auction of its number is open there, and once that one was
// collected; and then to its own room.
fn in_another_room(rt: &HostRuntime, source: FixedInterval) -> io::Result<()> {
    let Opened { room, claim } = open_in(1, source);
    let mut one = room;
    let Opened {
        room,
        claim: its_claim,
    } = open_in(2, source);
    let mut other = room;
    let (while_open, claim) = hand_in(&mut other, claim);
    let its_told = settle(&mut other, its_claim);
    let (afterwards, claim) = hand_in(&mut other, claim);
    let told = settle(&mut one, claim);
    show_refused(rt, &while_open)?;
    show_collected(rt, its_told)?;
    show_refused(rt, &afterwards)?;
    show_collected(rt, told)
}

// Two rooms of one number take each other's claims.
fn in_a_room_of_its_number(rt: &HostRuntime, source: FixedInterval) -> io::Result<()> {
    let Opened { room, claim: first } = open_in(7, source);
    let mut one = room;
    let Opened {
        room,
        claim: second,
    } = open_in(7, source);
    let mut other = room;
    let by_second = settle(&mut one, second);
    let by_first = settle(&mut other, first);
    show_collected(rt, by_second)?;
    show_collected(rt, by_first)
}

/// Hands claims in to rooms of other numbers and of the same.
pub fn work(rt: &HostRuntime) -> io::Result<()> {
    let Ok(source) = FixedInterval::new(100) else {
        return println!(rt; "no interval");
    };
    println!(rt;
        "A claim of room 1, handed in to room 2, before and after its own auction is collected, then to room 1:"
    )?;
    in_another_room(rt, source)?;
    println!(rt; "Two rooms of number 7, each with the other's claim:")?;
    in_a_room_of_its_number(rt, source)
}
