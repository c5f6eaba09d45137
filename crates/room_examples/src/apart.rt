// Rooms that are taken apart when they hold no auction any more.
ghost use Rattle.std.specs.Prelude.{◌≡◌, [], ◌∷◌};
ghost use Rattle.room.specs.Rooms.{claim_numbers};
ghost use Rattle.session.specs.Claims.{claims_of_room};

use crate::answer::{print_closed, verdict};
use crate::claims::{Opened, TouchRoom, open_in, settle, show_collected};
use crate::counting::CountingSource;
use crate::made::{ROOM, TouchCall, opening, quoting};
use allocation::ranking::EarlierArrival;
use interval::fixed::FixedInterval;
use market::touch::Touch;
use room::claim::Claim;
use room::parts::RoomParts;
use session::closed::{Closed, ClosedAuction};
use session::desk::Desk;
use std::alloc::{AllocError, Global};
use std::io;

// A quote and three openings: the second ends the auction of the first, and the third is refused, since that
// one waits.
fn calls(heap: Global) -> Result<Vec<TouchCall>, AllocError> {
    let mut calls = Vec::with_capacity(heap, 4)?;
    calls.push_reserved(quoting());
    calls.push_reserved(opening());
    calls.push_reserved(opening());
    calls.push_reserved(opening());
    Ok(calls)
}

// What is read when a day is done: the auctions that its room still held, and how many intervals its source
// has drawn.
#[derive(Drop)]
struct DayRead {
    first: Option<ClosedAuction>,
    second: Option<ClosedAuction>,
    drawn: u32,
}

// Closes a desk, and takes its room apart.
fn read_day(desk: Desk<Touch, EarlierArrival, CountingSource>) -> DayRead {
    let Closed {
        room,
        first,
        second,
    } = desk.close();
    let RoomParts {
        market: _,
        ranking: _,
        source,
    } = room.into_parts().unwrap();
    DayRead {
        first,
        second,
        drawn: source.into_drawn(),
    }
}

// Makes the calls, one after another.
fn make_all(
    heap: Global,
    desk: &mut Desk<Touch, EarlierArrival, CountingSource>,
    calls: Vec<TouchCall>,
) -> Result<(), AllocError> {
    for call in calls {
        let _answer = desk.call(heap, call)?;
    }
    Ok(())
}

// A day over a source that counts its draws.
fn counted_day(heap: Global, calls: Vec<TouchCall>) -> Result<DayRead, AllocError> {
    let mut desk = Desk::new(
        heap,
        ROOM,
        Touch::new(),
        EarlierArrival,
        CountingSource::new(),
    );
    let made = make_all(heap, &mut desk, calls);
    let read = read_day(desk);
    made?;
    Ok(read)
}

fn show_day(rt: &HostRuntime) -> io::Result<()> {
    let heap = rt.alloc();
    let read = counted_day(heap, calls(heap)?)?;
    print_closed(rt, &read.first)?;
    print_closed(rt, &read.second)?;
    println!(rt;
        "  intervals drawn: {}{}",
        read.drawn,
        verdict(read.drawn == 2)
    )
}

// A room that holds an auction cannot be taken apart, and comes back.
fn ask_back(room: TouchRoom, claim: &Claim) -> TouchRoom
    requires { claims_of_room room ≡ claim_numbers claim.now ∷ [] }
    ensures { result ≡ room }
{
    room.into_parts().unwrap_err()
}

// Asks for a room's parts while its auction is open, and once it is collected.
fn ask_twice(rt: &HostRuntime, source: FixedInterval) -> io::Result<()> {
    let Opened { room, claim } = open_in(ROOM, source);
    let mut room = ask_back(room, &claim);
    let told = settle(&mut room, claim);
    show_collected(rt, told)?;
    println!(rt;
        "    then taken apart{}",
        verdict(room.into_parts().is_ok())
    )
}

/// Takes rooms apart.
pub fn work(rt: &HostRuntime) -> io::Result<()> {
    println!(rt;
        "A quote and three openings, over a source that counts its draws and is read at the end:"
    )?;
    show_day(rt)?;
    let Ok(source) = FixedInterval::new(100) else {
        return println!(rt; "no interval");
    };
    println!(rt; "A room that is asked for its parts while its auction is open, and comes back:")?;
    ask_twice(rt, source)
}
