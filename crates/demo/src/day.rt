// One auction in a room, from its opening to its collecting: each call's answer, and what everybody sees.
use crate::table::show_table;
use crate::text::Price;
use allocation::fill::LEAST_ROWS;
use allocation::order::{Guarantee, GuaranteeKind, PairedOrder};
use allocation::ranking::EarlierArrival;
use allocation::response::{Class, Kind};
use interval::fixed::FixedInterval;
use market::better_of::Half;
use market::cube::{CubeFault, CubeMarket, CubeTick, cube_market};
use market::leg::{LegQuote, LegTick};
use market::legs::Legs;
use market::quote::Quote;
use market::side::Side;
use room::answers::{ClaimNumbers, Collection, StoredTerms, View};
use room::requests::{ChangeRequest, OpeningRequest, ResponseRequest};
use session::answer::Answer;
use session::call::Call;
use session::desk::Desk;
use std::io;

type CubeCall = Call<CubeTick>;

type CubeAnswer = Answer<CubeFault>;

type CubeDesk = Desk<CubeMarket, EarlierArrival, FixedInterval>;

const ROOM: u32 = 7;

const SIZE: u32 = 100;

fn show_view(rt: &HostRuntime, view: &View) -> io::Result<()> {
    print!(rt; "    everybody sees: time {}, ", view.time)?;
    match view.auction {
        Some(auction) => println!(rt;
            "auction {}, {} {}, initiating price {}",
            auction.number,
            auction.side,
            auction.size,
            Price(auction.initiating)
        ),
        None => println!(rt; "no auction, {} to be collected", view.waiting),
    }
}

fn show_stored(rt: &HostRuntime, terms: &StoredTerms) -> io::Result<()> {
    println!(rt; "    stored {} at {}", terms.size, Price(terms.price))
}

fn show_collection(rt: &HostRuntime, collection: &Collection) -> io::Result<()> {
    println!(rt;
        "    collected, ended for cause {}",
        collection.cause.letter()
    )
}

fn show_answer(rt: &HostRuntime, answer: &CubeAnswer) -> io::Result<()> {
    match answer {
        Answer::Opened(claim) => {
            println!(rt;
                "    opened: the claim to auction {} of room {}",
                claim.auction, claim.room
            )
        }
        Answer::Stored(terms) => show_stored(rt, terms),
        Answer::Accepted => println!(rt; "    accepted"),
        Answer::Looked(view) => show_view(rt, view),
        Answer::Collected(collection, rows) => {
            show_collection(rt, collection)?;
            show_table(rt, rows, SIZE)
        }
        Answer::Refused(refusal) => println!(rt; "    refused: {}", refusal.number()),
        Answer::NoClaim => println!(rt; "    no claim"),
    }
}

fn tick_leg(time: u64, leg: u32, bid: i64, offer: i64) -> CubeCall {
    let tick = Half::Right(LegTick {
        leg,
        quote: LegQuote { bid, offer },
    });
    Call::Tick { time, tick }
}

fn tick_book(time: u64, bid: Option<i64>, offer: Option<i64>) -> CubeCall {
    let tick = Half::Left(Quote { bid, offer });
    Call::Tick { time, tick }
}

fn opening() -> CubeCall {
    Call::Open(OpeningRequest {
        time: 10_000,
        member: 1,
        order: PairedOrder {
            side: Side::Buy,
            size: SIZE,
            limit: 310,
            guarantee: Guarantee {
                kind: GuaranteeKind::SingleStop,
                price: 300,
            },
        },
    })
}

// A sealed response of another, or a plain one of a customer.
fn response(time: u64, member: u8, class: Class, size: u32, price: i64) -> CubeCall {
    let kind = match class {
        Class::Customer => Kind::Plain,
        Class::Other => Kind::Sealed,
    };
    Call::Respond(ResponseRequest {
        time,
        member,
        own_number: 1,
        side: Side::Sell,
        kind,
        class,
        size,
        price,
    })
}

fn change(time: u64, member: u8, size: u32, price: i64) -> CubeCall {
    Call::Change(ChangeRequest {
        time,
        member,
        own_number: 1,
        size,
        price,
    })
}

fn collecting() -> CubeCall {
    let claim = ClaimNumbers {
        room: ROOM,
        auction: 1,
    };
    Call::Collect {
        claim,
        rows: LEAST_ROWS,
    }
}

// A desk in the course of its day.
struct Day<'a> {
    rt: &'a HostRuntime,
    desk: CubeDesk,
}

impl Day<'_> {
    // Makes a call, and tells what it is answered.
    fn make(&mut self, what: &str, call: CubeCall) -> io::Result<()> {
        println!(self.rt; "  {what}")?;
        let answer = self.desk.call(self.rt.alloc(), call)?;
        show_answer(self.rt, &answer)
    }

    // The same, and then what everybody sees.
    fn make_and_look(&mut self, what: &str, call: CubeCall) -> io::Result<()> {
        self.make(what, call)?;
        let seen = self.desk.call(self.rt.alloc(), Call::Look)?;
        show_answer(self.rt, &seen)
    }

    fn quotes(&mut self) -> io::Result<()> {
        self.make(
            "leg 1 is quoted 500 bid, 505 offered",
            tick_leg(0, 1, 500, 505),
        )?;
        self.make(
            "leg 2 is quoted 100 bid, 104 offered",
            tick_leg(0, 2, 100, 104),
        )?;
        self.make(
            "the book bids 293 and offers nothing",
            tick_book(0, Some(293), None),
        )
    }

    fn responses(&mut self) -> io::Result<()> {
        self.make_and_look(
            "10,000: member 1 opens: buy 100, limit 310, which the contra firm stops at 300",
            opening(),
        )?;
        self.make_and_look(
            "10,010: member 2 offers 30 at 299, sealed",
            response(10_010, 2, Class::Other, 30, 299),
        )?;
        self.make(
            "10,020: member 3, for a customer, offers 20 at 298, plain",
            response(10_020, 3, Class::Customer, 20, 298),
        )?;
        self.make(
            "10,030: member 4 offers 60 at 293, below the floor of 294, sealed",
            response(10_030, 4, Class::Other, 60, 293),
        )
    }

    fn moves(&mut self) -> io::Result<()> {
        self.make(
            "10,035: member 4 changes that to 60 at 297",
            change(10_035, 4, 60, 297),
        )?;
        self.make_and_look(
            "10,040: leg 1 is quoted 502 bid, 505 offered: the floor rises to 295, and the auction goes on",
            tick_leg(10_040, 1, 502, 505),
        )?;
        self.make(
            "10,050: member 2 changes its response to 40 at 300",
            change(10_050, 2, 40, 300),
        )?;
        self.make_and_look(
            "10,060: leg 1 is quoted 506 bid, 509 offered: \
             the floor rises to 299, above two responses, which ends the auction",
            tick_leg(10_060, 1, 506, 509),
        )
    }

    fn whole(&mut self) -> io::Result<()> {
        self.quotes()?;
        self.responses()?;
        self.moves()?;
        self.make_and_look(
            "the claim is handed in; the fills are those before the last quote",
            collecting(),
        )
    }
}

/// Narrates an auction in a room whose market has these legs.
pub fn auction(rt: &HostRuntime, legs: Legs) -> io::Result<()> {
    println!(rt;
        "\n12. A whole auction in a room, with intervals of 100 milliseconds. \
         Nobody sees the stop before the end."
    )?;
    let Ok(source) = FixedInterval::new(100) else {
        return println!(rt; "  no interval");
    };
    let market = cube_market(legs);
    let mut day = Day {
        rt,
        desk: Desk::new(rt.alloc(), ROOM, market, EarlierArrival, source),
    };
    let narrated = day.whole();
    let Day { rt: _, desk } = day;
    let _closed = desk.close();
    narrated
}
