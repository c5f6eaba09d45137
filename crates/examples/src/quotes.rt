// Quotes that are refused: the cause and the place, in their order.
use crate::answer::{Shown, print_answer};
use crate::legs::one_against_two;
use market::Market;
use market::fault::{Cause, Fault};
use market::leg::{LegQuote, LegTick};
use market::legs::Legs;
use market::quote::Quote;
use market::touch::Touch;
use std::io;

// A tick, and the answer that comes.
#[derive(Clone, Copy)]
struct Case<T> {
    tick: T,
    want: Result<(), Fault>,
}

fn refused(cause: Cause, place: u32) -> Result<(), Fault> {
    Err(Fault { cause, place })
}

fn leg(leg: u32, bid: i64, offer: i64, want: Result<(), Fault>) -> Case<LegTick> {
    Case {
        tick: LegTick {
            leg,
            quote: LegQuote { bid, offer },
        },
        want,
    }
}

fn work_legs(rt: &HostRuntime, legs: &mut Legs) -> io::Result<()> {
    let cases = [
        leg(1, 0, 1, Ok(())),
        leg(2, 999_999, 1_000_000, Ok(())),
        leg(0, 100, 104, refused(Cause::NoSuchLeg, 0)),
        leg(3, 100, 104, refused(Cause::NoSuchLeg, 3)),
        leg(3, -1, -2, refused(Cause::NoSuchLeg, 3)),
        leg(1, -1, 104, refused(Cause::BeyondLimit, 1)),
        leg(1, -1, -1, refused(Cause::BeyondLimit, 1)),
        leg(2, 100, 1_000_001, refused(Cause::BeyondLimit, 2)),
        leg(2, 1_000_001, 104, refused(Cause::BeyondLimit, 2)),
        leg(1, 104, 104, refused(Cause::BidNotBelowOffer, 1)),
        leg(2, 105, 104, refused(Cause::BidNotBelowOffer, 2)),
        leg(2, i64::MIN, i64::MAX, refused(Cause::BeyondLimit, 2)),
    ];
    for Case { tick, want } in cases {
        let LegTick { leg, quote } = tick;
        print!(rt; "  leg {leg} at {} and {}: ", quote.bid, quote.offer)?;
        print_answer(rt, &legs.tick(tick), &want)?;
    }
    Ok(())
}

fn book(bid: Option<i64>, offer: Option<i64>, want: Result<(), Fault>) -> Case<Quote> {
    Case {
        tick: Quote { bid, offer },
        want,
    }
}

fn work_book(rt: &HostRuntime, touch: &mut Touch) -> io::Result<()> {
    let beyond_bid = refused(Cause::BeyondLimit, 0);
    let beyond_offer = refused(Cause::BeyondLimit, 1);
    let not_below = refused(Cause::BidNotBelowOffer, 0);
    let cases = [
        book(Some(293), None, Ok(())),
        book(None, None, Ok(())),
        book(Some(-40_000_000), Some(40_000_000), Ok(())),
        book(Some(-40_000_001), None, beyond_bid),
        book(Some(40_000_001), Some(40_000_001), beyond_bid),
        book(None, Some(40_000_001), beyond_offer),
        book(Some(0), Some(-40_000_001), beyond_offer),
        book(Some(293), Some(293), not_below),
        book(Some(294), Some(293), not_below),
        book(Some(i64::MIN), Some(i64::MIN), beyond_bid),
    ];
    for Case { tick, want } in cases {
        print!(rt;
            "  book {} {}: ",
            Shown("bid", tick.bid),
            Shown("offer", tick.offer)
        )?;
        print_answer(rt, &touch.tick(tick), &want)?;
    }
    Ok(())
}

pub fn work(rt: &HostRuntime) -> io::Result<()> {
    println!(rt; "quotes for two legs")?;
    match one_against_two() {
        Ok(mut legs) => work_legs(rt, &mut legs)?,
        Err(_) => println!(rt; "THE LEGS ARE REFUSED")?,
    }
    println!(rt; "quotes for a book")?;
    work_book(rt, &mut Touch::new())
}
