// Ranges and their refusals, on markets that are told their quotes here.
use crate::answer::{Answer, Shown, print_answer};
use crate::legs::one_against_two;
use market::Market;
use market::better_of::Half;
use market::cube::{CubeMarket, cube_market};
use market::leg::{LegQuote, LegTick};
use market::quote::Quote;
use market::range::PermittedRange;
use market::refusal::RangeRefusal;
use market::side::Side::{self, Buy, Sell};
use std::io;

// The prices of a permitted range.
#[derive(Clone, Copy, PartialEq, Eq)]
struct Prices {
    lowest: i64,
    highest: i64,
    initiating: i64,
}

impl From<PermittedRange> for Prices {
    fn from(range: PermittedRange) -> Prices {
        Prices {
            lowest: range.lowest(),
            highest: range.highest(),
            initiating: range.initiating_price(),
        }
    }
}

impl Answer for Prices {
    fn print(&self, rt: &HostRuntime) -> io::Result<()> {
        let Prices {
            lowest,
            highest,
            initiating,
        } = *self;
        print!(rt; "{lowest} to {highest}, initiating price {initiating}")
    }
}

type Outcome = Result<Prices, RangeRefusal>;

#[derive(Clone, Copy)]
struct Order {
    side: Side,
    limit: i64,
    want: Outcome,
}

fn limited(side: Side, limit: i64, want: Outcome) -> Order {
    Order { side, limit, want }
}

fn range(lowest: i64, highest: i64, initiating: i64) -> Outcome {
    Ok(Prices {
        lowest,
        highest,
        initiating,
    })
}

const OUTSIDE: Outcome = Err(RangeRefusal::PriceOutsideLimits);

const NO_PRICE: Outcome = Err(RangeRefusal::SideShowsNoPrice);

const BELOW_FLOOR: Outcome = Err(RangeRefusal::InitiatingBelowFloor);

fn work_orders(rt: &HostRuntime, market: &CubeMarket, orders: &[Order]) -> io::Result<()> {
    for order in orders {
        let Order { side, limit, want } = *order;
        print!(rt; "  {side} limit {limit}: ")?;
        let got = PermittedRange::of(market, side, limit).map(Prices::from);
        print_answer(rt, &got, &want)?;
    }
    Ok(())
}

// Both legs are quoted, also where the first is refused.
fn quote_legs(market: &mut CubeMarket, first: LegQuote, second: LegQuote) -> bool {
    let mut tick = |leg, quote| market.tick(Half::Right(LegTick { leg, quote })).is_ok();
    tick(1, first) & tick(2, second)
}

fn quote_book(market: &mut CubeMarket, bid: Option<i64>, offer: Option<i64>) -> bool {
    market.tick(Half::Left(Quote { bid, offer })).is_ok()
}

fn none_quoted(rt: &HostRuntime, market: &CubeMarket) -> io::Result<()> {
    let orders = [
        limited(Buy, 310, NO_PRICE),
        limited(Sell, 310, NO_PRICE),
        limited(Buy, 40_000_001, OUTSIDE),
    ];
    work_orders(rt, market, &orders)
}

fn book_bid_alone(rt: &HostRuntime, market: &CubeMarket) -> io::Result<()> {
    work_orders(
        rt,
        market,
        &[limited(Buy, 310, NO_PRICE), limited(Sell, 310, NO_PRICE)],
    )
}

fn at_294_and_304(rt: &HostRuntime, market: &CubeMarket) -> io::Result<()> {
    let orders = [
        limited(Buy, 294, range(294, 294, 294)),
        limited(Buy, 293, BELOW_FLOOR),
        limited(Buy, 303, range(294, 303, 303)),
        limited(Buy, 304, range(294, 304, 304)),
        limited(Buy, 310, range(294, 304, 304)),
        limited(Buy, 40_000_000, range(294, 304, 304)),
        limited(Buy, 40_000_001, OUTSIDE),
        limited(Sell, 304, range(304, 304, 304)),
        limited(Sell, 305, BELOW_FLOOR),
        limited(Sell, 295, range(295, 304, 295)),
        limited(Sell, 294, range(294, 304, 294)),
        limited(Sell, -40_000_000, range(294, 304, 294)),
        limited(Sell, -40_000_001, OUTSIDE),
        limited(Sell, i64::MIN, OUTSIDE),
    ];
    work_orders(rt, market, &orders)
}

fn crossed(rt: &HostRuntime, market: &CubeMarket) -> io::Result<()> {
    let orders = [
        limited(Buy, 400, BELOW_FLOOR),
        limited(Buy, 40_000_000, BELOW_FLOOR),
        limited(Sell, -40_000_000, BELOW_FLOOR),
    ];
    work_orders(rt, market, &orders)
}

fn negative(rt: &HostRuntime, market: &CubeMarket) -> io::Result<()> {
    let orders = [
        limited(Buy, -294, range(-304, -294, -294)),
        limited(Buy, -304, range(-304, -304, -304)),
        limited(Buy, -305, BELOW_FLOOR),
        limited(Sell, -294, range(-294, -294, -294)),
        limited(Sell, -293, BELOW_FLOOR),
    ];
    work_orders(rt, market, &orders)
}

// What was told, whether all of it was accepted, and what the CUBE market then shows.
fn print_shown(rt: &HostRuntime, told: &str, taken: bool, market: &CubeMarket) -> io::Result<()> {
    let shown = market.shown();
    println!(rt;
        "{told} (accepted: {taken}), {}, {}",
        Shown("bid", shown.bid),
        Shown("offer", shown.offer)
    )
}

fn leg_quote(bid: i64, offer: i64) -> LegQuote {
    LegQuote { bid, offer }
}

pub fn work(rt: &HostRuntime) -> io::Result<()> {
    let Ok(mut market) = one_against_two().map(cube_market) else {
        return println!(rt; "THE LEGS ARE REFUSED");
    };
    print_shown(rt, "nothing quoted", true, &market)?;
    none_quoted(rt, &market)?;
    let taken = quote_book(&mut market, Some(293), None);
    print_shown(rt, "book bid 293, legs not quoted", taken, &market)?;
    book_bid_alone(rt, &market)?;
    let taken = quote_legs(&mut market, leg_quote(500, 505), leg_quote(100, 104));
    print_shown(rt, "legs at 500/505 and 100/104", taken, &market)?;
    at_294_and_304(rt, &market)?;
    let taken = quote_book(&mut market, Some(300), Some(301));
    print_shown(
        rt,
        "book at 300/301, which crosses itself once improved",
        taken,
        &market,
    )?;
    crossed(rt, &market)?;
    let taken = quote_book(&mut market, Some(400), Some(402));
    print_shown(
        rt,
        "book at 400/402, which crosses the legs",
        taken,
        &market,
    )?;
    crossed(rt, &market)?;
    let taken = quote_legs(&mut market, leg_quote(0, 1), leg_quote(147, 153));
    let taken = quote_book(&mut market, Some(-305), Some(-293)) && taken;
    print_shown(rt, "a strategy that its buyer is paid for", taken, &market)?;
    negative(rt, &market)
}
