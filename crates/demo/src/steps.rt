// The narration of a market, step by step. What it prints of markets and ranges the library answers.
use crate::fills::auctions;
use crate::text::{Price, Shown};
use market::Market;
use market::better_of::Half;
use market::cube::{CubeMarket, CubeTick, cube_market};
use market::fault::{Cause, Fault};
use market::leg::{LegQuote, LegTerms, LegTick};
use market::legs::Legs;
use market::quote::Quote;
use market::range::PermittedRange;
use market::refusal::RangeRefusal;
use market::side::Side;
use std::io;

/// Prints the terms of the leg of this number.
pub fn show_terms(rt: &HostRuntime, number: u32, terms: LegTerms) -> io::Result<()> {
    let LegTerms { side, ratio } = terms;
    println!(rt; "  leg {number}: {side} {ratio}")
}

fn show(rt: &HostRuntime, what: &str, quote: Quote) -> io::Result<()> {
    println!(rt;
        "  {what}: {}, {}",
        Shown("bid", quote.bid),
        Shown("offer", quote.offer)
    )
}

// These are the narration's words: the library knows a cause by its number alone.
fn meaning_of(cause: Cause) -> &'static str {
    match cause {
        Cause::NoSuchLeg => "no such leg",
        Cause::BeyondLimit => "price beyond the limit",
        Cause::BidNotBelowOffer => "bid not below offer",
    }
}

fn refused(rt: &HostRuntime, half: &str, fault: Fault) -> io::Result<()> {
    let Fault { cause, place } = fault;
    let number = cause.number();
    let meaning = meaning_of(cause);
    println!(rt; "    refused by the {half}: cause {number} ({meaning}), place {place}")
}

/// Prints a permitted range, and the prices from which it comes.
pub fn show_range(rt: &HostRuntime, range: PermittedRange) -> io::Result<()> {
    println!(rt;
        "    floor {}, contra price {}, initiating price {}",
        Price(range.floor_price()),
        Price(range.contra_price()),
        Price(range.initiating_price()),
    )?;
    // For a sell order prices are compared with their signs changed.
    if range.side == Side::Sell {
        println!(rt;
            "    compared as {}, {} and {}: for every order, lower is better",
            Price(range.floor),
            Price(range.contra),
            Price(range.initiating),
        )?;
    }
    println!(rt;
        "    permitted range: {} to {}",
        Price(range.lowest()),
        Price(range.highest()),
    )
}

// These are the narration's words: the library knows a refusal by its number alone.
fn why(refusal: RangeRefusal) -> &'static str {
    match refusal {
        RangeRefusal::PriceOutsideLimits => "a price outside the limits",
        RangeRefusal::SideShowsNoPrice => "a side shows no price",
        RangeRefusal::InitiatingBelowFloor => "the initiating price is below the floor",
    }
}

/// Prints why no range is permitted.
pub fn show_refusal(rt: &HostRuntime, refusal: RangeRefusal) -> io::Result<()> {
    println!(rt; "    refused: {}, {}", refusal.number(), why(refusal))
}

// What is told of one CUBE market.
#[derive(Drop)]
struct Narration<'a> {
    rt: &'a HostRuntime,
    market: CubeMarket,
}

impl Narration<'_> {
    fn show_market(&self) -> io::Result<()> {
        show(self.rt, "CUBE market", self.market.shown())
    }

    fn show_legs(&self) -> io::Result<()> {
        show(self.rt, "legs", self.market.right().inner().shown())
    }

    // Each market of the pile, from what it is made of to the CUBE market itself.
    fn show_pile(&self) -> io::Result<()> {
        let book = self.market.left();
        let legs = self.market.right();
        self.show_legs()?;
        show(self.rt, "book", book.inner().shown())?;
        show(self.rt, "legs improved", legs.shown())?;
        println!(self.rt; "    by their smallest ratio, {}", legs.step())?;
        show(self.rt, "book improved", book.shown())?;
        println!(self.rt; "    by {}", book.step())?;
        self.show_market()
    }

    fn take(&mut self, tick: CubeTick) -> io::Result<()> {
        match self.market.tick(tick) {
            Ok(()) => println!(self.rt; "    accepted"),
            Err(Half::Left(fault)) => refused(self.rt, "book", fault),
            Err(Half::Right(fault)) => refused(self.rt, "legs", fault),
        }
    }

    fn quote_leg(&mut self, leg: u32, bid: i64, offer: i64) -> io::Result<()> {
        println!(self.rt;
            "  leg {leg} is quoted {} bid, {} offered",
            Price(bid),
            Price(offer)
        )?;
        self.take(Half::Right(LegTick {
            leg,
            quote: LegQuote { bid, offer },
        }))
    }

    fn quote_book(&mut self, bid: Option<i64>, offer: Option<i64>) -> io::Result<()> {
        let quote = Quote { bid, offer };
        show(self.rt, "the complex book is quoted", quote)?;
        self.take(Half::Left(quote))
    }

    fn ask(&self, side: Side, limit: i64) -> io::Result<()> {
        println!(self.rt; "  an order to {side}, limit {}", Price(limit))?;
        match PermittedRange::of(&self.market, side, limit) {
            Ok(range) => show_range(self.rt, range),
            Err(refusal) => show_refusal(self.rt, refusal),
        }
    }

    fn first_quotes(&mut self) -> io::Result<()> {
        println!(self.rt; "\n2. Nothing is quoted yet, so there is no price to compete with.")?;
        self.show_market()?;
        self.ask(Side::Buy, 310)?;
        println!(self.rt; "\n3. The legs are quoted. They show prices once every leg is.")?;
        self.quote_leg(1, 500, 505)?;
        self.show_legs()?;
        self.quote_leg(2, 100, 104)?;
        self.show_legs()?;
        println!(self.rt; "\n4. The complex book bids, and offers nothing.")?;
        self.quote_book(Some(293), None)?;
        self.show_pile()
    }

    fn orders(&self) -> io::Result<()> {
        println!(self.rt;
            "\n5. An order to buy may trade from the CUBE bid \
             up to the lower of its limit and the CUBE offer."
        )?;
        self.ask(Side::Buy, 310)?;
        self.ask(Side::Buy, 300)?;
        println!(self.rt;
            "\n6. An order to sell may trade from the CUBE offer \
             down to the higher of its limit and the CUBE bid."
        )?;
        self.ask(Side::Sell, 290)?;
        println!(self.rt; "\n7. A limit that the market has left behind permits nothing.")?;
        self.ask(Side::Buy, 293)
    }

    fn moves(&mut self) -> io::Result<()> {
        println!(self.rt; "\n8. A leg's quote moves, and the range follows.")?;
        self.quote_leg(1, 503, 506)?;
        self.show_pile()?;
        self.ask(Side::Buy, 310)?;
        self.ask(Side::Sell, 290)
    }

    fn faults(&mut self) -> io::Result<()> {
        println!(self.rt; "\n9. Quotes that cannot be are refused, and nothing moves.")?;
        self.quote_leg(2, 104, 104)?;
        self.quote_leg(3, 100, 104)?;
        self.quote_leg(1, 500, 1_000_001)?;
        self.quote_book(Some(295), Some(295))?;
        self.quote_book(None, Some(40_000_001))?;
        self.show_market()
    }
}

/// Narrates a CUBE market over these legs, and then two auctions in the ranges that it permits.
pub fn narrate(rt: &HostRuntime, legs: Legs) -> io::Result<()> {
    let mut narration = Narration {
        rt,
        market: cube_market(legs),
    };
    narration.first_quotes()?;
    narration.orders()?;
    narration.moves()?;
    narration.faults()?;
    auctions(rt, &narration.market)
}
