// Two auctions, each from its order and its responses to its fill list. The library answers who gets what.
ghost use Rattle.std.specs.Prelude.{◌≡◌, true, Some};
ghost use Rattle.market.specs.Limits.{showable};

use crate::levels::Shared;
use crate::responses::{ResponseTerms, Responses, response_terms};
use crate::steps::{show_range, show_refusal};
use crate::table::show_table;
use crate::text::Price;
use allocation::auction::Auction;
use allocation::fill::{FillRow, LEAST_ROWS};
use allocation::order::{Guarantee, GuaranteeKind, PairedOrder};
use allocation::ranking::{EarlierArrival, LargerSize, Ranking};
use allocation::response::Class::{Customer, Other};
use allocation::terms::AuctionTerms;
use market::Market;
use market::range::PermittedRange;
use market::side::Side;
use std::io;

// A ranking, and how the narration calls it.
trait Called: Ranking {
    const NAME: &'static str;
}

impl Called for EarlierArrival {
    const NAME: &'static str = "the earlier arrival first";
}

impl Called for LargerSize {
    const NAME: &'static str = "the larger size first";
}

// An auction's order and responses, their prices not turned, and its ranking.
#[derive(Drop)]
struct Task<'a, R> {
    side: Side,
    size: u32,
    limit: i64,
    kind: GuaranteeKind,
    price: i64,
    responses: &'a [ResponseTerms],
    ranking: R,
    ghost limit_within: { showable (Some limit) ≡ true },
    ghost price_within: { showable (Some price) ≡ true },
}

impl<R: Called> Task<'_, R> {
    fn order(&self) -> PairedOrder {
        PairedOrder {
            side: self.side,
            size: self.size,
            limit: self.side.turn(self.limit),
            guarantee: Guarantee {
                kind: self.kind,
                price: self.side.turn(self.price),
            },
        }
    }

    fn show_order(&self, rt: &HostRuntime) -> io::Result<()> {
        let Task {
            side,
            size,
            kind,
            ..
        } = *self;
        let limit = Price(self.limit);
        let price = Price(self.price);
        println!(rt;
            "  an order to {side} {size} contracts, limit {limit}, guarantee: {kind} {price}"
        )
    }

    // The levels and the table of a fill list.
    fn show_fills(&self, rt: &HostRuntime, auction: &Auction, rows: &[FillRow]) -> io::Result<()> {
        let shared = Shared {
            rows,
            kind: self.kind,
            initiating: self.side.turn(auction.initiating()),
            ranking: R::NAME,
        };
        shared.show_levels(rt, self.size)?;
        show_table(rt, rows, self.size)
    }

    fn share_out(&self, rt: &HostRuntime, auction: &Auction) -> io::Result<()> {
        let guaranteed = auction.guaranteed();
        println!(rt; "  G, the share that the contra is guaranteed: {guaranteed}")?;
        let mut rows = [FillRow::BLANK; LEAST_ROWS];
        match auction.fill(&self.ranking, &mut rows) {
            Ok(count) => self.show_fills(rt, auction, rows.get(..count).unwrap_or(&[])),
            Err(refusal) => println!(rt; "    refused: {}", refusal.number()),
        }
    }

    // The auction of the order, in the range that it is permitted.
    fn hold(&self, rt: &HostRuntime, range: PermittedRange) -> io::Result<()> {
        let terms = AuctionTerms {
            order: self.order(),
            floor: range.floor,
            initiating: range.initiating,
        };
        if !terms.hold() {
            return println!(rt; "    no auction has these terms");
        }
        let mut auction = Auction::new(terms);
        let responses = Responses {
            side: self.side,
            terms: self.responses,
        };
        if !responses.store_all(&mut auction) {
            return println!(rt; "    a response may not stand");
        }
        responses.show_standing(rt)?;
        self.share_out(rt, &auction)
    }

    fn work<M: Market>(&self, rt: &HostRuntime, market: &M) -> io::Result<()> {
        self.show_order(rt)?;
        match PermittedRange::of(market, self.side, self.limit) {
            Ok(range) => {
                show_range(rt, range)?;
                self.hold(rt, range)
            }
            Err(refusal) => show_refusal(rt, refusal),
        }
    }
}

fn buy<M: Market>(rt: &HostRuntime, market: &M) -> io::Result<()> {
    println!(rt;
        "\n10. An order to buy is shared out. At its single stop the contra firm cleans up:"
    )?;
    println!(rt; "    it takes its guaranteed share G, the others share, and it takes the rest.")?;
    let task = Task {
        side: Side::Buy,
        size: 100,
        limit: 310,
        kind: GuaranteeKind::SingleStop,
        price: 300,
        responses: &[
            response_terms(3, Other, 50, 300),
            response_terms(4, Other, 20, 300),
            response_terms(5, Other, 25, 297),
            response_terms(2, Customer, 30, 300),
            response_terms(6, Other, 15, 302),
        ],
        ranking: EarlierArrival,
    };
    task.work(rt, market)
}

fn sell<M: Market>(rt: &HostRuntime, market: &M) -> io::Result<()> {
    println!(rt;
        "\n11. An order to sell is shared out. \
         From its auto-match limit on the contra firm matches what stands,"
    )?;
    println!(rt;
        "    until it has G; where too little is left for that, it cleans up with what it lacks of G."
    )?;
    let task = Task {
        side: Side::Sell,
        size: 100,
        limit: 290,
        kind: GuaranteeKind::AutoMatchLimit,
        price: 302,
        responses: &[
            response_terms(2, Other, 9, 300),
            response_terms(3, Other, 17, 300),
            response_terms(4, Other, 10, 302),
            response_terms(5, Other, 21, 300),
            response_terms(6, Customer, 10, 304),
            response_terms(7, Customer, 5, 302),
            response_terms(8, Other, 15, 304),
            response_terms(9, Customer, 10, 300),
        ],
        ranking: LargerSize,
    };
    task.work(rt, market)
}

/// Narrates both auctions, in the ranges that the market permits.
pub fn auctions<M: Market>(rt: &HostRuntime, market: &M) -> io::Result<()> {
    buy(rt, market)?;
    sell(rt, market)
}
