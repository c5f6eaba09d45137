// Opening an auction.
ghost use Rattle.std.specs.Prelude.{◌≡◌, false, None as Nothing, int_lt, nat_le};
ghost use Rattle.allocation.specs.Auction.{auction_values};
ghost use Rattle.market.specs.Range.{range_prices};
ghost use Rattle.market.specs.Refusal.{range_number};
ghost use Rattle.market.specs.Side.{turned_price};
ghost use Rattle.room.specs.Calls.{claim_told, range_for, Gives, Opens};
ghost use Rattle.room.specs.Checked.{paired_order};
ghost use Rattle.room.specs.Openings.{stored_order, new_values, any_waits, open_call};
ghost use Rattle.room.specs.Refusals.{refusal_number, fault_of, HoldsNoFault};
ghost use Rattle.room.specs.Rooms.{range_result, waiting_values};

use crate::Room;
use crate::answers::ClaimNumbers;
use crate::checked::CheckedOrder;
use crate::claim::Claim;
use crate::open_auction::OpenAuction;
use crate::refusal::Refusal;
use crate::requests::OpeningRequest;
use allocation::auction::Auction;
use allocation::cause::EndCause;
use allocation::order::{Guarantee, PairedOrder};
use allocation::ranking::Ranking;
use allocation::terms::AuctionTerms;
use interval::source::IntervalSource;
use market::Market;
use market::range::PermittedRange;
use market::refusal::RangeRefusal;

// A million auctions can be opened in a room.
const MOST_OPENED: u32 = 1_000_000;

// The room's refusal of the same number: 14 or 15, and 2 for a limit that was not checked before. An impl of
// `From<RangeRefusal>` would overlap the one that takes any market's fault.
fn range_refusal<F>(told: RangeRefusal) -> Refusal<F>
    ensures number { refusal_number result ≡ range_number told }
    ensures no_fault { fault_of result ≡ Nothing }
{
    match told {
        RangeRefusal::PriceOutsideLimits => Refusal::PriceOutsideLimits,
        RangeRefusal::SideShowsNoPrice => Refusal::SideShowsNoPrice,
        RangeRefusal::InitiatingBelowFloor => Refusal::InitiatingBelowFloor,
    }
}

// The guarantee, turned, is above the initiating price.
fn is_guarantee_above(order: &CheckedOrder, range: &PermittedRange) -> bool
    ensures { result ≡ int_lt range.now.initiating (turned_price order.now.side order.now.guarantee.price.cents) }
{
    range.initiating < order.guarantee.price.turned(order.side)
}

// An order as an auction stores it: limit and guarantee turned, and a guarantee below the floor at the floor.
fn stored(order: &CheckedOrder, range: &PermittedRange) -> PairedOrder
    ensures { result ≡ stored_order range.now.floor (paired_order order.now) }
{
    let mut stored = PairedOrder {
        side: order.side,
        size: order.size.contracts,
        limit: order.limit.turned(order.side),
        guarantee: Guarantee {
            kind: order.guarantee.kind,
            price: order.guarantee.price.turned(order.side),
        },
    };
    // One changed field of nested plain records.
    stored.guarantee.price = stored.guarantee.price.max(range.floor);
    stored
}

// The auction of an order in its range, with no response yet.
fn new_auction(order: &CheckedOrder, range: &PermittedRange) -> Auction
    requires { int_lt range.now.initiating (turned_price order.now.side order.now.guarantee.price.cents) ≡ false }
    ensures { auction_values result ≡ new_values (paired_order order.now) (range_prices range.now) }
{
    Auction::new(AuctionTerms {
        order: stored(order, range),
        floor: range.floor,
        initiating: range.initiating,
    })
}

impl<M: Market, R: Ranking, S: IntervalSource> Room<M, R, S> {
    // The range of an order that may open, or the first refusal.
    fn opening_range(&self, order: &CheckedOrder) -> Result<PermittedRange, Refusal<M::Fault>>
        ensures answer { range_result result
            ≡ range_for M.Market R.Ranking S.IntervalSource self.now (paired_order order.now) }
        ensures no_fault { HoldsNoFault result }
    {
        if self.halted {
            return Err(Refusal::RoomHalted);
        }
        if !self.waiting.is_empty() {
            return Err(Refusal::AuctionWaits);
        }
        let permitted = PermittedRange::of(&self.market, order.side, order.limit.cents);
        // A closure: the check does not take a function's name whose result names the market's fault.
        let range = permitted.map_err(|told| range_refusal(told))?;
        if is_guarantee_above(order, &range) {
            return Err(Refusal::GuaranteeAboveInitiating);
        }
        if self.opened >= MOST_OPENED {
            return Err(Refusal::OpeningsUsedUp);
        }
        Ok(range)
    }

    // Opens the auction of an order in its range; one that was open ends first.
    fn begin(&mut self, order: &CheckedOrder, range: PermittedRange)
        requires none { any_waits (waiting_values self.old.waiting) ≡ false }
        requires guaranteed { int_lt range.initiating (turned_price order.now.side order.now.guarantee.price.cents) ≡ false }
        requires few { nat_le 1000000 self.old.opened ≡ false }
        ensures { Opens M.Market R.Ranking S.IntervalSource self.old self.new (paired_order order.now)
            (range_prices range) }
    {
        let auction = new_auction(order, &range);
        self.end(EndCause::NextAuction);
        let interval = self.source.draw();
        self.opened += 1;
        self.current = Some(OpenAuction::new(
            self.opened,
            self.time + u64::from(interval),
            auction,
        ));
    }

    /// Opens an auction of an order with its guarantee; one that is open ends for A. The claim collects the
    /// auction when it has ended. Refusals: 1 to 4, 12 to 17.
    pub fn open(&mut self, request: OpeningRequest) -> Result<Claim, Refusal<M::Fault>>
        ensures { Gives M.Market R.Ranking S.IntervalSource self.old self.new (claim_told M.Market result)
            (λ w s. open_call w s request) }
    {
        let opening = request.checked()?;
        self.step_clock(opening.time);
        let range = self.opening_range(&opening.order)?;
        self.begin(&opening.order, range);
        Ok(Claim {
            numbers: ClaimNumbers {
                room: self.number,
                auction: self.opened,
            },
        })
    }
}
