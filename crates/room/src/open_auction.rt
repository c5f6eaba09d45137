// The open auction: as it opens, what it makes of what the market now shows, and what may be seen of it.
ghost use Rattle.std.specs.Prelude.{◌≡◌, true, None as Nothing, [], length};
ghost use Rattle.std.specs.Option.{option_map};
ghost use Rattle.market.specs.Limits.{showable};
ghost use Rattle.allocation.specs.Auction.{auction_values};
ghost use Rattle.allocation.specs.Cause.{cause_letter};
ghost use Rattle.allocation.specs.Share.{total};
ghost use Rattle.room.specs.Counts.{all_within, all_arrived};
ghost use Rattle.room.specs.Looks.{auction_view};
ghost use Rattle.room.specs.Openings.{new_open};
ghost use Rattle.room.specs.Ticks.{shown_above, above_response, above_stop, tick_cause, floor_now, at_floor};

use crate::answers::AuctionView;
use allocation::auction::Auction;
use allocation::cause::EndCause;
use allocation::order::GuaranteeKind;
use market::range::TurnedQuote;

// The open auction. Arrival numbers count up over all members. `used` has a slot for each of the 16 members:
// how many of its responses and changes were accepted, 10,000 at most.
#[derive(Drop)]
pub(crate) struct OpenAuction {
    pub(crate) number: u32,
    pub(crate) deadline: u64,
    pub(crate) auction: Auction,
    pub(crate) arrivals: u32,
    pub(crate) used: [u32; 16],
    ghost members: { length used ≡ 16 },
    ghost few: { all_within 10000 used ≡ true },
    ghost counted: { total used ≡ arrivals },
    ghost arrived: { all_arrived arrivals (auction_values auction).stood ≡ true },
}

// A shown price is above a price.
fn is_above(shown: Option<i64>, price: i64) -> bool
    ensures { result ≡ shown_above shown price }
{
    shown.is_some_and(|z| price < z)
}

impl OpenAuction {
    ghost use Rattle.room.specs.Rooms.{open_values};

    // An auction with no response yet.
    pub(crate) fn new(number: u32, deadline: u64, auction: Auction) -> OpenAuction
        requires { (auction_values auction).stood ≡ [] }
        ensures { open_values result
            ≡ new_open number deadline (auction_values auction) }
    {
        OpenAuction {
            number,
            deadline,
            auction,
            arrivals: 0,
            used: [0; 16],
        }
    }

    // The floor is above a response that stands.
    fn is_response_below(&self, floor: Option<i64>) -> bool
        ensures { result ≡ above_response floor (open_values self.now).values.stood }
    {
        floor.is_some_and(|z| self.auction.is_any_below(z))
    }

    // The floor is above a single stop.
    fn is_stop_below(&self, floor: Option<i64>) -> bool
        ensures { result
            ≡ above_stop floor (open_values self.now).values.order.guarantee.kind
            (open_values self.now).values.order.guarantee.price }
    {
        let guarantee = self.auction.order().guarantee;
        guarantee.kind == GuaranteeKind::SingleStop && is_above(floor, guarantee.price)
    }

    // The first cause that what is now shown brings: B, C, D, F.
    pub(crate) fn tick_cause(&self, shown: &TurnedQuote) -> Option<EndCause>
        ensures { option_map cause_letter result ≡ tick_cause (open_values self.now).values shown.now }
    {
        if is_above(shown.floor, self.auction.initiating()) {
            return Some(EndCause::FloorAboveInitiating);
        }
        if self.is_response_below(shown.floor) {
            return Some(EndCause::FloorAboveResponse);
        }
        if self.is_stop_below(shown.floor) {
            return Some(EndCause::FloorAboveStop);
        }
        let guarantee = self.auction.order().guarantee;
        if shown.contra.is_some_and(|z| z < guarantee.price) {
            return Some(EndCause::ContraBelowGuarantee);
        }
        None
    }

    // A floor that brings no end counts from now on; a side with no price changes nothing.
    pub(crate) fn take_floor(&mut self, shown: &TurnedQuote)
        requires kept { tick_cause (open_values self.old).values shown.now ≡ Nothing }
        requires floor { showable shown.now.floor ≡ true }
        ensures { open_values self.new
            ≡ at_floor (floor_now shown.now.floor (open_values self.old).values.floor)
            (open_values self.old) }
    {
        if let Some(floor) = shown.floor {
            self.auction.move_floor(floor);
        }
    }

    // What everybody may know of it; the initiating price is turned back.
    pub(crate) fn view(&self) -> AuctionView
        ensures { result ≡ auction_view (open_values self.now) }
    {
        let order = self.auction.order();
        AuctionView {
            number: self.number,
            side: order.side,
            size: order.size,
            initiating: order.side.turn(self.auction.initiating()),
        }
    }
}
