// The rooms of these examples: over a touch, with intervals of 100 and ranking by arrival. The touch bids 290
// and offers 300.
ghost use Rattle.std.specs.Prelude.{◌≡◌};
ghost use Rattle.session.specs.declared.call.Call.TheVariants.{Collect};
ghost use Rattle.session.specs.Claims.{claim_to};

use allocation::fill::LEAST_ROWS;
use allocation::order::{Guarantee, GuaranteeKind, PairedOrder};
use allocation::ranking::EarlierArrival;
use allocation::response::{Class, Kind};
use interval::fixed::FixedInterval;
use market::fault::Fault;
use market::quote::Quote;
use market::side::Side;
use market::touch::Touch;
use room::answers::ClaimNumbers;
use room::requests::{ChangeRequest, OpeningRequest, ResponseRequest, WithdrawRequest};
use session::answer::Answer;
use session::call::Call;
use session::desk::Desk;
use std::alloc::Global;

/// A desk over a touch.
pub type TouchDesk = Desk<Touch, EarlierArrival, FixedInterval>;

/// A call on a room over a touch.
pub type TouchCall = Call<Quote>;

/// An answer of a room over a touch.
pub type TouchAnswer = Answer<Fault>;

/// The number of these rooms.
pub const ROOM: u32 = 1;

/// A desk with a new room; none where there is no interval of 100.
pub fn desk(heap: Global) -> Option<TouchDesk> {
    let source = FixedInterval::new(100).ok()?;
    Some(Desk::new(heap, ROOM, Touch::new(), EarlierArrival, source))
}

/// A bid of 290 and an offer of 300.
pub const QUOTE: Quote = Quote {
    bid: Some(290),
    offer: Some(300),
};

/// An order to buy 10, at 300 at most, with a single stop at 295.
pub const OPENING: OpeningRequest = OpeningRequest {
    time: 0,
    member: 1,
    order: PairedOrder {
        side: Side::Buy,
        size: 10,
        limit: 300,
        guarantee: Guarantee {
            kind: GuaranteeKind::SingleStop,
            price: 295,
        },
    },
};

/// A tick that brings the quote.
pub fn quoting() -> TouchCall {
    Call::Tick {
        time: 0,
        tick: QUOTE,
    }
}

/// The opening of that order.
pub fn opening() -> TouchCall {
    Call::Open(OPENING)
}

/// The first sealed response of member 2, of 5 at 294.
pub const RESPONSE: ResponseRequest = ResponseRequest {
    time: 0,
    member: 2,
    own_number: 1,
    side: Side::Sell,
    kind: Kind::Sealed,
    class: Class::Other,
    size: 5,
    price: 294,
};

/// The same of another member and with another number of its own.
pub fn responding(member: u8, own_number: u8) -> TouchCall {
    Call::Respond(ResponseRequest {
        member,
        own_number,
        ..RESPONSE
    })
}

/// The first response of a member, changed to 6 at 293.
pub fn changing(member: u8) -> TouchCall {
    Call::Change(ChangeRequest {
        time: 0,
        member,
        own_number: 1,
        size: 6,
        price: 293,
    })
}

/// The first response of a member, withdrawn.
pub fn withdrawing(member: u8) -> TouchCall {
    Call::Withdraw(WithdrawRequest {
        time: 0,
        member,
        own_number: 1,
    })
}

pub fn collecting_in(room: u32, auction: u32) -> TouchCall
    ensures { result ≡ Collect (claim_to room auction) 129 }
{
    Call::Collect {
        claim: ClaimNumbers { room, auction },
        rows: LEAST_ROWS,
    }
}

/// A collecting of an auction of the room of these examples.
pub fn collecting(auction: u32) -> TouchCall {
    collecting_in(ROOM, auction)
}
