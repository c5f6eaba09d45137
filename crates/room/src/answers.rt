// What members are answered. No price here is turned.
use allocation::cause::EndCause;
use market::side::Side;

/// The numbers of a claim.
#[derive(Clone, Copy, PartialEq, Eq, Debug)]
pub struct ClaimNumbers {
    /// The number of the room whose auction it collects.
    pub room: u32,
    /// The number of that auction, counted from 1 in its room.
    pub auction: u32,
}

/// A response as it was stored.
#[derive(Clone, Copy)]
pub struct StoredTerms {
    /// In cents: the higher of the price that was handed in and the floor, as the order's side has it.
    pub price: i64,
    /// In contracts, the order's size at most.
    pub size: u32,
}

/// What everybody may know of the open auction.
#[derive(Clone, Copy)]
pub struct AuctionView {
    /// The auction's number, counted from 1 in its room.
    pub number: u32,
    /// The side of its order.
    pub side: Side,
    /// The size of its order, in contracts.
    pub size: u32,
    /// Its initiating price, in cents.
    pub initiating: i64,
}

/// What a look tells.
#[derive(Clone, Copy)]
pub struct View {
    /// The room's time, in milliseconds.
    pub time: u64,
    /// No auction opens while the room is halted.
    pub halted: bool,
    /// How many auctions have ended and wait to be collected.
    pub waiting: usize,
    /// The open auction, if there is one.
    pub auction: Option<AuctionView>,
}

/// What a collecting tells beside the rows.
#[derive(Clone, Copy)]
pub struct Collection {
    /// How many rows the fill list has.
    pub count: usize,
    /// Why the auction ended.
    pub cause: EndCause,
}
