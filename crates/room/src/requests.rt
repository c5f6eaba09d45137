// What members hand in. Any number may arrive: what is outside its limits is refused before anything else
// happens.
use allocation::order::PairedOrder;
use allocation::response::{Class, Kind};
use market::side::Side;

/// An order to be auctioned, with the guarantee that the contra firm gives for it.
#[derive(Clone, Copy)]
pub struct OpeningRequest {
    /// In milliseconds, 4,000,000,000,000 at most.
    pub time: u64,
    /// The member that opens, 1 to 16.
    pub member: u8,
    /// The order. Its prices are not turned.
    pub order: PairedOrder,
}

/// A response to the open auction.
#[derive(Clone, Copy)]
pub struct ResponseRequest {
    /// In milliseconds, 4,000,000,000,000 at most.
    pub time: u64,
    /// The member that responds, 1 to 16.
    pub member: u8,
    /// The number by which the member knows the response, 1 to 4.
    pub own_number: u8,
    /// The member's side, opposite to the order's.
    pub side: Side,
    /// A sealed response can be changed and withdrawn, a plain one not.
    pub kind: Kind,
    /// For a customer, or for anyone else.
    pub class: Class,
    /// In contracts, 1 to 100,000.
    pub size: u32,
    /// In cents, not turned, 40,000,000 at most either way.
    pub price: i64,
}

/// A new price and a new size for a sealed response that stands.
#[derive(Clone, Copy)]
pub struct ChangeRequest {
    /// In milliseconds, 4,000,000,000,000 at most.
    pub time: u64,
    /// The member whose response it is, 1 to 16.
    pub member: u8,
    /// The number by which the member knows the response, 1 to 4.
    pub own_number: u8,
    /// In contracts, 1 to 100,000.
    pub size: u32,
    /// In cents, not turned, 40,000,000 at most either way.
    pub price: i64,
}

/// A sealed response that stands, to be removed.
#[derive(Clone, Copy)]
pub struct WithdrawRequest {
    /// In milliseconds, 4,000,000,000,000 at most.
    pub time: u64,
    /// The member whose response it is, 1 to 16.
    pub member: u8,
    /// The number by which the member knows the response, 1 to 4.
    pub own_number: u8,
}
