// The values of an auction: the order with its guarantee, its range, and the responses that stand. Prices are
// turned. Which responses and floors it gets is decided above.
ghost use Rattle.std.specs.Prelude.{◌≡◌, true, is_some, ◌&&◌, int_le};
ghost use Rattle.allocation.specs.AuctionInvariant.{terms_ok, stored_ok, response_ok, each, arrival_free, arrivals_apart, owns_apart};
ghost use Rattle.allocation.specs.Table.{standing, own_response, any_below};

use crate::limits::{is_member, is_own_number};
use crate::order::PairedOrder;
use crate::response::{NewTerms, Response, ResponseId};
use crate::table::ResponseTable;
use crate::terms::AuctionTerms;
use std::alloc::AllocError;

/// An auction: its order with the guarantee, the range of turned prices from its floor to its initiating
/// price, and the responses that stand, 64 at most. It is a value in fixed memory and takes no heap.
#[derive(Drop)]
pub struct Auction {
    pub(crate) order: PairedOrder,
    pub(crate) floor: i64,
    pub(crate) initiating: i64,
    pub(crate) table: ResponseTable,
    ghost terms: { terms_ok order floor initiating ≡ true },
    ghost responses: { each (response_ok order.size floor initiating) (standing table) ≡ true },
    ghost apart: { arrivals_apart (standing table) ≡ true },
    ghost owns: { owns_apart (standing table) ≡ true },
}

/// An auction of the same order, range and responses. It takes no memory, so it never fails.
impl Clone for Auction {
    ghost use Rattle.std.specs.Prelude.{⊤};
    ghost use Rattle.allocation.specs.Auction.{auction_values};

    ghost is_clone = { λ a b. auction_values b ≡ auction_values a };

    ghost is_infallible = { λ _. ⊤ };

    fn clone(&self) -> Result<Auction, AllocError> {
        Ok(Auction {
            order: self.order,
            floor: self.floor,
            initiating: self.initiating,
            table: self.table.clone()?,
        })
    }
}

// Making and reading.
impl Auction {
    ghost use Rattle.allocation.specs.Auction.{auction_values, new_auction};

    /// An auction of these terms, with no response yet. `AuctionTerms::hold` tells whether an auction can
    /// have them.
    pub fn new(terms: AuctionTerms) -> Auction
        requires { terms_ok terms.order terms.floor terms.initiating ≡ true }
        ensures { auction_values result ≡ new_auction terms.order terms.floor terms.initiating }
    {
        Auction {
            order: terms.order,
            floor: terms.floor,
            initiating: terms.initiating,
            table: ResponseTable::empty(),
        }
    }

    /// The order with its guarantee, as stored: limit and guarantee are turned.
    pub fn order(&self) -> PairedOrder
        ensures { result ≡ (auction_values self.now).order }
    {
        self.order
    }

    /// The price where the range begins, turned, in cents.
    pub fn floor(&self) -> i64
        ensures { result ≡ (auction_values self.now).floor }
    {
        self.floor
    }

    /// The price where the range ends, turned, in cents.
    pub fn initiating(&self) -> i64
        ensures { result ≡ (auction_values self.now).initiating }
    {
        self.initiating
    }

    /// The standing response of this member with this own number, if there is one.
    pub fn response_of(&self, of: ResponseId) -> Option<Response>
        ensures { result ≡ own_response of.member of.own_number (auction_values self.now).stood }
    {
        self.table.own_response(of)
    }

    /// Whether a response stands at a price below this one, both turned, in cents.
    pub fn is_any_below(&self, price: i64) -> bool
        ensures { result ≡ any_below price (auction_values self.now).stood }
    {
        // A `for` over the rows that stand, looking for one below the floor.
        for response in self.table.standing() {
            if response.price < price {
                return true;
            }
        }
        false
    }
}

// Which responses may stand.
impl Auction {
    ghost use Rattle.allocation.specs.Auction.{auction_values, may_store, may_change};

    // A price, turned, that is in the auction's range.
    fn is_in_range(&self, price: i64) -> bool
        ensures { result ≡ (int_le self.now.floor price && int_le price self.now.initiating) }
    {
        (self.floor..=self.initiating).contains(&price)
    }

    // A size and a price, turned, at which a response may stand.
    fn may_stand_at(&self, size: u32, price: i64) -> bool
        ensures { result ≡ stored_ok self.now.order.size self.now.floor self.now.initiating size price }
    {
        (1..=self.order.size).contains(&size) && self.is_in_range(price)
    }

    fn may_stand(&self, response: &Response) -> bool
        ensures { result ≡ response_ok self.now.order.size self.now.floor self.now.initiating response.now }
    {
        is_member(response.member)
            && is_own_number(response.own_number)
            && self.may_stand_at(response.size, response.price)
    }

    fn is_arrival_free(&self, arrival: u32) -> bool
        ensures { result ≡ arrival_free arrival (standing self.now.table) }
    {
        // A `for` and not `all`, with which 64 stores with their tests took a quarter more time.
        for response in self.table.standing() {
            if response.arrival == arrival {
                return false;
            }
        }
        true
    }

    /// Whether this response may be stored: it may stand, its arrival number and its member's own number are
    /// not in use, and fewer than 64 stand.
    pub fn may_store(&self, response: &Response) -> bool
        ensures { result ≡ may_store (auction_values self.now) response.now }
    {
        self.may_stand(response)
            && self.is_arrival_free(response.arrival)
            && self.response_of(response.id()).is_none()
            && !self.table.is_full()
    }

    /// Whether the response of this member with this own number stands, may stand with these terms, and the
    /// new arrival number is not in use.
    pub fn may_change(&self, of: ResponseId, to: NewTerms) -> bool
        ensures { result ≡ may_change (auction_values self.now) of to }
    {
        self.response_of(of).is_some()
            && self.may_stand_at(to.size, to.price)
            && self.is_arrival_free(to.arrival)
    }
}

// Storing, changing and withdrawing responses.
impl Auction {
    ghost use Rattle.allocation.specs.Auction.{auction_values, may_store, after_store, may_change, after_change, after_withdrawal};

    /// Stores a response behind those that stand. `may_store` tells whether it may be.
    pub fn store(&mut self, response: Response)
        requires { may_store (auction_values self.old) response ≡ true }
        ensures { auction_values self.new ≡ after_store (auction_values self.old) response }
    {
        self.table.push(response);
    }

    /// Changes the size, the price, turned, and the arrival number of the response of this member with this
    /// own number. `may_change` tells whether it may be.
    pub fn change(&mut self, of: ResponseId, to: NewTerms)
        requires { may_change (auction_values self.old) of to ≡ true }
        ensures { auction_values self.new ≡ after_change (auction_values self.old) of to }
    {
        let index = self.table.index_of(of);
        self.table.rewrite(index, to);
    }

    /// Withdraws the response of this member with this own number, which stands: `response_of` tells whether
    /// it does.
    pub fn withdraw(&mut self, of: ResponseId)
        requires { is_some (own_response of.member of.own_number (auction_values self.old).stood) ≡ true }
        ensures { auction_values self.new ≡ after_withdrawal (auction_values self.old) of }
    {
        let index = self.table.index_of(of);
        self.table.remove(index);
    }
}

// Moving the floor.
impl Auction {
    ghost use Rattle.allocation.specs.Auction.{auction_values, may_move_floor, with_floor};

    // The terms of the auction with another floor.
    fn terms_from(&self, floor: i64) -> AuctionTerms
        ensures order { result.order ≡ self.now.order }
        ensures floor { result.floor ≡ floor }
        ensures initiating { result.initiating ≡ self.now.initiating }
    {
        AuctionTerms {
            order: self.order,
            floor,
            initiating: self.initiating,
        }
    }

    /// Whether the auction can have this floor, turned, in cents: with the same order and initiating price,
    /// and no response below it.
    pub fn may_move_floor(&self, floor: i64) -> bool
        ensures { result ≡ may_move_floor (auction_values self.now) floor }
    {
        self.terms_from(floor).hold() && !self.is_any_below(floor)
    }

    /// Gives the auction another floor, turned, in cents. `may_move_floor` tells whether it can have it.
    pub fn move_floor(&mut self, floor: i64)
        requires { may_move_floor (auction_values self.old) floor ≡ true }
        ensures { auction_values self.new ≡ with_floor (auction_values self.old) floor }
    {
        self.floor = floor;
    }
}
