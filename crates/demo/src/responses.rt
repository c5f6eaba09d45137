// The responses of an auction: their terms, and how they stand.
ghost use Rattle.std.specs.Prelude.{◌≡◌, true, Some};
ghost use Rattle.market.specs.Limits.{showable};

use crate::text::Price;
use allocation::auction::Auction;
use allocation::response::{Class, Kind, Response};
use market::side::Side;
use std::alloc::{AllocError, Global};
use std::io;

/// The terms of a member's response. Its price is in cents, not turned; its list has the order of arrival.
#[derive(Clone, Copy)]
pub struct ResponseTerms {
    member: u8,
    class: Class,
    size: u32,
    price: i64,
    ghost price_within: { showable (Some price) ≡ true },
}

impl ResponseTerms {
    fn stored(&self, side: Side, arrival: u32) -> Response {
        Response {
            member: self.member,
            own_number: 1,
            kind: Kind::Sealed,
            class: self.class,
            size: self.size,
            price: side.turn(self.price),
            arrival,
        }
    }
}

/// The terms of a response of this many contracts.
pub fn response_terms(member: u8, class: Class, size: u32, price: i64) -> ResponseTerms
    requires { showable (Some price) ≡ true }
{
    ResponseTerms {
        member,
        class,
        size,
        price,
    }
}

/// The responses to an order, in the order of their arrival.
#[derive(Clone, Copy)]
pub struct Responses<'a> {
    /// The order's side.
    pub side: Side,
    /// The terms of each.
    pub terms: &'a [ResponseTerms],
}

impl Responses<'_> {
    /// Whether all may stand; each is stored, up to one that may not.
    // The examples have one alike: no layer has what only programs call, and neither rests on the other.
    pub fn store_all(&self, auction: &mut Auction) -> bool {
        let side = self.side;
        (1..=u32::MAX).zip(self.terms).all(|(arrival, terms)| {
            let response = terms.stored(side, arrival);
            let may = auction.may_store(&response);
            if may {
                auction.store(response);
            }
            may
        })
    }

    // Each with its price not turned; by turned price, customers before others, by arrival.
    fn in_order(&self, heap: Global) -> Result<Vec<(i64, Response)>, AllocError> {
        let side = self.side;
        let mut list: Vec<(i64, Response)> = (1..=u32::MAX)
            .zip(self.terms)
            .map(|(arrival, terms)| (terms.price, terms.stored(side, arrival)))
            .collect(heap)?;
        list.sort_by_key(|(_, response)| (response.price, response.class, response.arrival))?;
        Ok(list)
    }

    /// Prints the responses, from the best price on, at each price customers first, and then by arrival.
    pub fn show_standing(&self, rt: &HostRuntime) -> io::Result<()> {
        println!(rt; "  the responses that stand, from the best price on:")?;
        let list = self.in_order(rt.alloc())?;
        for (price, response) in list.iter() {
            let Response {
                member,
                class,
                size,
                arrival,
                ..
            } = *response;
            let price = Price(*price);
            println!(rt;
                "    {price}: {class}, member {member}, {size} contracts, arrival {arrival}"
            )?;
        }
        Ok(())
    }
}
