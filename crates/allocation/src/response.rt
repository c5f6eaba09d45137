// A response as it stands in an auction.
ghost use Rattle.std.specs.Prelude.{◌≡◌, Some};
ghost use Rattle.std.specs.Fmt.{padded};
ghost use Rattle.allocation.specs.Response.{class_number, class_name};
ghost use Rattle.allocation.specs.Ranking.{key_of};
ghost use Rattle.allocation.specs.Table.{with_terms};

use std::fmt;

/// What kind of response a member gives.
#[derive(Clone, Copy, PartialEq, Eq, Debug)]
pub enum Kind {
    /// A room lets it be changed and withdrawn.
    Sealed,
    /// A room keeps it as it was stored.
    Plain,
}

/// For whom a member responds. Customers share first at each price.
#[derive(Clone, Copy, PartialEq, Eq, PartialOrd, Ord, Debug)]
pub enum Class {
    /// A customer.
    Customer = 0,
    /// Anybody else.
    Other = 1,
}

impl Class {
    /// The number by which the venue knows the class.
    pub fn number(self) -> u8
        ensures { result ≡ class_number self }
    {
        self as u8
    }
}

impl fmt::Display for Class {
    ghost output = { λ class. Some (class_name class) };

    ghost styled_output = { λ class style. Some (padded style (class_name class)) };

    fn fmt<W: fmt::Write>(&self, f: &mut fmt::Formatter<W>) -> fmt::Result {
        f.pad(match self {
            Class::Customer => "customer",
            Class::Other => "other",
        })
    }
}

/// A response as it is stored in an auction. It has no invariant: the definitions build it, and it is handed
/// in at any price. That its price can be turned back stands in clauses, or in the type of the run in which
/// it stands (`Standing`).
#[derive(Clone, Copy)]
pub struct Response {
    /// The member that responds, 1 to 16.
    pub member: u8,
    /// The number that the member gives it, 1 to 4.
    pub own_number: u8,
    /// Sealed or plain.
    pub kind: Kind,
    /// Customer or other.
    pub class: Class,
    /// Contracts.
    pub size: u32,
    /// The stored price, turned, in cents.
    pub price: i64,
    /// Its arrival number, which no other response of the auction has. A room counts them up in each auction,
    /// over responses and changes together.
    pub arrival: u32,
}

impl Default for Response {
    fn default() -> Response {
        Response::BLANK
    }
}

impl Response {
    // A slot in which no response stands.
    pub(crate) const BLANK: Response = Response {
        member: 0,
        own_number: 0,
        kind: Kind::Plain,
        class: Class::Other,
        size: 0,
        price: 0,
        arrival: 0,
    };

    // The same with every byte 0, so that a list of them is written at once.
    pub(crate) const ZERO: Response = Response {
        kind: Kind::Sealed,
        class: Class::Customer,
        ..Response::BLANK
    };

    // Which response of which member this is.
    pub(crate) fn id(&self) -> ResponseId
        ensures member { result.member ≡ self.now.member }
        ensures own_number { result.own_number ≡ self.now.own_number }
    {
        ResponseId {
            member: self.member,
            own_number: self.own_number,
        }
    }

    /// What a ranking may look at.
    pub fn key(&self) -> Key
        ensures { result ≡ key_of self.now }
    {
        Key {
            member: self.member,
            size: self.size,
            arrival: self.arrival,
        }
    }

    // Changes the size, price and arrival number.
    pub(crate) fn restore(&mut self, to: NewTerms)
        ensures { self.new ≡ with_terms to.size to.price to.arrival self.old }
    {
        self.size = to.size;
        self.price = to.price;
        self.arrival = to.arrival;
    }
}

/// Which response of which member.
#[derive(Clone, Copy, PartialEq, Eq, Debug)]
pub struct ResponseId {
    /// The member, 1 to 16.
    pub member: u8,
    /// The number that the member gave the response, 1 to 4.
    pub own_number: u8,
}

/// What a change gives a response.
#[derive(Clone, Copy, PartialEq, Eq, Debug)]
pub struct NewTerms {
    /// Contracts.
    pub size: u32,
    /// The price, turned, in cents.
    pub price: i64,
    /// A new arrival number.
    pub arrival: u32,
}

/// What a ranking may look at of a response.
#[derive(Clone, Copy)]
pub struct Key {
    /// The member that responds.
    pub member: u8,
    /// The stored size, in contracts.
    pub size: u32,
    /// The arrival number.
    pub arrival: u32,
}
