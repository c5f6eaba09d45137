// Why a line is not understood. Only what was expected is told, and never what the line says.
ghost use Rattle.std.specs.Prelude.{Some};
ghost use Rattle.script.specs.Misread.{expected_text, misread_text};

use std::fmt;

/// What a line is to have at a place.
#[derive(Clone, Copy, PartialEq, Eq, Debug)]
pub enum Expected {
    Statement,
    RoomNumber,
    Side,
    Ratio,
    Ranking,
    Interval,
    Milliseconds,
    Seed,
    Time,
    Half,
    Leg,
    Bid,
    Offer,
    BookBid,
    BookOffer,
    Member,
    OwnNumber,
    Kind,
    Class,
    Size,
    At,
    Limit,
    Guarantee,
    Price,
    Auction,
    Rows,
}

/// What is wrong with a line, at the first place from the left where something is.
#[derive(Clone, Copy, PartialEq, Eq, Debug)]
pub enum Misread {
    /// The line ends where more is expected.
    Missing(Expected),
    /// Another word stands there.
    Unknown(Expected),
    /// A minus stands before a number that may have none.
    Negative(Expected),
    /// A number stands there that has to be what is written, and is above 4,294,967,295.
    TooLarge(Expected),
    /// The statement is whole, and words follow.
    Surplus,
}

impl fmt::Display for Expected {
    ghost output = { λ x. Some (expected_text x) };

    fn fmt<W: fmt::Write>(&self, f: &mut fmt::Formatter<W>) -> fmt::Result {
        f.write_str(match self {
            Expected::Statement => {
                "room, leg, ranking, interval, tick, open, respond, change, withdraw, halt, resume, clock, look, collect or range"
            }
            Expected::RoomNumber => "the room's number",
            Expected::Side => "buy or sell",
            Expected::Ratio => "a ratio",
            Expected::Ranking => "arrival or size",
            Expected::Interval => "fixed or drawn",
            Expected::Milliseconds => "a number of milliseconds",
            Expected::Seed => "a seed",
            Expected::Time => "a time",
            Expected::Half => "leg or book",
            Expected::Leg => "a leg's number",
            Expected::Bid => "a bid in whole cents",
            Expected::Offer => "an offer in whole cents",
            Expected::BookBid => "a bid in whole cents or none",
            Expected::BookOffer => "an offer in whole cents or none",
            Expected::Member => "a member's number",
            Expected::OwnNumber => "an own number",
            Expected::Kind => "sealed or plain",
            Expected::Class => "customer or other",
            Expected::Size => "a size",
            Expected::At => "@",
            Expected::Limit => "a limit in whole cents",
            Expected::Guarantee => "stop or match",
            Expected::Price => "a price in whole cents",
            Expected::Auction => "an auction's number",
            Expected::Rows => "a number of rows",
        })
    }
}

impl fmt::Display for Misread {
    ghost output = { λ x. Some (misread_text x) };

    fn fmt<W: fmt::Write>(&self, f: &mut fmt::Formatter<W>) -> fmt::Result {
        match self {
            Misread::Missing(what) => write!(f, "the line ends where {what} is expected"),
            Misread::Unknown(what) => write!(
                f,
                "{what} is expected, and something else stands there"
            ),
            Misread::Negative(what) => write!(f, "{what} is expected, with no minus"),
            Misread::TooLarge(what) => write!(f, "{what} is expected, of at most 4294967295"),
            Misread::Surplus => write!(f, "the line's end is expected, and words follow"),
        }
    }
}
