//! The side of an order or of a leg.
ghost use Rattle.std.specs.Prelude.{◌≡◌, true, Some};
ghost use Rattle.std.specs.Fmt.{padded};
ghost use Rattle.market.specs.Limits.{showable};
ghost use Rattle.market.specs.Side.{turned_price, side_name};

use std::fmt;

/// Which way an order trades the strategy, or which way a strategy has a leg.
#[derive(Clone, Copy, PartialEq, Eq, Debug)]
pub enum Side {
    Buy,
    Sell,
}

impl Side {
    /// The turned price: the price itself for a buy, the price with its sign changed for a sell.
    ///
    /// `limits::is_showable` tests what is required.
    pub fn turn(self, price: i64) -> i64
        requires { showable (Some price) ≡ true }
        ensures { result ≡ turned_price self price }
    {
        match self {
            Side::Buy => price,
            Side::Sell => -price,
        }
    }
}

// The name of the side of an order: "buy" or "sell".
impl fmt::Display for Side {
    ghost output = { λ side. Some (side_name side) };

    ghost styled_output = { λ side style. Some (padded style (side_name side)) };

    fn fmt<W: fmt::Write>(&self, f: &mut fmt::Formatter<W>) -> fmt::Result {
        f.pad(match self {
            Side::Buy => "buy",
            Side::Sell => "sell",
        })
    }
}
