// The order of an auction, with the guarantee that the contra firm gives for it.
ghost use Rattle.std.specs.Prelude.{◌≡◌, Some};
ghost use Rattle.std.specs.Fmt.{padded};
ghost use Rattle.allocation.specs.Order.{kind_name};
ghost use Rattle.allocation.specs.Levels.{contra_level};

use market::side::Side;
use std::fmt;

/// What kind of guarantee the contra firm gives.
#[derive(Clone, Copy, PartialEq, Eq, Debug)]
pub enum GuaranteeKind {
    /// One price at which the contra firm takes the order.
    SingleStop,
    /// The price from which the contra firm matches what others offer.
    AutoMatchLimit,
}

impl fmt::Display for GuaranteeKind {
    ghost output = { λ kind. Some (kind_name kind) };

    ghost styled_output = { λ kind style. Some (padded style (kind_name kind)) };

    fn fmt<W: fmt::Write>(&self, f: &mut fmt::Formatter<W>) -> fmt::Result {
        f.pad(match self {
            GuaranteeKind::SingleStop => "single stop",
            GuaranteeKind::AutoMatchLimit => "auto-match limit",
        })
    }
}

/// The contra firm's guarantee.
#[derive(Clone, Copy)]
pub struct Guarantee {
    /// Single stop or auto-match limit.
    pub kind: GuaranteeKind,
    /// The stop, or the limit, in cents; in an auction it is turned.
    pub price: i64,
}

/// The order with its guarantee. In an auction the limit and the guarantee's price are turned.
#[derive(Clone, Copy)]
pub struct PairedOrder {
    /// Whether the order buys or sells.
    pub side: Side,
    /// Contracts.
    pub size: u32,
    /// The worst price at which the order may trade, in cents.
    pub limit: i64,
    /// The contra firm's guarantee.
    pub guarantee: Guarantee,
}

/// What the contra's part at each level goes by.
#[derive(Clone, Copy)]
pub struct ContraTerms {
    /// The guarantee as stored, with its price turned.
    pub guarantee: Guarantee,
    /// The initiating price, turned, in cents.
    pub initiating: i64,
    /// The contra's guaranteed share, in contracts.
    pub guaranteed: u32,
}

impl ContraTerms {
    // The price of the level that is the contra's: its stop or, under an auto-match limit, the initiating
    // price.
    pub(crate) fn contra_price(&self) -> i64
        ensures { result ≡ contra_level self.now.guarantee.kind self.now }
    {
        match self.guarantee.kind {
            GuaranteeKind::SingleStop => self.guarantee.price,
            GuaranteeKind::AutoMatchLimit => self.initiating,
        }
    }
}
