//! What is bid and offered.

/// A bid and an offer, in signed whole cents; negative where the buyer receives. Either side may be without
/// a price.
///
/// It has no invariant: a tick is a quote too, and may hold any numbers. That what a market shows stays
/// within bounds is a law of `Market`.
#[derive(Clone, Copy, PartialEq, Eq, Default, Debug)]
pub struct Quote {
    /// The best price that is bid, in cents, if any.
    pub bid: Option<i64>,
    /// The best price that is offered, in cents, if any.
    pub offer: Option<i64>,
}
