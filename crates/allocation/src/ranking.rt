// A ranking: which of two responses is ahead; and the two that are built.
ghost use Rattle.std.specs.Prelude.{◌≡◌, Bool, true, not, ◌≢◌};
ghost use Rattle.std.proofs.Common.{rules};
ghost use Rattle.allocation.specs.declared.response.Key.{Key};
ghost use Rattle.allocation.specs.Ranking.{earlier, larger};

use crate::response::Key;

/// A ranking: which of two responses is ahead, from member, stored size and arrival number alone.
pub trait Ranking {
    ghost ahead: { Self → Key → Key → Bool };

    /// Whether the response of the first key is ahead of that of the second.
    fn is_ahead(&self, x: Key, y: Key) -> bool
        ensures { result ≡ ahead self.now x y };

    // Of two different arrivals exactly one is ahead.
    ghost one_ahead: { (s : Self) (x y : Key) → (x.arrival ≢ y.arrival) → ahead s x y ≡ not (ahead s y x) };

    // Ahead carries on from first to second to third.
    ghost carries_on: { (s : Self) (x y z : Key) → ahead s x y ≡ true → ahead s y z ≡ true → ahead s x z ≡ true };
}

/// The earlier arrival is ahead.
#[derive(Clone, Copy)]
pub struct EarlierArrival;

impl Ranking for EarlierArrival {
    ghost ahead = { λ _. earlier };

    ghost one_ahead = { Prim.search rules };

    ghost carries_on = { Prim.search rules };

    fn is_ahead(&self, x: Key, y: Key) -> bool
        ensures { result ≡ earlier x y }
    {
        x.arrival < y.arrival
    }
}

/// The larger stored size is ahead, and of two of one size the earlier arrival.
#[derive(Clone, Copy)]
pub struct LargerSize;

impl Ranking for LargerSize {
    ghost ahead = { λ _. larger };

    ghost one_ahead = { Prim.search rules };

    ghost carries_on = { Prim.search rules };

    fn is_ahead(&self, x: Key, y: Key) -> bool
        ensures { result ≡ larger x y }
    {
        y.size.cmp(&x.size).then(x.arrival.cmp(&y.arrival)).is_lt()
    }
}
