//! The CUBE market: the better of the complex book, improved by a cent, and the legs, improved by their
//! smallest ratio.
ghost use Rattle.std.specs.Prelude.{◌≡◌, List};
ghost use Rattle.market.specs.Cube.{CubeTicks, cube_position, cube_start, cube_meaning, cube_quote};
ghost use Rattle.market.specs.CubeHistory.{position_after, last_book, last_legs};
ghost use Rattle.market.specs.Legs.{legs_of};

use crate::better_of::{BetterOf, Half};
use crate::fault::Fault;
use crate::improve::Improve;
use crate::leg::LegTick;
use crate::legs::Legs;
use crate::quote::Quote;
use crate::touch::Touch;

/// The book is the left half, the legs are the right one.
pub type CubeMarket = BetterOf<Improve<Touch>, Improve<Legs>>;

/// A quote of the book, or one of a leg.
pub type CubeTick = Half<Quote, LegTick>;

/// What was wrong with a quote of the book, or with one of a leg.
pub type CubeFault = Half<Fault, Fault>;

// The two halves, each improved by its step.
fn pile(legs: Legs) -> CubeMarket
    ensures { cube_position result ≡ cube_start (legs_of legs) }
{
    let step = legs.smallest_ratio();
    BetterOf {
        left: Improve {
            inner: Touch::new(),
            step: 1,
        },
        right: Improve { inner: legs, step },
    }
}

/// The CUBE market of these legs, before the book's first quote.
pub fn cube_market(legs: Legs) -> CubeMarket
    ensures made { cube_position result ≡ cube_start (legs_of legs) }
    ensures last_quotes { (ticks : CubeTicks)
        → cube_meaning.shows (position_after cube_meaning (cube_position result) ticks)
        ≡ cube_quote (last_book ticks) (last_legs (legs_of legs) ticks) }
{
    pile(legs)
}
