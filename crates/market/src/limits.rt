//! The limits of prices, and of ratios and steps.
ghost use Rattle.std.specs.Prelude.{◌≡◌, true, Some, pos, int_le, unsigned_abs};
ghost use Rattle.market.specs.Limits.{within, in_limits, showable, one_to_nine};

/// A price that is sent in is at most so many cents either way.
pub const MOST_SENT: i64 = 40_000_000;

/// A price that a market shows is at most so many cents either way.
pub const MOST_SHOWN: i64 = 50_000_000;

// At most so many cents either way.
fn is_within<const MOST: i64>(price: i64) -> bool
    requires { int_le (pos 0) MOST ≡ true }
    ensures { result ≡ within (unsigned_abs MOST) (Some price) }
{
    price.unsigned_abs() <= MOST.unsigned_abs()
}

/// Whether a price may be sent in.
pub fn in_limits(price: i64) -> bool
    ensures { result ≡ in_limits (Some price) }
{
    is_within::<MOST_SENT>(price)
}

/// Whether a market may show a price.
pub fn is_showable(price: i64) -> bool
    ensures { result ≡ showable (Some price) }
{
    is_within::<MOST_SHOWN>(price)
}

// The limits of a leg's ratio, and of a step in cents.
pub(crate) fn one_to_nine(number: u8) -> bool
    ensures { result ≡ one_to_nine number }
{
    (1..=9).contains(&number)
}
