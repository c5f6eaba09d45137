// The limits of sizes, members and own numbers.
ghost use Rattle.std.specs.Prelude.{◌≡◌};
ghost use Rattle.allocation.specs.AuctionInvariant.{from_to};

/// Whether an order or a response may have this size: 1 to 100,000 contracts.
pub fn is_size(size: u32) -> bool
    ensures { result ≡ from_to 1 100000 size }
{
    (1..=100_000).contains(&size)
}

/// Whether this is the number of a member: 1 to 16.
pub fn is_member(member: u8) -> bool
    ensures { result ≡ from_to 1 16 member }
{
    (1..=16).contains(&member)
}

/// Whether a member may give one of its responses this number: 1 to 4.
pub fn is_own_number(own_number: u8) -> bool
    ensures { result ≡ from_to 1 4 own_number }
{
    (1..=4).contains(&own_number)
}
