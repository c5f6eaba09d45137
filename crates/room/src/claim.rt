// The claim to an auction.
ghost use Rattle.std.specs.Prelude.{◌≡◌};
ghost use Rattle.room.specs.Rooms.{claim_numbers};

use crate::answers::ClaimNumbers;

/// The right to collect an auction. Only an accepted opening makes one. It has no `Drop` and no copy: whoever
/// is given one hands it on or collects with it.
pub struct Claim {
    pub(crate) numbers: ClaimNumbers,
}

impl Claim {
    /// The numbers of the room and of the auction.
    pub fn numbers(&self) -> ClaimNumbers
        ensures { result ≡ claim_numbers self.now }
    {
        self.numbers
    }
}
