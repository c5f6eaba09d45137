// The refusal of a fill list, with the number by which the venue knows it.
ghost use Rattle.std.specs.Prelude.{◌≡◌};
ghost use Rattle.allocation.specs.Refusal.{fill_number};

/// Why a fill list is refused.
#[derive(Clone, Copy, PartialEq, Eq, Debug)]
pub enum FillRefusal {
    /// The list has fewer than `LEAST_ROWS` rows.
    ListTooShort = 6,
}

impl FillRefusal {
    /// The number by which the venue knows the refusal.
    pub fn number(self) -> u8
        ensures { result ≡ fill_number self }
    {
        self as u8 // 6
    }
}
