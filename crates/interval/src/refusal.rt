//! The refusal of this layer, with the number by which the venue knows it.
ghost use Rattle.std.specs.Prelude.{◌≡◌};
ghost use Rattle.interval.specs.Refusal.{interval_refusal_number};

/// Why an interval source cannot be made as asked.
#[derive(Clone, Copy, PartialEq, Eq, Debug)]
pub enum IntervalRefusal {
    /// A fixed interval is not 100 to 1,000 milliseconds long.
    LengthOutsideLimits = 8,
}

impl IntervalRefusal {
    /// The number by which the venue knows the refusal: 8.
    pub fn number(self) -> u8
        ensures { result ≡ interval_refusal_number self }
    {
        self as u8
    }
}
