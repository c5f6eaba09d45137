// Why an auction ended, each with the letter by which the venue knows it.
ghost use Rattle.std.specs.Prelude.{◌≡◌};
ghost use Rattle.allocation.specs.Cause.{cause_letter};

/// Why an auction ended.
#[derive(Clone, Copy, PartialEq, Eq, Debug)]
pub enum EndCause {
    /// Another opening was accepted.
    NextAuction = b'A' as isize,
    /// The floor rose above the initiating price.
    FloorAboveInitiating = b'B' as isize,
    /// The floor rose above a response that stood.
    FloorAboveResponse = b'C' as isize,
    /// The floor rose above a single stop.
    FloorAboveStop = b'D' as isize,
    /// A plain response was priced below the floor.
    PlainBelowFloor = b'E' as isize,
    /// The contra price fell below the guarantee's.
    ContraBelowGuarantee = b'F' as isize,
    /// The room was halted.
    Halt = b'H' as isize,
    /// The deadline was reached.
    Deadline = b'T' as isize,
}

impl EndCause {
    /// The letter by which the venue knows the cause.
    pub fn letter(self) -> char
        ensures { result ≡ cause_letter self }
    {
        char::from(self as u8)
    }
}
