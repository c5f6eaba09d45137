// Whether a transcript tells where auctions end.

/// Behind the answer at which an auction ended a line `  ended N` tells its number, or nothing does. Its
/// cause is told when it is collected.
#[derive(Clone, Copy, PartialEq, Eq, Debug)]
pub enum Ends {
    /// Nothing is told.
    Omitted,
    /// The number is told.
    Shown,
}
