// What a room is made of.
use crate::chosen::{ChosenInterval, ChosenRanking};
use market::legs::Legs;

/// The terms of a script's room, over the CUBE market of these legs.
#[derive(Clone, Copy)]
pub struct RoomTerms {
    /// The room's number.
    pub number: u32,
    /// The two to four legs of the strategy, without a quote.
    pub legs: Legs,
    /// Which response is ahead.
    pub ranking: ChosenRanking,
    /// The source of response intervals.
    pub source: ChosenInterval,
}
