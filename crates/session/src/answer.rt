// The answers to calls, as values.
use allocation::fill::FillRow;
use room::answers::{ClaimNumbers, Collection, StoredTerms, View};
use room::refusal::Refusal;

/// The answer to a call. F is the market's fault.
#[derive(Drop)]
pub enum Answer<F> {
    /// An opening is accepted: the numbers of the claim to its auction.
    Opened(ClaimNumbers),
    /// A response, a change or a withdrawal is accepted: the price in cents and the size in contracts that
    /// were stored.
    Stored(StoredTerms),
    /// A tick, a halt, a resume or a clock call is accepted.
    Accepted,
    /// What a look shows.
    Looked(View),
    /// A collecting is accepted: the row count, why the auction ended, and the rows.
    Collected(Collection, Vec<FillRow>),
    /// The call is refused.
    Refused(Refusal<F>),
    /// A collecting was not made, since no claim of its numbers was there.
    NoClaim,
}
