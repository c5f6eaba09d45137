// Answers as they are printed, and whether each is as the rules have it.
use crate::made::TouchAnswer;
use session::answer::Answer;
use session::closed::{Closed, ClosedAuction};
use std::{fmt, io};

/// An answer as it is printed.
#[derive(Clone, Copy)]
pub struct AnswerText<'a>(pub &'a TouchAnswer);

impl fmt::Display for AnswerText<'_> {
    fn fmt<W: fmt::Write>(&self, f: &mut fmt::Formatter<W>) -> fmt::Result {
        match self.0 {
            Answer::Opened(claim) => write!(f, "claim {} of room {}", claim.auction, claim.room),
            Answer::Stored(terms) => write!(f, "stored {} at {}", terms.size, terms.price),
            Answer::Accepted => write!(f, "accepted"),
            Answer::Looked(view) => write!(f, "time {}, {} waiting", view.time, view.waiting),
            Answer::Collected(told, _) => write!(
                f,
                "collected {} rows, cause {}",
                told.count,
                told.cause.letter()
            ),
            Answer::Refused(refusal) => write!(f, "refusal {}", refusal.number()),
            Answer::NoClaim => write!(f, "no claim"),
        }
    }
}

/// The answer is a refusal of this number.
pub fn is_refusal(answer: &TouchAnswer, number: u8) -> bool {
    matches!(answer, Answer::Refused(refusal) if refusal.number() == number)
}

/// The answer is a stored price and size.
pub fn is_stored(answer: &TouchAnswer) -> bool {
    matches!(answer, Answer::Stored(_))
}

/// What stands behind an answer: nothing where it is as the rules have it.
pub fn verdict(right: bool) -> &'static str {
    if right {
        ""
    } else {
        " NOT AS THE RULES HAVE IT"
    }
}

/// Prints an auction that was collected at the close, if there was one.
pub fn print_closed(rt: &HostRuntime, closed: &Option<ClosedAuction>) -> io::Result<()> {
    let Some(auction) = closed else {
        return Ok(());
    };
    println!(rt;
        "  at the close, auction {}: cause {}, {} rows",
        auction.claim.auction,
        auction.collection.cause.letter(),
        auction.rows().len()
    )
}

/// Prints the auctions that were collected at the close.
pub fn print_auctions<M, R, S>(rt: &HostRuntime, closed: &Closed<M, R, S>) -> io::Result<()> {
    print_closed(rt, &closed.first)?;
    print_closed(rt, &closed.second)
}
