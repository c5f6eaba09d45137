// The text of a look.
ghost use Rattle.std.specs.Prelude.{Some};
ghost use Rattle.script.specs.Answer.{auction_text, view_text};

use room::answers::{AuctionView, View};
use std::fmt;

// The open auction, if there is one.
#[derive(Clone, Copy)]
struct AuctionText(Option<AuctionView>);

impl fmt::Display for AuctionText {
    ghost output = { λ x. Some (auction_text x.0) };

    fn fmt<W: fmt::Write>(&self, f: &mut fmt::Formatter<W>) -> fmt::Result {
        match self.0 {
            None => f.write_str("no auction"),
            Some(
                AuctionView {
                    number,
                    side,
                    size,
                    initiating,
                },
            ) => write!(f, "auction {number} {side} {size} @ {initiating}"),
        }
    }
}

/// What a look tells.
#[derive(Clone, Copy)]
pub struct ViewText(pub View);

impl fmt::Display for ViewText {
    ghost output = { λ x. Some (view_text x.0) };

    fn fmt<W: fmt::Write>(&self, f: &mut fmt::Formatter<W>) -> fmt::Result {
        let View {
            time,
            halted,
            waiting,
            auction,
        } = self.0;
        let state = if halted { "halted" } else { "running" };
        let auction = AuctionText(auction);
        write!(f, "time {time} {state} waiting {waiting} {auction}")
    }
}
