// The auctions that wait to be collected.
ghost use Rattle.std.specs.Prelude.{◌≡◌, true};
ghost use Rattle.room.specs.Waiting.{in_order};

use crate::ended::EndedAuction;

// The oldest first, and two at most, in fixed memory. Contracts read them as a list by `waiting_values`, and not by an
// `impl Model`, so that a room that is said to be the very same is the same field by field.
#[derive(Drop)]
pub(crate) struct WaitingAuctions {
    first: Option<EndedAuction>,
    second: Option<EndedAuction>,
    ghost in_order: { in_order first second ≡ true },
}

#[tactic(auto, unfolding(crate::specs::Waiting::waiting_list))]
impl WaitingAuctions {
    ghost use Rattle.std.specs.Prelude.{◌<◌, not, [], ◌∷◌, ◌++◌, length};
    ghost use Rattle.std.specs.Option.{option_map};
    ghost use Rattle.room.specs.Rooms.{waiting_values};
    ghost use Rattle.room.specs.Openings.{any_waits};
    ghost use Rattle.room.specs.State.{waiting_auction, without_number};
    ghost use Rattle.room.specs.Waiting.{ended_values};

    pub(crate) fn new() -> WaitingAuctions
        ensures { waiting_values result ≡ [] }
    {
        WaitingAuctions {
            first: None,
            second: None,
        }
    }

    pub(crate) fn is_empty(&self) -> bool
        ensures { result ≡ not (any_waits (waiting_values self.now)) }
    {
        self.first.is_none()
    }

    pub(crate) fn len(&self) -> usize
        ensures { result ≡ length (waiting_values self.now) }
    {
        usize::from(self.first.is_some()) + usize::from(self.second.is_some())
    }

    // One more waits, behind the others.
    pub(crate) fn push(&mut self, ended: EndedAuction)
        requires { length (waiting_values self.old) < 2 }
        ensures { waiting_values self.new ≡ waiting_values self.old ++ ended_values ended ∷ [] }
    {
        if self.first.is_none() {
            self.first = Some(ended);
        } else {
            self.second = Some(ended);
        }
    }

    // The auction of this number, if it waits.
    pub(crate) fn auction(&self, number: u32) -> Option<&EndedAuction>
        ensures { option_map (λ e. ended_values e.now) result ≡ waiting_auction number (waiting_values self.now) }
    {
        let is_it = |ended: &&EndedAuction| ended.number == number;
        self.first
            .as_ref()
            .filter(is_it)
            .or(self.second.as_ref().filter(is_it))
    }

    // The auction of this number, if it waits, waits no longer.
    pub(crate) fn remove(&mut self, number: u32)
        ensures { waiting_values self.new ≡ without_number number (waiting_values self.old) }
    {
        let is_it = |ended: &EndedAuction| ended.number == number;
        if self.first.as_ref().is_some_and(is_it) {
            self.first = self.second.take();
        } else if self.second.as_ref().is_some_and(is_it) {
            self.second = None;
        }
    }
}
