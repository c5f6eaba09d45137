// The clock step, with which every timed call begins.
ghost use Rattle.std.specs.Prelude.{◌≡◌};
ghost use Rattle.std.specs.Option.{option_map};
ghost use Rattle.room.specs.Calls.{HasEffect};
ghost use Rattle.room.specs.Clock.{due, after_clock};
ghost use Rattle.room.specs.Rooms.{open_values};

use crate::Room;
use crate::limits::Time;
use allocation::cause::EndCause;
use allocation::ranking::Ranking;
use interval::source::IntervalSource;
use market::Market;

impl<M: Market, R: Ranking, S: IntervalSource> Room<M, R, S> {
    // The open auction's deadline is reached.
    fn is_due(&self) -> bool
        ensures { result ≡ due self.now.time (option_map open_values self.now.current) }
    {
        self.current
            .as_ref()
            .is_some_and(|open| open.deadline <= self.time)
    }

    // The room's time becomes the later of the two; then an auction whose deadline is reached ends.
    pub(crate) fn step_clock(&mut self, time: Time)
        ensures { HasEffect M.Market S.IntervalSource self.old self.new (λ s. after_clock s time.milliseconds) }
    {
        self.time = self.time.max(time.milliseconds);
        if self.is_due() {
            self.end(EndCause::Deadline);
        }
    }
}
