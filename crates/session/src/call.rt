// The calls on a room, as values.
ghost use Rattle.std.specs.Prelude.{◌≡◌};
ghost use Rattle.session.specs.Lists.{lists_for, lists_for_all};

use room::answers::ClaimNumbers;
use room::requests::{ChangeRequest, OpeningRequest, ResponseRequest, WithdrawRequest};

/// A call on a room. T is the market's tick. Times are in milliseconds; 4,000,000,000,000 is the latest that
/// a room takes.
#[derive(Drop)]
pub enum Call<T> {
    /// Opens an auction.
    Open(OpeningRequest),
    /// Responds to the open auction.
    Respond(ResponseRequest),
    /// Changes a sealed response that stands.
    Change(ChangeRequest),
    /// Withdraws a sealed response that stands.
    Withdraw(WithdrawRequest),
    /// Hands the market a tick.
    Tick { time: u64, tick: T },
    /// Halts the room.
    Halt { time: u64 },
    /// Resumes a room that is halted.
    Resume { time: u64 },
    /// Moves the room's time forward.
    Clock { time: u64 },
    /// Looks at what everybody may know.
    Look,
    /// Collects an auction that has ended. It hands in a claim, here by its numbers, and a list of so many
    /// rows, 129 at least.
    Collect { claim: ClaimNumbers, rows: usize },
}

impl<T> Call<T> {
    // How many lists of rows it wants: a collecting one.
    pub(crate) fn lists(&self) -> usize
        ensures { result ≡ lists_for self.now }
    {
        match self {
            Call::Collect { .. } => 1,
            _ => 0,
        }
    }
}

// How many lists of rows these calls want.
pub(crate) fn lists_for_all<T>(calls: &[Call<T>]) -> usize
    ensures { result ≡ lists_for_all calls.now }
{
    let mut lists = 0_usize;
    for call in calls {
        lists += call.lists();
    }
    lists
}
