// A room's own methods, called one after another from its making on: by their contracts the calls are a run.
ghost use Rattle.std.specs.Prelude.{◌≡◌, [], ◌∷◌, map};
ghost use Rattle.market.specs.Market.{told_by};
ghost use Rattle.room.specs.Refusals.{refusal_told};
ghost use Rattle.room.specs.Rooms.{world_of};
ghost use Rattle.session.specs.declared.call.Call.TheVariants.{Halt, Look};
ghost use Rattle.session.specs.Laws.{LawsOfRun};
ghost use Rattle.session.specs.Runs.{Accepted, Looked, answer_of_result, run};

use crate::answer::verdict;
use crate::made::ROOM;
use allocation::ranking::{EarlierArrival, Ranking};
use interval::fixed::FixedInterval;
use interval::source::IntervalSource;
use market::Market;
use market::touch::Touch;
use room::Room;
use room::answers::View;
use room::refusal::Refusal;
use session::laws::calls_in_turn_are_a_run;
use std::io;

/// A room, and what a halt and then a look were answered.
#[derive(Drop)]
pub struct HaltedRoom<M, R, S, F> {
    /// The room afterwards.
    pub room: Room<M, R, S>,
    /// What the halt was answered.
    pub halted: Result<(), Refusal<F>>,
    /// What the look told.
    pub view: View,
}

/// Makes a room, halts it and looks. The answers are those of a run of these two calls, and its laws hold.
pub fn halted_room<M: Market, R: Ranking, S: IntervalSource>(
    market: M,
    ranking: R,
    source: S,
    time: u64,
) -> HaltedRoom<M, R, S, M::Fault>
    ensures answers { map (λ m. m.answer) (run
        (world_of M.Market.meaning S.IntervalSource.meaning (R.Ranking.ahead ranking))
        1 (M.Market.position market) (S.IntervalSource.position source)
        (Halt time ∷ (Look ∷ [])))
        ≡ answer_of_result (λ _. Accepted) (told_by (refusal_told M.Market.told) result.halted)
        ∷ (Looked result.view ∷ []) }
    ensures laws { LawsOfRun
        (world_of M.Market.meaning S.IntervalSource.meaning (R.Ranking.ahead ranking))
        1 (M.Market.position market) (S.IntervalSource.position source)
        (Halt time ∷ (Look ∷ [])) }
{
    calls_in_turn_are_a_run::<M, S, R>();
    let mut room = Room::new(ROOM, market, ranking, source);
    let halted = room.halt(time);
    let view = room.look();
    HaltedRoom { room, halted, view }
}

/// Halts a room over a touch and looks at it.
pub fn work(rt: &HostRuntime) -> io::Result<()> {
    let Ok(source) = FixedInterval::new(100) else {
        return println!(rt; "no interval");
    };
    println!(rt; "A room that is halted and looked at by its own methods:")?;
    let made = halted_room(Touch::new(), EarlierArrival, source, 5);
    println!(rt;
        "    halted at {}{}",
        made.view.time,
        verdict(made.halted.is_ok() && made.view.halted && made.view.time == 5)
    )
}
