// The laws over whole runs, as contracts. These functions do nothing.
ghost use Rattle.room.specs.Rooms.{world_of};
ghost use Rattle.room.specs.World.{World};
ghost use Rattle.session.specs.DeskInTurn.{DeskCallsKeepThePromise};
ghost use Rattle.session.specs.InTurn.{CallsInTurnAreARun};
ghost use Rattle.session.specs.Laws.{RunLaws};
ghost use Rattle.session.specs.Promises.{ModelKeepsThePromise};

use allocation::ranking::Ranking;
use interval::source::IntervalSource;
use market::Market;

/// Every law of runs holds of every run of the model of a room over any market, source and ranking, and of
/// every session what a member may learn.
pub fn run_laws_hold<M: Market, S: IntervalSource, R: Ranking>(ranking: &R)
    ensures { RunLaws (record {
      market = M.Market.meaning;
      source = S.IntervalSource.meaning;
      ahead = R.Ranking.ahead ranking.now;
    }) }
{}

/// Whoever calls a room's methods has the laws: calls that are made one after another from the room's making
/// on, each as the contract of its method says, are a run, and every law of a run holds of them.
pub fn calls_in_turn_are_a_run<M: Market, S: IntervalSource, R: Ranking>()
    ensures { CallsInTurnAreARun
        (λ ranking. world_of M.Market.meaning S.IntervalSource.meaning (R.Ranking.ahead ranking))
        M.Market.position S.IntervalSource.position M.Market.told }
{}

/// Whoever carries out calls as the model has them has the whole promise of a run.
pub fn model_keeps_the_promise<M: Market, S: IntervalSource, R: Ranking>(ranking: &R)
    ensures { ModelKeepsThePromise
        (world_of M.Market.meaning S.IntervalSource.meaning (R.Ranking.ahead ranking.now)) }
{}

/// Whoever makes calls at a desk has the whole promise of a run: of the calls from the desk's making on, or
/// behind others, and of these and the desk's closing.
pub fn desk_calls_keep_the_promise<M: Market, S: IntervalSource, R: Ranking>()
    ensures { DeskCallsKeepThePromise
        (λ ranking. world_of M.Market.meaning S.IntervalSource.meaning (R.Ranking.ahead ranking))
        M.Market.position S.IntervalSource.position M.Market.told }
{}
