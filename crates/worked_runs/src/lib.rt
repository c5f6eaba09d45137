// Worked runs of a room, computed from the definitions of what a room does. These functions do nothing.
#![tactic(auto)]

ghost use Rattle.worked_runs.specs.Causes.{EveryCauseEndsAnAuction};
ghost use Rattle.worked_runs.specs.Figures.{FiguresOfRooms};
ghost use Rattle.worked_runs.specs.Refusals.{InputRefusals, OpeningRefusals, ResponseAndTickRefusals};
ghost use Rattle.worked_runs.specs.Rules.{RulesInRuns};
ghost use Rattle.worked_runs.specs.Intervals.{IntervalsInRuns};
ghost use Rattle.worked_runs.specs.Histories.{HistoriesTellTheSame};
ghost use Rattle.worked_runs.specs.Learning.{LearningInRuns};

/// For each cause a run in which an auction ends for it and is collected.
pub fn causes_hold()
    ensures { EveryCauseEndsAnAuction }
{}

/// Figures at which an auction opens or not, and goes on or ends.
pub fn figures_of_rooms_hold()
    ensures { FiguresOfRooms }
{}

/// Refusals of what is handed in, and of collecting: 1 to 6, 41 and 42.
pub fn input_refusals_hold()
    ensures { InputRefusals }
{}

/// Refusals of openings: 12 to 17.
pub fn opening_refusals_hold()
    ensures { OpeningRefusals }
{}

/// Refusals of responses, changes, withdrawals and ticks: 21 to 27, and 31 with the market's fault.
pub fn response_and_tick_refusals_hold()
    ensures { ResponseAndTickRefusals }
{}

/// Rules of a room that a run makes visible.
pub fn rules_hold()
    ensures { RulesInRuns }
{}

/// Stepping intervals, and the deadlines that follow.
pub fn intervals_hold()
    ensures { IntervalsInRuns }
{}

/// What the history of a run tells of its auction.
pub fn histories_hold()
    ensures { HistoriesTellTheSame }
{}

/// What a member is shown of two days that differ in what is hidden from it.
pub fn learning_holds()
    ensures { LearningInRuns }
{}
