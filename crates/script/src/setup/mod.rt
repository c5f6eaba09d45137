// Setting up: what a script sets before its first call, and the room that is made of it then.
ghost use Rattle.std.specs.Prelude.{◌≡◌};
ghost use Rattle.market.specs.Market.{told_by};
ghost use Rattle.script.specs.SettingRefusal.{failure_told};
ghost use Rattle.script.specs.Setup.{settings_of, no_settings, room_result, setting_answer, settings_after, room_answer, room_in, room_number, settings_after_call};

mod legs;
pub mod refusal;
pub mod room_terms;
pub mod wanting;

use crate::chosen::{ChosenInterval, ChosenRanking};
use crate::statement::Setting;
use legs::LegsSoFar;
use refusal::SettingFailure;
use room_terms::RoomTerms;
use wanting::{NoRoom, Wanting};

/// What is set so far, and whether the room is made of it.
#[derive(Clone, Copy)]
pub struct Setup {
    number: Option<u32>,
    legs: LegsSoFar,
    ranking: Option<ChosenRanking>,
    interval: Option<ChosenInterval>,
    made: bool,
    // The first line, since the last setting that was taken, that found no room.
    without_room: Option<usize>,
}

impl Setup {
    /// Nothing is set yet.
    pub fn new() -> Setup
        ensures { settings_of result ≡ no_settings }
    {
        Setup {
            number: None,
            legs: LegsSoFar::Nothing,
            ranking: None,
            interval: None,
            made: false,
            without_room: None,
        }
    }

    /// Takes a setting. A refused one, and one that comes when the room is made, leaves what was set.
    pub fn set(&mut self, setting: Setting) -> Result<(), SettingFailure>
        ensures answer { told_by failure_told result ≡ setting_answer (settings_of self.old) setting }
        ensures after { settings_of self.new ≡ settings_after (settings_of self.old) setting }
    {
        if self.made {
            return Err(SettingFailure::AfterFirstCall);
        }
        match setting {
            Setting::Room { number } => self.number = Some(number),
            Setting::Leg(leg) => self.legs = self.legs.with(leg)?,
            Setting::Ranking(ranking) => self.ranking = Some(ranking),
            Setting::Interval(terms) => self.interval = Some(ChosenInterval::new(terms)?),
        }
        self.without_room = None;
        Ok(())
    }

    /// The number of the script's room: 0 where none is set yet, for then no call is made.
    pub fn room_number(&self) -> u32
        ensures { result ≡ room_number (settings_of self.now) }
    {
        self.number.unwrap_or(0)
    }

    /// What the room is made of, or the first thing that it is wanting.
    pub fn terms(&self) -> Result<RoomTerms, Wanting>
        ensures { room_result result ≡ room_in (settings_of self.now) }
    {
        let number = self.number.ok_or(Wanting::Number)?;
        let legs = self.legs.strategy().ok_or(Wanting::Legs)?;
        let ranking = self.ranking.ok_or(Wanting::Ranking)?;
        let source = self.interval.ok_or(Wanting::Interval)?;
        Ok(RoomTerms {
            number,
            legs,
            ranking,
            source,
        })
    }

    /// Sees to a room for a call or a question on the line of this number: at the first for which nothing
    /// is wanting the room is made.
    pub fn find_room(&mut self, line: usize) -> Result<(), NoRoom>
        ensures answer { result ≡ room_answer (settings_of self.old) }
        ensures after { settings_of self.new ≡ settings_after_call (settings_of self.old) line }
    {
        match (self.terms(), self.without_room) {
            (Ok(_), _) => {
                self.made = true;
                Ok(())
            }
            (Err(_), Some(first)) => Err(NoRoom::SeeLine(first)),
            (Err(wanting), None) => {
                self.without_room = Some(line);
                Err(NoRoom::Needs(wanting))
            }
        }
    }
}
