// The statements that make the room. Each is read from behind its first word.
ghost use Rattle.std.specs.Prelude.{◌≡◌};
ghost use Rattle.script.specs.Readers.{with_rest};
ghost use Rattle.script.specs.Grammar.{room, leg, ranking, interval, interval_of};

use super::named::SourceName;
use crate::chosen::ChosenRanking;
use crate::misread::{Expected, Misread};
use crate::statement::{IntervalTerms, Setting, Statement};
use crate::words::Words;
use market::leg::LegTerms;
use market::side::Side;

impl<'a> Words<'a> {
    /// `room NUMBER`
    #[tactic(auto, unfolding(crate::specs::Grammar::room))]
    pub(crate) fn room(&mut self) -> Result<Statement, Misread>
        ensures { with_rest result self.new ≡ room self.old }
    {
        let number = self.exact_u32(Expected::RoomNumber)?;
        Ok(Statement::Setting(Setting::Room { number }))
    }

    /// `leg buy|sell RATIO`
    #[tactic(auto, unfolding(crate::specs::Grammar::leg))]
    pub(crate) fn leg(&mut self) -> Result<Statement, Misread>
        ensures { with_rest result self.new ≡ leg self.old }
    {
        let side: Side = self.one_of(Expected::Side)?;
        let ratio = self.u8(Expected::Ratio)?;
        Ok(Statement::Setting(Setting::Leg(LegTerms { side, ratio })))
    }

    /// `ranking arrival|size`
    #[tactic(auto, unfolding(crate::specs::Grammar::ranking))]
    pub(crate) fn ranking(&mut self) -> Result<Statement, Misread>
        ensures { with_rest result self.new ≡ ranking self.old }
    {
        let ranking: ChosenRanking = self.one_of(Expected::Ranking)?;
        Ok(Statement::Setting(Setting::Ranking(ranking)))
    }

    fn interval_of(&mut self, name: SourceName) -> Result<IntervalTerms, Misread>
        ensures { with_rest result self.new ≡ interval_of name self.old }
    {
        match name {
            SourceName::Fixed => {
                let milliseconds = self.u32(Expected::Milliseconds)?;
                Ok(IntervalTerms::Fixed { milliseconds })
            }
            SourceName::Drawn => {
                let seed = self.exact_u32(Expected::Seed)?;
                Ok(IntervalTerms::Drawn { seed })
            }
        }
    }

    /// `interval fixed MILLISECONDS`, `interval drawn SEED`
    #[tactic(auto, unfolding(crate::specs::Grammar::interval))]
    pub(crate) fn interval(&mut self) -> Result<Statement, Misread>
        ensures { with_rest result self.new ≡ interval self.old }
    {
        let name: SourceName = self.one_of(Expected::Interval)?;
        let terms = self.interval_of(name)?;
        Ok(Statement::Setting(Setting::Interval(terms)))
    }
}
