// Why a setting is not taken.
ghost use Rattle.std.specs.Prelude.{◌≡◌};
ghost use Rattle.script.specs.declared.setup.refusal.SettingFailure.TheVariants.{Refused};
ghost use Rattle.script.specs.declared.setup.refusal.SettingRefusal.TheVariants as refusal;
ghost use Rattle.script.specs.SettingRefusal.{setting_refusal_number};

use interval::refusal::IntervalRefusal;
use market::refusal::SetupRefusal;

/// A setting that is refused, and leaves what was set before.
#[derive(Clone, Copy, PartialEq, Eq, Debug)]
pub enum SettingRefusal {
    /// Number 8: a fixed interval is outside 100 to 1,000 milliseconds.
    Interval(IntervalRefusal),
    /// Number 9 for a ratio outside 1 to 9, and 10 for a fifth leg.
    Legs(SetupRefusal),
}

/// A setting that is not taken: it is refused, or it comes after the first call.
#[derive(Clone, Copy, PartialEq, Eq, Debug)]
pub enum SettingFailure {
    Refused(SettingRefusal),
    AfterFirstCall,
}

impl From<SetupRefusal> for SettingFailure {
    ghost from_gives = { λ e r. r ≡ Refused (refusal.Legs e) };

    fn from(refusal: SetupRefusal) -> SettingFailure {
        SettingFailure::Refused(SettingRefusal::Legs(refusal))
    }
}

impl From<IntervalRefusal> for SettingFailure {
    ghost from_gives = { λ e r. r ≡ Refused (refusal.Interval e) };

    fn from(refusal: IntervalRefusal) -> SettingFailure {
        SettingFailure::Refused(SettingRefusal::Interval(refusal))
    }
}

impl SettingRefusal {
    /// The number by which the venue knows the refusal: 8 to 10.
    pub fn number(self) -> u8
        ensures { result ≡ setting_refusal_number self }
    {
        match self {
            SettingRefusal::Interval(refusal) => refusal.number(),
            SettingRefusal::Legs(refusal) => refusal.number(),
        }
    }
}
