// What a statement is answered.
ghost use Rattle.std.specs.Prelude.{◌≡◌, Some};
ghost use Rattle.market.specs.Market.{told_by};
ghost use Rattle.market.specs.Range.{range_answer};
ghost use Rattle.script.specs.Reply.{range_reply, reply_text, reply_told, setting_reply};
ghost use Rattle.script.specs.SettingRefusal.{failure_told};

use super::answer::AnswerText;
use super::not_understood::NotUnderstood;
use super::range::RangeTold;
use crate::setup::refusal::{SettingFailure, SettingRefusal};
use market::cube::CubeFault;
use market::range::PermittedRange;
use market::refusal::RangeRefusal;
use session::answer::Answer;
use std::fmt;

/// What a statement is answered. A setting that is taken is answered as an accepted call is.
#[derive(Drop)]
pub enum Reply {
    /// The answer to a call, or to a setting that is taken.
    Answered(Answer<CubeFault>),
    /// A setting that is refused.
    SettingRefused(SettingRefusal),
    /// A range.
    Permitted(RangeTold),
    /// A question that is refused as an opening would be.
    RangeRefused(RangeRefusal),
    /// A line that is not understood.
    NotUnderstood(NotUnderstood),
}

impl Reply {
    /// What a setting is answered.
    pub fn to_setting(outcome: Result<(), SettingFailure>) -> Reply
        ensures { reply_told result ≡ setting_reply (told_by failure_told outcome) }
    {
        match outcome {
            Ok(()) => Reply::Answered(Answer::Accepted),
            Err(SettingFailure::Refused(refusal)) => Reply::SettingRefused(refusal),
            Err(SettingFailure::AfterFirstCall) => {
                Reply::NotUnderstood(NotUnderstood::AfterFirstCall)
            }
        }
    }

    /// What a question for a range is answered.
    pub fn to_range(outcome: Result<PermittedRange, RangeRefusal>) -> Reply
        ensures { reply_told result ≡ range_reply (range_answer outcome) }
    {
        match outcome {
            Ok(range) => Reply::Permitted(RangeTold::new(range)),
            Err(refusal) => Reply::RangeRefused(refusal),
        }
    }
}

impl fmt::Display for Reply {
    ghost output = { λ x. Some (reply_text (reply_told x)) };

    fn fmt<W: fmt::Write>(&self, f: &mut fmt::Formatter<W>) -> fmt::Result {
        match self {
            Reply::Answered(answer) => {
                let answer = AnswerText(answer);
                write!(f, "{answer}")
            }
            Reply::SettingRefused(refusal) => {
                let number = refusal.number();
                write!(f, "refused {number}")
            }
            Reply::Permitted(range) => write!(f, "{range}"),
            Reply::RangeRefused(refusal) => {
                let number = refusal.number();
                write!(f, "refused {number}")
            }
            Reply::NotUnderstood(why) => write!(f, "not understood: {why}"),
        }
    }
}
