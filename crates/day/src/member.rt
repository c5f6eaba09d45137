// What a member may see of a transcript.
ghost use Rattle.std.specs.Prelude.{◌≡◌, ◌++◌, OnOk, string_bytes};
ghost use Rattle.day.specs.Calls.{call_in};
ghost use Rattle.day.specs.CarriedOut.{DeskBehind, room_at, world_at};
ghost use Rattle.day.specs.Lines.{entry_value, line_value};
ghost use Rattle.day.specs.Member.{MemberNotes, member_notes_after};

use crate::desk::CubeDesk;
use crate::lines::{Entry, Line};
use crate::notes::Notes;
use script::shown::is_shown_to;
use script::transcript::answer::AnswerText;
use std::alloc::{AllocError, Global};

/// The text for a member, as far as it is written: the answers that the member may see.
#[derive(Drop)]
pub(crate) struct MemberText {
    pub(crate) member: u8,
    pub(crate) text: String,
}

impl Notes for MemberText {
    ghost Value = { MemberNotes };

    ghost value = { λ x. record { member = x.member; text = string_bytes x.text } };

    ghost after = { member_notes_after };

    fn take(&mut self, heap: Global, desk: &mut CubeDesk, line: Line) -> Result<(), AllocError> {
        let Line { number, entry } = line;
        if let Entry::Call(call) = entry {
            let is_shown = is_shown_to(&call, self.member);
            let answer = desk.call(heap, call)?;
            if is_shown {
                let answer = AnswerText(&answer);
                writeln!(self.text, "{number}: {answer}")?;
            }
        }
        Ok(())
    }
}
