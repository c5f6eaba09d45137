// Carrying out the lines of a script, and taking notes of them.
ghost use Rattle.std.specs.Prelude.{◌≡◌, OnOk, map, vec_items};
ghost use Rattle.day.specs.Calls.{call_in, calls_in};
ghost use Rattle.day.specs.CarriedOut.{CubeRoom, CubeWorld, DeskBehind, room_at, world_at};
ghost use Rattle.day.specs.Lines.{Line, entry_value, line_value};
ghost use Rattle.day.specs.Notes.{notes_after_all};

use crate::desk::CubeDesk;
use crate::lines::Line as CodeLine;
use std::alloc::{AllocError, Global};

/// What is kept of lines while their calls are made.
pub(crate) trait Notes {
    // The notes as a value, and what they become with a line that is carried out in a room.
    ghost Value: { Type 0 };

    ghost value: { Self → Value };

    ghost after: { CubeWorld → CubeRoom → Line → Value → Value };

    /// Makes the call of a line, if it has one, and notes what is to be kept of it.
    fn take(&mut self, heap: Global, desk: &mut CubeDesk, line: CodeLine) -> Result<(), AllocError>
        ensures notes { OnOk result (value self.new
            ≡ after (world_at desk.old) (room_at desk.old) (line_value line) (value self.old)) }
        ensures desk { OnOk result (DeskBehind desk.old (call_in (entry_value line.entry)) desk.new) };
}

/// Makes the calls of all lines in their order, and takes notes of each line.
pub(crate) fn carry_out<N: Notes>(
    heap: Global,
    notes: &mut N,
    desk: &mut CubeDesk,
    lines: Vec<CodeLine>,
) -> Result<(), AllocError>
    ensures notes { OnOk result (N.Notes.value notes.new
        ≡ notes_after_all N.Notes.after (world_at desk.old) (room_at desk.old) (map line_value (vec_items lines))
        (N.Notes.value notes.old)) }
    ensures desk { OnOk result (DeskBehind desk.old (calls_in (map line_value (vec_items lines))) desk.new) }
{
    for line in lines {
        notes.take(heap, desk, line)?;
    }
    Ok(())
}
