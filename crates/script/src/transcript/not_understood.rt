// Why a line is not understood.
ghost use Rattle.std.specs.Prelude.{◌≡◌, Some};
ghost use Rattle.script.specs.Misread.{not_understood_text};
ghost use Rattle.script.specs.declared.transcript.not_understood.NotUnderstood.TheVariants as why;

use crate::misread::Misread;
use crate::setup::wanting::NoRoom;
use std::fmt;

/// Why no call is made and nothing changes.
#[derive(Clone, Copy, PartialEq, Eq, Debug)]
pub enum NotUnderstood {
    /// The line is no statement.
    Misread(Misread),
    /// A setting comes after the room is made.
    AfterFirstCall,
    /// A call or a question comes before it can be made.
    NoRoom(NoRoom),
}

impl From<Misread> for NotUnderstood {
    ghost from_gives = { λ e r. r ≡ why.Misread e };

    fn from(misread: Misread) -> NotUnderstood {
        NotUnderstood::Misread(misread)
    }
}

impl From<NoRoom> for NotUnderstood {
    ghost from_gives = { λ e r. r ≡ why.NoRoom e };

    fn from(no_room: NoRoom) -> NotUnderstood {
        NotUnderstood::NoRoom(no_room)
    }
}

impl fmt::Display for NotUnderstood {
    ghost output = { λ x. Some (not_understood_text x) };

    fn fmt<W: fmt::Write>(&self, f: &mut fmt::Formatter<W>) -> fmt::Result {
        match self {
            NotUnderstood::Misread(misread) => write!(f, "{misread}"),
            NotUnderstood::AfterFirstCall => f.write_str("a setting comes before the first call"),
            NotUnderstood::NoRoom(no_room) => write!(f, "{no_room}"),
        }
    }
}
