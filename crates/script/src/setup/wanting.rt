// What a room is still wanting, and what a line is told that finds no room.
ghost use Rattle.std.specs.Prelude.{Some};
ghost use Rattle.script.specs.Misread.{no_room_text, wanting_text};

use std::fmt;

/// The first thing that a room is wanting, of its number, two legs, a ranking and an interval.
#[derive(Clone, Copy, PartialEq, Eq, Debug)]
pub enum Wanting {
    Number,
    Legs,
    Ranking,
    Interval,
}

/// Why there is no room for a call or a question.
#[derive(Clone, Copy, PartialEq, Eq, Debug)]
pub enum NoRoom {
    /// What the room is wanting, at the first line that needs it since the last setting that was taken.
    Needs(Wanting),
    /// At the others the number of that line.
    SeeLine(usize),
}

impl fmt::Display for Wanting {
    ghost output = { λ x. Some (wanting_text x) };

    fn fmt<W: fmt::Write>(&self, f: &mut fmt::Formatter<W>) -> fmt::Result {
        f.write_str(match self {
            Wanting::Number => "the room has no number yet",
            Wanting::Legs => "the room has no two legs yet",
            Wanting::Ranking => "the room has no ranking yet",
            Wanting::Interval => "the room has no interval yet",
        })
    }
}

impl fmt::Display for NoRoom {
    ghost output = { λ x. Some (no_room_text x) };

    fn fmt<W: fmt::Write>(&self, f: &mut fmt::Formatter<W>) -> fmt::Result {
        match self {
            NoRoom::Needs(wanting) => write!(f, "{wanting}"),
            NoRoom::SeeLine(line) => write!(f, "there is no room yet, see line {line}"),
        }
    }
}
