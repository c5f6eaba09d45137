// The lines of a script, and what each says.
ghost use Rattle.std.specs.Prelude.{◌≡◌, ◌++◌, IfOk, OnOk, [], map};
ghost use Rattle.std.specs.Option.{option_map};
ghost use Rattle.std.specs.Str.Lines.{lines};
ghost use Rattle.script.specs.Setup.{settings_of, no_settings, room_answer, room_in, room_values};
ghost use Rattle.day.specs.Lines.{line_value, entry_value, in_room, entry_of, settings_behind, entry_in, settings_behind_line, with_number, lines_from, settings_behind_lines, room_of};
ghost use Rattle.script.specs.Setup.{settings_after_call};

use market::cube::CubeTick;
use script::read::read_statement;
use script::setup::Setup;
use script::setup::room_terms::RoomTerms;
use script::statement::{RangeQuestion, Statement};
use script::transcript::not_understood::NotUnderstood;
use script::transcript::reply::Reply;
use session::call::Call;
use std::alloc::{AllocError, Global};

/// What a line says. What needs no room is answered at once: a setting, and what is not understood.
#[derive(Drop)]
pub enum Entry {
    /// A line that is answered at once.
    Replied(Reply),
    /// A call on the room.
    Call(Call<CubeTick>),
    /// A question for the range that the market permits.
    Range(RangeQuestion),
}

/// A line that is not passed over, with its number, counted from 1.
#[derive(Drop)]
pub struct Line {
    /// The line's number, counted from 1; every line counts.
    pub number: usize,
    /// What the line says.
    pub entry: Entry,
}

/// The lines in their order, and what the room is made of, if there is one.
#[derive(Drop)]
pub struct Script {
    /// The lines that are not passed over.
    pub lines: Vec<Line>,
    /// What the room is made of, if nothing is wanting.
    pub room: Option<RoomTerms>,
}

// A call or a question on the line of this number, if there is a room for it.
fn in_room(setup: &mut Setup, number: usize, entry: Entry) -> Entry
    ensures entry { entry_value result ≡ in_room (room_answer (settings_of setup.old)) (entry_value entry) }
    ensures settings { settings_of setup.new ≡ settings_after_call (settings_of setup.old) number }
{
    match setup.find_room(number) {
        Ok(()) => entry,
        Err(no_room) => Entry::Replied(Reply::NotUnderstood(NotUnderstood::from(no_room))),
    }
}

fn entry_of(setup: &mut Setup, number: usize, statement: Statement) -> Entry
    ensures entry { entry_value result ≡ entry_of (settings_of setup.old) statement }
    ensures settings { settings_of setup.new ≡ settings_behind (settings_of setup.old) number statement }
{
    match statement {
        Statement::Setting(setting) => Entry::Replied(Reply::to_setting(setup.set(setting))),
        Statement::Call(call) => in_room(setup, number, Entry::Call(call)),
        Statement::Range(question) => in_room(setup, number, Entry::Range(question)),
    }
}

// What a line says; nothing if it is passed over.
fn entry_in(setup: &mut Setup, number: usize, line: &str) -> Option<Entry>
    ensures entry { option_map entry_value result ≡ entry_in (settings_of setup.old) line.now }
    ensures settings { settings_of setup.new ≡ settings_behind_line (settings_of setup.old) number line.now }
{
    match read_statement(setup.room_number(), line) {
        Ok(statement) => Some(entry_of(setup, number, statement?)),
        Err(misread) => Some(Entry::Replied(Reply::NotUnderstood(NotUnderstood::from(misread)))),
    }
}

// Reads a line of this number.
fn read_line(
    lines: &mut Vec<Line>,
    setup: &mut Setup,
    number: usize,
    line: &str,
) -> Result<(), AllocError>
    ensures lines { OnOk result (map line_value lines.new.items ≡ map line_value lines.old.items
        ++ with_number number (entry_in (settings_of setup.old) line.now)) }
    ensures settings { OnOk result (settings_of setup.new
        ≡ settings_behind_line (settings_of setup.old) number line.now) }
{
    if let Some(entry) = entry_in(setup, number, line) {
        lines.push(Line { number, entry })?;
    }
    Ok(())
}

impl Script {
    /// Reads a script, line by line.
    pub fn read(heap: Global, text: &str) -> Result<Script, AllocError>
        ensures lines { IfOk result (λ s. map line_value s.lines.items
            ≡ lines_from no_settings 1 (lines text.now)) }
        ensures room { IfOk result (λ s. option_map room_values s.room
            ≡ room_of (room_in (settings_behind_lines no_settings 1 (lines text.now)))) }
    {
        let all: Vec<&str> = text.lines().collect(heap)?;
        let mut lines = Vec::new(heap);
        let mut setup = Setup::new();
        for (before, line) in all.iter().enumerate() {
            read_line(&mut lines, &mut setup, before + 1, line)?;
        }
        Ok(Script {
            lines,
            room: setup.terms().ok(),
        })
    }
}
