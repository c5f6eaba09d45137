// The transcript of a script: the text of its answers.
ghost use Rattle.std.specs.Prelude.{◌≡◌, IfOk, map, string_bytes, vec_items};
ghost use Rattle.day.specs.Member.{TextFor, TranscriptFor};
ghost use Rattle.day.specs.Whole.{WholeTranscript};
ghost use Rattle.day.specs.Lines.{line_value, entry_value, is_understood, is_all_understood, script_lines};

use crate::desk::desk_of;
use crate::ends::Ends;
use crate::lines::{Entry, Line, Script};
use crate::member::MemberText;
use crate::notes::carry_out;
use crate::whole::{replies_text, whole_text};
use market::cube::CubeMarket;
use script::chosen::{ChosenInterval, ChosenRanking};
use script::setup::room_terms::RoomTerms;
use script::transcript::reply::Reply;
use session::laws::model_keeps_the_promise;
use std::alloc::{AllocError, Global};

/// What is printed, and whether every statement of the script is understood.
#[derive(Drop)]
pub struct Transcript {
    /// The text.
    pub text: String,
    /// Every statement is understood.
    pub understood: bool,
}

fn is_understood(line: &Line) -> bool
    ensures { result ≡ is_understood (entry_value line.now.entry) }
{
    !matches!(&line.entry, Entry::Replied(Reply::NotUnderstood(_)))
}

fn is_all_understood(lines: &[Line]) -> bool
    ensures { result ≡ is_all_understood (map line_value lines.now) }
{
    lines.iter().all(is_understood)
}

// Carries out the calls of the lines, and writes what the member may see.
fn text_for(
    heap: Global,
    lines: Vec<Line>,
    terms: RoomTerms,
    member: u8,
) -> Result<String, AllocError>
    ensures { IfOk result (λ text. TextFor member terms (map line_value (vec_items lines)) (string_bytes
        text)) }
{
    model_keeps_the_promise::<CubeMarket, ChosenInterval, ChosenRanking>(&terms.ranking);
    let mut desk = desk_of(heap, terms);
    let mut seen = MemberText {
        member,
        text: String::new(heap),
    };
    let written = carry_out(heap, &mut seen, &mut desk, lines);
    let _closed = desk.close();
    written?;
    Ok(seen.text)
}

/// Carries out a script. The text has what the member may see, and nothing else.
pub fn transcript_for(heap: Global, script: &str, member: u8) -> Result<Transcript, AllocError>
    ensures text { IfOk result (λ t. TranscriptFor member script.now (string_bytes t.text)) }
    ensures understood { IfOk result (λ t. t.understood ≡ is_all_understood (script_lines script.now)) }
{
    let Script { lines, room } = Script::read(heap, script)?;
    let understood = is_all_understood(&lines);
    let text = match room {
        Some(terms) => text_for(heap, lines, terms, member)?,
        None => String::new(heap),
    };
    Ok(Transcript { text, understood })
}

/// Carries out a script. The text has the answers to all its statements, and those to the collectings at
/// its end; and where auctions end, if that is asked for.
#[tactic(auto, using(crate::proofs::AtOnce::none_left_out))]
pub fn whole_transcript(heap: Global, script: &str, ends: Ends) -> Result<Transcript, AllocError>
    ensures text { IfOk result (λ t. WholeTranscript ends script.now (string_bytes t.text)) }
    ensures understood { IfOk result (λ t. t.understood ≡ is_all_understood (script_lines script.now)) }
{
    let Script { lines, room } = Script::read(heap, script)?;
    let understood = is_all_understood(&lines);
    let text = match room {
        Some(terms) => whole_text(heap, lines, terms, ends)?,
        None => replies_text(heap, &lines)?,
    };
    Ok(Transcript { text, understood })
}
