// The text of a script, from the bytes of its file.
ghost use Rattle.std.specs.Prelude.{◌≡◌, ◌↔◌, Err, IfOk, OnOk, false, string_bytes, true};
ghost use Rattle.day.specs.declared.source.SourceError.TheVariants.{OutOfMemory, Utf16};
ghost use Rattle.day.specs.Source.{feeds_behind, is_utf16, past_mark, text_in};

use std::alloc::{AllocError, Global};
use std::fmt;

/// Why there is no text.
#[derive(Clone, Copy, PartialEq, Eq, Debug)]
pub enum SourceError {
    /// The bytes begin as a text in UTF-16 does.
    Utf16,
    /// There is not enough memory for the text.
    OutOfMemory,
}

impl From<AllocError> for SourceError {
    ghost from_gives = { λ e r. r ≡ OutOfMemory };

    fn from(_error: AllocError) -> SourceError {
        SourceError::OutOfMemory
    }
}

impl fmt::Display for SourceError {
    fn fmt<W: fmt::Write>(&self, f: &mut fmt::Formatter<W>) -> fmt::Result {
        f.write_str(match self {
            SourceError::Utf16 => "it is a text in UTF-16: save it as UTF-8",
            SourceError::OutOfMemory => "there is not enough memory for it",
        })
    }
}

fn is_utf16(bytes: &[u8]) -> bool
    ensures { result ≡ is_utf16 bytes.now }
{
    matches!(bytes, [0xFF, 0xFE, ..] | [0xFE, 0xFF, ..])
}

// The bytes behind the mark that may stand in front of a text in UTF-8.
fn past_mark(bytes: &[u8]) -> &[u8]
    ensures { result.now ≡ past_mark bytes.now }
{
    match bytes {
        [0xEF, 0xBB, 0xBF, rest @ ..] => rest,
        _ => bytes,
    }
}

// The bytes with a line feed at the end of each line, whether that is a line feed, a carriage return, or
// both.
fn with_line_feeds(heap: Global, bytes: &[u8]) -> Result<Vec<u8>, AllocError>
    ensures { IfOk result (λ made. made.items ≡ feeds_behind false bytes.now) }
{
    let mut made = Vec::new(heap);
    let mut returned = false;
    for &byte in bytes {
        if byte == b'\r' {
            made.push(b'\n')?;
            returned = true;
        } else {
            if !(returned && byte == b'\n') {
                made.push(byte)?;
            }
            returned = false;
        }
    }
    Ok(made)
}

/// The text of these bytes. A UTF-8 mark in front is passed over, a carriage return ends a line as a line
/// feed does and as both do, and bytes that are no text become U+FFFD.
pub fn text_of(heap: Global, bytes: &[u8]) -> Result<String, SourceError>
    ensures text { IfOk result (λ t. string_bytes t ≡ text_in bytes.now) }
    ensures no_utf16 { OnOk result (is_utf16 bytes.now ≡ false) }
    ensures utf16 { (result ≡ Err Utf16) ↔ (is_utf16 bytes.now ≡ true) }
{
    if is_utf16(bytes) {
        return Err(SourceError::Utf16);
    }
    let bytes = with_line_feeds(heap, past_mark(bytes))?;
    Ok(String::from_utf8_lossy(heap, &bytes)?)
}
