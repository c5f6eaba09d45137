// The words of a line. Blanks separate them, and a comment has none.
ghost use Rattle.std.specs.Prelude.{◌≡◌, List, ℕ, MatchOption, [], ◌∷◌, drop};
ghost use Rattle.std.specs.List.{prefix_len, position_or_len};
ghost use Rattle.script.specs.Words.{words_in, is_blank, is_comment, line_words};

use std::marker::Model;

/// The words that are left of a line. What was taken of it is kept for whoever asks where the reading
/// stopped.
#[derive(Drop)]
pub(crate) struct Words<'a> {
    rest: &'a str,
    line: &'a str,
    last: &'a str,
    behind_last: usize,
}

impl<'a> Model for Words<'a> {
    ghost Value = { List (List ℕ) };

    ghost view = { λ w. words_in w.rest.now };
}

fn is_blank(byte: u8) -> bool
    ensures { result ≡ is_blank byte }
{
    byte == b' ' || byte == b'\t'
}

// In UTF-8 the bytes of a character behind its first have 10 as their highest bits.
fn begins_character(byte: &u8) -> bool {
    byte & 0b1100_0000 != 0b1000_0000
}

fn is_comment(byte: u8) -> bool
    ensures { result ≡ is_comment byte }
{
    byte == b'#'
}

// How many bytes stand before the comment.
fn length_before_comment(line: &str) -> usize
    ensures { result ≡ position_or_len is_comment line.now }
{
    line.bytes().take_while(|b| !is_comment(*b)).count()
}

// How many blanks stand in front.
fn length_of_blanks(text: &str) -> usize
    ensures { result ≡ prefix_len is_blank text.now }
{
    text.bytes().take_while(|b| is_blank(*b)).count()
}

// How many bytes stand before the first blank.
fn length_of_word(text: &str) -> usize
    ensures { result ≡ position_or_len is_blank text.now }
{
    text.bytes().take_while(|b| !is_blank(*b)).count()
}

// What follows the blanks in front.
fn past_blanks(text: &str) -> &str
    ensures { result.now ≡ drop (prefix_len is_blank text.now) text.now }
{
    text.split_at(length_of_blanks(text)).1
}

impl<'a> Words<'a> {
    /// The words before the comment.
    pub(crate) fn of(line: &'a str) -> Words<'a>
        ensures { result ≡ line_words line.now }
    {
        let line = line.split_at(length_before_comment(line)).0;
        Words {
            rest: line,
            line,
            last: "",
            behind_last: line.len(),
        }
    }

    /// Takes the next word, if there is one.
    pub(crate) fn next(&mut self) -> Option<&'a str>
        ensures { MatchOption result ((self.old ≡ []) × (self.new ≡ [])) (λ w. self.old ≡ w.now ∷ self.new) }
    {
        let text = past_blanks(self.rest);
        let (word, rest) = text.split_at(length_of_word(text));
        self.rest = rest;
        if word.is_empty() {
            return None;
        }
        self.last = word;
        self.behind_last = rest.len();
        Some(word)
    }

    /// The word that was taken last; none is empty.
    pub(crate) fn last_word(&self) -> &'a str {
        self.last
    }

    /// The column, counted from 1 in characters, at which the word that was taken last begins.
    pub(crate) fn last_column(&self) -> usize {
        self.column_at(self.length_to_last().saturating_sub(self.last.len()))
    }

    /// The column behind that word.
    pub(crate) fn column_behind_last(&self) -> usize {
        self.column_at(self.length_to_last())
    }

    // How many bytes stand before the end of the word that was taken last.
    fn length_to_last(&self) -> usize {
        self.line.len().saturating_sub(self.behind_last)
    }

    // The column of a byte: a character has one byte that goes on with no other.
    fn column_at(&self, byte: usize) -> usize {
        let before = self.line.bytes().take(byte).filter(begins_character);
        before.count().saturating_add(1)
    }
}
