// What may be wrong with a word that is not understood, for whoever has to mend the line.
use crate::misread::Expected;
use std::fmt;

/// A usual slip of the pen.
#[derive(Clone, Copy, PartialEq, Eq, Debug)]
pub enum Hint {
    /// A byte 0, as a text in UTF-16 has.
    Zero,
    /// A byte that is no UTF-8, as a text in another encoding has.
    NoUtf8,
    /// A blank that is neither a space nor a tab, as a no-break space.
    OtherBlank,
    /// A character that is not seen, as one that turns the order of what follows.
    Unseen,
    /// `@` stands without a blank beside it.
    BlanksAtAt,
    /// A word in capitals.
    Capitals,
    /// A `+` before a number.
    Plus,
    /// A sign that looks like a minus, before a price.
    OtherMinus,
    /// A time of day.
    ClockTime,
    /// A decimal point in a time.
    PointInTime,
    /// A decimal point in a price.
    PointInPrice,
    /// A decimal point in another number.
    PointInCount,
    /// A comma in a number.
    Comma,
}

// What kind of word is expected.
#[derive(Clone, Copy, PartialEq, Eq)]
enum Kind {
    Time,
    Price,
    Count,
    Word,
}

const STATEMENTS: [&str; 15] = [
    "room", "leg", "ranking", "interval", "tick", "open", "respond", "change", "withdraw", "halt",
    "resume", "clock", "look", "collect", "range",
];

fn kind_of(expected: Expected) -> Kind {
    match expected {
        Expected::Time | Expected::Milliseconds => Kind::Time,
        Expected::Bid
        | Expected::Offer
        | Expected::BookBid
        | Expected::BookOffer
        | Expected::Limit
        | Expected::Price => Kind::Price,
        Expected::RoomNumber
        | Expected::Ratio
        | Expected::Seed
        | Expected::Leg
        | Expected::Member
        | Expected::OwnNumber
        | Expected::Size
        | Expected::Auction
        | Expected::Rows => Kind::Count,
        Expected::Statement
        | Expected::Side
        | Expected::Ranking
        | Expected::Interval
        | Expected::Half
        | Expected::Kind
        | Expected::Class
        | Expected::At
        | Expected::Guarantee => Kind::Word,
    }
}

// A blank that separates no words: of the blanks only spaces and tabs do.
fn is_other_blank(c: char) -> bool {
    c.is_whitespace() || c == '\u{FEFF}' || c == '\u{200B}'
}

// A character of format: it has no shape of its own.
fn is_format(c: char) -> bool {
    matches!(
        c as u32,
        0xAD
            | 0x600..=0x605
            | 0x61C
            | 0x6DD
            | 0x70F
            | 0x890..=0x891
            | 0x8E2
            | 0x180E
            | 0x200B..=0x200F
            | 0x202A..=0x202E
            | 0x2060..=0x206F
            | 0xFEFF
            | 0xFFF9..=0xFFFB
            | 0x110BD
            | 0x110CD
            | 0x13430..=0x1343F
            | 0x1BCA0..=0x1BCA3
            | 0x1D173..=0x1D17A
            | 0xE0001
            | 0xE0020..=0xE007F
    )
}

/// Whether a character of a word would not be seen: a blank that is none, or a character of format.
pub fn is_unseen(c: char) -> bool {
    is_other_blank(c) || is_format(c)
}

// A sign that looks like a minus: a minus sign, a dash or a hyphen of print.
fn is_other_minus(c: char) -> bool {
    matches!(c as u32, 0x2212 | 0x2010..=0x2014)
}

// One of these words, but for capitals.
fn is_capital_of(words: &[&str], word: &str) -> bool {
    words.iter().any(|w| w.eq_ignore_ascii_case(word))
}

// A word that may stand there, but for capitals.
fn is_in_capitals(word: &str, expected: Expected) -> bool {
    match expected {
        Expected::Statement => is_capital_of(&STATEMENTS, word),
        Expected::Side => is_capital_of(&["buy", "sell"], word),
        Expected::Ranking => is_capital_of(&["arrival", "size"], word),
        Expected::Interval => is_capital_of(&["fixed", "drawn"], word),
        Expected::Half => is_capital_of(&["leg", "book"], word),
        Expected::BookBid | Expected::BookOffer => is_capital_of(&["none"], word),
        Expected::Kind => is_capital_of(&["sealed", "plain"], word),
        Expected::Class => is_capital_of(&["customer", "other"], word),
        Expected::Guarantee => is_capital_of(&["stop", "match"], word),
        _ => false,
    }
}

fn has_digit(word: &str) -> bool {
    word.bytes().any(|b| b.is_ascii_digit())
}

// Behind a comma that parts thousands stand three digits, up to the next one or the end.
fn has_thousands(word: &str) -> bool {
    word.split(',').skip(1).all(|part| part.len() == 3)
}

impl Hint {
    /// The first of these slips that a word shows where this is expected, if it shows one. Nothing is
    /// expected where the line is whole without it.
    pub fn of(word: &str, expected: Option<Expected>) -> Option<Hint> {
        match Hint::of_characters(word) {
            Some(hint) => Some(hint),
            None => Hint::of_word(word, expected?),
        }
    }

    // What is wrong wherever the word stands.
    fn of_characters(word: &str) -> Option<Hint> {
        if word.contains('\0') {
            return Some(Hint::Zero);
        }
        if word.contains('\u{FFFD}') {
            return Some(Hint::NoUtf8);
        }
        if word.chars().any(is_other_blank) {
            return Some(Hint::OtherBlank);
        }
        if word.chars().any(is_format) {
            return Some(Hint::Unseen);
        }
        if word.contains('@') && word != "@" {
            return Some(Hint::BlanksAtAt);
        }
        None
    }

    // What is wrong where this is expected.
    fn of_word(word: &str, expected: Expected) -> Option<Hint> {
        if is_in_capitals(word, expected) {
            return Some(Hint::Capitals);
        }
        let kind = kind_of(expected);
        if kind == Kind::Word || !has_digit(word) {
            return None;
        }
        Hint::of_number(word, kind)
    }

    // Of a word with digits in it.
    fn of_number(word: &str, kind: Kind) -> Option<Hint> {
        if word.starts_with('+') {
            return Some(Hint::Plus);
        }
        if kind == Kind::Price && word.chars().any(is_other_minus) {
            return Some(Hint::OtherMinus);
        }
        if kind == Kind::Time && word.contains(':') {
            return Some(Hint::ClockTime);
        }
        if word.contains('.') || !has_thousands(word) {
            return Hint::of_point(kind);
        }
        if word.contains(',') {
            return Some(Hint::Comma);
        }
        None
    }

    // A decimal point.
    fn of_point(kind: Kind) -> Option<Hint> {
        match kind {
            Kind::Time => Some(Hint::PointInTime),
            Kind::Price => Some(Hint::PointInPrice),
            Kind::Count => Some(Hint::PointInCount),
            Kind::Word => None,
        }
    }
}

impl fmt::Display for Hint {
    fn fmt<W: fmt::Write>(&self, f: &mut fmt::Formatter<W>) -> fmt::Result {
        f.write_str(match self {
            Hint::Zero => "it has a byte 0, as a text in UTF-16 has: save the file as UTF-8",
            Hint::NoUtf8 => "a byte in it is no UTF-8: save the file as UTF-8",
            Hint::OtherBlank =>
                "a character in it looks like a blank and is none, as a no-break space (U+00A0): put a space",
            Hint::Unseen => "a character in it is not seen: leave it out",
            Hint::BlanksAtAt => "put a blank before and behind `@`",
            Hint::Capitals => "words are written in small letters",
            Hint::Plus => "leave out the `+`",
            Hint::OtherMinus => "its sign looks like a minus and is none: put `-`",
            Hint::ClockTime =>
                "a time is a whole number of milliseconds: 9:30:00 is 34200000, if they count from midnight",
            Hint::PointInTime => "times are whole milliseconds: 34200.5 seconds are 34200500",
            Hint::PointInPrice => "prices are whole cents: 3.10 is 310",
            Hint::PointInCount => "it is a whole number: leave out the point and what is behind it",
            Hint::Comma => "a number is written in digits alone: 1,000 is 1000",
        })
    }
}
