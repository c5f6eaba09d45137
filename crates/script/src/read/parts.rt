// The parts of statements: numbers, prices, and words that are one of a few.
ghost use Rattle.std.specs.Prelude.{◌≡◌, ◌≤◌, IfOk};
ghost use Rattle.script.specs.Readers.{read_as, with_rest, a_word, unsigned_number, number_up_to, a_number, exact_number, optional_number, a_price, one_of};
ghost use Rattle.script.specs.Parts.{at_named, book_price_named};
ghost use Rattle.script.specs.declared.misread.Expected.TheVariants as expected;

use super::named::Named;
use crate::misread::{Expected, Misread};
use crate::number::{number_in, price_in};
use crate::words::Words;

// A price of the book, which may be none.
fn book_price_named(word: &str) -> Option<Option<i64>>
    ensures { result ≡ book_price_named word.now }
{
    match word {
        "none" => Some(None),
        price => price_in(price).map(Some),
    }
}

// A number with no minus. One above the most is taken as the most.
fn unsigned_number(word: &str, most: u64, what: Expected) -> Result<u64, Misread>
    ensures value { result ≡ unsigned_number most what word.now }
    ensures bound { IfOk result (λ n. n ≤ most) }
{
    if word.starts_with('-') {
        return Err(Misread::Negative(what));
    }
    number_in(word.as_bytes(), most).ok_or(Misread::Unknown(what))
}

impl<'a> Words<'a> {
    // The next word, which is to be there.
    fn word(&mut self, what: Expected) -> Result<&'a str, Misread>
        ensures { read_as (λ w. w.now) result self.new ≡ a_word what self.old }
    {
        self.next().ok_or(Misread::Missing(what))
    }

    fn number_up_to(&mut self, most: u64, what: Expected) -> Result<u64, Misread>
        ensures value { with_rest result self.new ≡ number_up_to most what self.old }
        ensures bound { IfOk result (λ n. n ≤ most) }
    {
        unsigned_number(self.word(what)?, most, what)
    }

    /// A number; one above 64 bits is taken as the most that they hold.
    pub(crate) fn u64(&mut self, what: Expected) -> Result<u64, Misread>
        ensures { with_rest result self.new ≡ a_number 64 what self.old }
    {
        self.number_up_to(u64::MAX, what)
    }

    /// The same in 32 bits.
    pub(crate) fn u32(&mut self, what: Expected) -> Result<u32, Misread>
        ensures { with_rest result self.new ≡ a_number 32 what self.old }
    {
        Ok(self.number_up_to(u64::from(u32::MAX), what)? as u32)
    }

    /// A number that has to be what is written: there is no refusal for one that 32 bits do not hold.
    pub(crate) fn exact_u32(&mut self, what: Expected) -> Result<u32, Misread>
        ensures { with_rest result self.new ≡ exact_number what self.old }
    {
        let number = self.u64(what)?;
        if number > u64::from(u32::MAX) {
            return Err(Misread::TooLarge(what));
        }
        Ok(number as u32)
    }

    /// The same in 8 bits.
    pub(crate) fn u8(&mut self, what: Expected) -> Result<u8, Misread>
        ensures { with_rest result self.new ≡ a_number 8 what self.old }
    {
        Ok(self.number_up_to(u64::from(u8::MAX), what)? as u8)
    }

    /// A number, or what is taken in its place where no word is left.
    pub(crate) fn optional_u64(&mut self, what: Expected, otherwise: u64) -> Result<u64, Misread>
        ensures { with_rest result self.new ≡ optional_number 64 what otherwise self.old }
    {
        match self.next() {
            None => Ok(otherwise),
            Some(word) => unsigned_number(word, u64::MAX, what),
        }
    }

    /// One of a few words, by what it stands for.
    pub(crate) fn one_of<T: Named>(&mut self, what: Expected) -> Result<T, Misread>
        ensures { with_rest result self.new ≡ one_of T.stands_for what self.old }
    {
        T::named(self.word(what)?).ok_or(Misread::Unknown(what))
    }

    /// A price in whole cents, with or without a minus.
    pub(crate) fn price(&mut self, what: Expected) -> Result<i64, Misread>
        ensures { with_rest result self.new ≡ a_price what self.old }
    {
        price_in(self.word(what)?).ok_or(Misread::Unknown(what))
    }

    /// A price of the book, which may be none.
    pub(crate) fn book_price(&mut self, what: Expected) -> Result<Option<i64>, Misread>
        ensures { with_rest result self.new ≡ one_of book_price_named what self.old }
    {
        book_price_named(self.word(what)?).ok_or(Misread::Unknown(what))
    }

    /// The sign between a size and a price.
    pub(crate) fn at(&mut self) -> Result<(), Misread>
        ensures { with_rest result self.new ≡ one_of at_named expected.At self.old }
    {
        match self.word(Expected::At)? {
            "@" => Ok(()),
            _ => Err(Misread::Unknown(Expected::At)),
        }
    }
}
