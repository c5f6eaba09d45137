// Words that are one of a few, and what each stands for.
ghost use Rattle.std.specs.Prelude.{◌≡◌, ℕ, List, Option};
ghost use Rattle.script.specs.Parts.{side_named, ranking_named, source_named, half_named, guarantee_named, kind_named, class_named};

use crate::chosen::ChosenRanking;
use allocation::order::GuaranteeKind;
use allocation::response::{Class, Kind};
use market::side::Side;

/// Which half of the market a tick is for.
#[derive(Clone, Copy)]
pub(crate) enum HalfName {
    Book,
    Leg,
}

/// Which kind of interval source is asked for.
#[derive(Clone, Copy)]
pub(crate) enum SourceName {
    Fixed,
    Drawn,
}

/// A value for which one of a few words stands.
pub(crate) trait Named: Sized {
    // The value of each of the words.
    ghost stands_for: { List ℕ → Option Self };

    fn named(word: &str) -> Option<Self>
        ensures { result ≡ stands_for word.now };
}

impl Named for Side {
    ghost stands_for = { side_named };

    fn named(word: &str) -> Option<Side>
        ensures { result ≡ side_named word.now }
    {
        match word {
            "buy" => Some(Side::Buy),
            "sell" => Some(Side::Sell),
            _ => None,
        }
    }
}

impl Named for ChosenRanking {
    ghost stands_for = { ranking_named };

    fn named(word: &str) -> Option<ChosenRanking>
        ensures { result ≡ ranking_named word.now }
    {
        match word {
            "arrival" => Some(ChosenRanking::Arrival),
            "size" => Some(ChosenRanking::Size),
            _ => None,
        }
    }
}

impl Named for SourceName {
    ghost stands_for = { source_named };

    fn named(word: &str) -> Option<SourceName>
        ensures { result ≡ source_named word.now }
    {
        match word {
            "fixed" => Some(SourceName::Fixed),
            "drawn" => Some(SourceName::Drawn),
            _ => None,
        }
    }
}

impl Named for HalfName {
    ghost stands_for = { half_named };

    fn named(word: &str) -> Option<HalfName>
        ensures { result ≡ half_named word.now }
    {
        match word {
            "leg" => Some(HalfName::Leg),
            "book" => Some(HalfName::Book),
            _ => None,
        }
    }
}

impl Named for GuaranteeKind {
    ghost stands_for = { guarantee_named };

    fn named(word: &str) -> Option<GuaranteeKind>
        ensures { result ≡ guarantee_named word.now }
    {
        match word {
            "stop" => Some(GuaranteeKind::SingleStop),
            "match" => Some(GuaranteeKind::AutoMatchLimit),
            _ => None,
        }
    }
}

impl Named for Kind {
    ghost stands_for = { kind_named };

    fn named(word: &str) -> Option<Kind>
        ensures { result ≡ kind_named word.now }
    {
        match word {
            "sealed" => Some(Kind::Sealed),
            "plain" => Some(Kind::Plain),
            _ => None,
        }
    }
}

impl Named for Class {
    ghost stands_for = { class_named };

    fn named(word: &str) -> Option<Class>
        ensures { result ≡ class_named word.now }
    {
        match word {
            "customer" => Some(Class::Customer),
            "other" => Some(Class::Other),
            _ => None,
        }
    }
}
