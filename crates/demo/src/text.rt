// Prices as the narration prints them.
use std::fmt;

/// A price in cents. It is printed as cents, then as dollars and cents: `-292 (-$2.92)`.
#[derive(Clone, Copy)]
pub struct Price(pub i64);

impl fmt::Display for Price {
    fn fmt<W: fmt::Write>(&self, f: &mut fmt::Formatter<W>) -> fmt::Result {
        let cents = self.0;
        let sign = if cents < 0 { "-" } else { "" };
        let dollars = cents.unsigned_abs() / 100;
        let rest = cents.unsigned_abs() % 100;
        write!(f, "{cents} ({sign}${dollars}.{rest:02})")
    }
}

/// One side of what a market shows, with its name: a price in cents, or none.
// The examples have one alike: no layer has what only programs call, and neither program rests on the other.
#[derive(Clone, Copy)]
pub struct Shown(pub &'static str, pub Option<i64>);

impl fmt::Display for Shown {
    fn fmt<W: fmt::Write>(&self, f: &mut fmt::Formatter<W>) -> fmt::Result {
        let Shown(name, price) = *self;
        match price.map(Price) {
            None => write!(f, "no {name}"),
            Some(price) => write!(f, "{name} {price}"),
        }
    }
}
