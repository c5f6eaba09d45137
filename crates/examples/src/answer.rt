// Answers as the examples print them, each held to what the rules give.
use market::fault::Fault;
use market::refusal::{RangeRefusal, SetupRefusal};
use std::{fmt, io};

// What an answer or a refusal is printed as.
pub trait Answer {
    fn print(&self, rt: &HostRuntime) -> io::Result<()>;
}

impl Answer for () {
    fn print(&self, rt: &HostRuntime) -> io::Result<()> {
        print!(rt; "accepted")
    }
}

fn print_refusal(rt: &HostRuntime, number: u8) -> io::Result<()> {
    print!(rt; "refusal {number}")
}

impl Answer for SetupRefusal {
    fn print(&self, rt: &HostRuntime) -> io::Result<()> {
        print_refusal(rt, self.number())
    }
}

impl Answer for RangeRefusal {
    fn print(&self, rt: &HostRuntime) -> io::Result<()> {
        print_refusal(rt, self.number())
    }
}

impl Answer for Fault {
    fn print(&self, rt: &HostRuntime) -> io::Result<()> {
        print!(rt; "cause {}, place {}", self.cause.number(), self.place)
    }
}

impl<T: Answer, E: Answer> Answer for Result<T, E> {
    fn print(&self, rt: &HostRuntime) -> io::Result<()> {
        match self {
            Ok(value) => value.print(rt),
            Err(refusal) => refusal.print(rt),
        }
    }
}

// What stands behind an answer: nothing where it is as the rules have it.
pub fn verdict<T: PartialEq>(got: &T, want: &T) -> &'static str {
    if *got == *want {
        ""
    } else {
        " NOT AS THE RULES HAVE IT"
    }
}

pub fn print_answer<T: Answer + PartialEq>(rt: &HostRuntime, got: &T, want: &T) -> io::Result<()> {
    got.print(rt)?;
    println!(rt; "{}", verdict(got, want))
}

// One side of a quote, with its name: a price in cents, or none.
// The demo has one alike: no layer holds what only programs call, and neither program rests on the other.
#[derive(Clone, Copy)]
pub struct Shown(pub &'static str, pub Option<i64>);

impl fmt::Display for Shown {
    fn fmt<W: fmt::Write>(&self, f: &mut fmt::Formatter<W>) -> fmt::Result {
        let Shown(name, price) = *self;
        match price {
            None => write!(f, "no {name}"),
            Some(cents) => write!(f, "{name} {cents}"),
        }
    }
}
