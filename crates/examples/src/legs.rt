// Making a strategy, and how far its prices go.
use crate::answer::{print_answer, verdict};
use market::Market;
use market::improve::Improve;
use market::leg::{LegQuote, LegTerms, LegTick};
use market::legs::Legs;
use market::quote::Quote;
use market::refusal::SetupRefusal;
use market::side::Side;
use std::io;

// Buy one of the first leg and sell two of the second.
pub fn one_against_two() -> Result<Legs, SetupRefusal> {
    Legs::new(
        LegTerms {
            side: Side::Buy,
            ratio: 1,
        },
        LegTerms {
            side: Side::Sell,
            ratio: 2,
        },
    )
}

const RATIO_OR_STEP: Result<(), SetupRefusal> = Err(SetupRefusal::RatioOrStep);

const FIFTH_LEG: Result<(), SetupRefusal> = Err(SetupRefusal::FifthLeg);

// The ratios of two legs, and the answer that comes.
const RATIOS: [(u8, u8, Result<(), SetupRefusal>); 6] = [
    (1, 9, Ok(())),
    (9, 1, Ok(())),
    (0, 1, RATIO_OR_STEP),
    (1, 0, RATIO_OR_STEP),
    (10, 1, RATIO_OR_STEP),
    (1, 10, RATIO_OR_STEP),
];

fn work_ratios(rt: &HostRuntime) -> io::Result<()> {
    let bought = |ratio| LegTerms {
        side: Side::Buy,
        ratio,
    };
    for (first, second, want) in RATIOS {
        print!(rt; "  legs of ratios {first} and {second}: ")?;
        let got = Legs::new(bought(first), bought(second)).map(|_| ());
        print_answer(rt, &got, &want)?;
    }
    Ok(())
}

// The ratios of legs added one after another to a strategy of two; a refused one is not there.
const ADDED: [(u8, Result<(), SetupRefusal>); 6] = [
    (0, RATIO_OR_STEP),
    (9, Ok(())),
    (10, RATIO_OR_STEP),
    (9, Ok(())),
    (9, FIFTH_LEG),
    (0, RATIO_OR_STEP),
];

fn work_added(rt: &HostRuntime, legs: &mut Legs, side: Side) -> io::Result<()> {
    for (ratio, want) in ADDED {
        print!(rt; "  one leg more, of ratio {ratio}: ")?;
        print_answer(rt, &legs.add(LegTerms { side, ratio }), &want)?;
    }
    Ok(())
}

// Whether four legs are quoted so; each is, up to one that is refused.
fn quote_all(legs: &mut Legs, quote: LegQuote) -> bool {
    (1..5).all(|leg| legs.tick(LegTick { leg, quote }).is_ok())
}

fn work_extremes(rt: &HostRuntime, side: Side, name: &str, want: Quote) -> io::Result<()> {
    let terms = LegTerms { side, ratio: 9 };
    let Ok(mut legs) = Legs::new(terms, terms) else {
        return println!(rt; "THE LEGS ARE REFUSED");
    };
    work_added(rt, &mut legs, side)?;
    let told = quote_all(
        &mut legs,
        LegQuote {
            bid: 999_999,
            offer: 1_000_000,
        },
    );
    let shown = legs.shown();
    let Quote {
        bid: Some(bid),
        offer: Some(offer),
    } = shown
    else {
        return println!(rt; "  FOUR QUOTED LEGS SHOW NO PRICE");
    };
    let verdict = verdict(&shown, &want);
    println!(rt;
        "  four {name} legs of ratio 9 at 999999 and 1000000 (accepted: {told}) show {bid} and {offer}{verdict}"
    )
}

const STEPS: [(u8, Result<(), SetupRefusal>); 5] = [
    (0, RATIO_OR_STEP),
    (1, Ok(())),
    (9, Ok(())),
    (10, RATIO_OR_STEP),
    (255, RATIO_OR_STEP),
];

fn work_steps(rt: &HostRuntime, legs: Legs) -> io::Result<()> {
    for (step, want) in STEPS {
        print!(rt; "  an improvement by {step}: ")?;
        let got = Improve::new(legs, step)
            .map(|_| ())
            .map_err(|(refusal, _)| refusal);
        print_answer(rt, &got, &want)?;
    }
    Ok(())
}

pub fn work(rt: &HostRuntime) -> io::Result<()> {
    println!(rt; "strategies")?;
    work_ratios(rt)?;
    work_extremes(
        rt,
        Side::Buy,
        "bought",
        Quote {
            bid: Some(35_999_964),
            offer: Some(36_000_000),
        },
    )?;
    work_extremes(
        rt,
        Side::Sell,
        "sold",
        Quote {
            bid: Some(-36_000_000),
            offer: Some(-35_999_964),
        },
    )?;
    let terms = LegTerms {
        side: Side::Buy,
        ratio: 1,
    };
    match Legs::new(terms, terms) {
        Ok(legs) => work_steps(rt, legs),
        Err(_) => println!(rt; "THE LEGS ARE REFUSED"),
    }
}
