// Rooms in code, at bounds that no script reaches, with claims of other rooms, over whole runs, and taken
// apart; each answer is held to what the rules give.
#![tactic(auto)]

mod answer;
mod apart;
mod claims;
mod collected;
mod counting;
mod made;
mod openings;
mod runs;
mod turns;
mod used;

use std::io;

fn main(rt: HostRuntime) -> io::Result<()> {
    openings::work(&rt)?;
    used::work(&rt)?;
    claims::work(&rt)?;
    runs::work(&rt)?;
    apart::work(&rt)?;
    turns::work(&rt)?;
    collected::work(&rt)
}
