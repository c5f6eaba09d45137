// How a run of the program went, as its exit status says.
ghost use Rattle.std.specs.Prelude.{◌≡◌, ◌↔◌, ◌<◌, true, false};
ghost use Rattle.cube.specs.declared.outcome.Outcome.TheVariants as went;

/// How a run went, from the best to the worst.
#[derive(Clone, Copy, PartialEq, Eq, Debug)]
pub enum Outcome {
    /// Every statement was understood.
    Understood,
    /// A statement was not understood.
    NotUnderstood,
    /// The program could not run, could not read a script or could not write.
    Unable,
}

impl Outcome {
    /// Whether all scripts were read, and how many lines were not understood, say how it went.
    pub fn of(all_read: bool, misreadings: usize) -> Outcome
        ensures unable { (result ≡ went.Unable) ↔ (all_read ≡ false) }
        ensures not_understood { (result ≡ went.NotUnderstood)
            ↔ ((all_read ≡ true) × (0 < misreadings)) }
    {
        if !all_read {
            Outcome::Unable
        } else if misreadings > 0 {
            Outcome::NotUnderstood
        } else {
            Outcome::Understood
        }
    }

    /// The exit status: 0, 1 or 2.
    pub fn status(self) -> u8
        ensures understood { (result ≡ 0) ↔ (self ≡ went.Understood) }
        ensures not_understood { (result ≡ 1) ↔ (self ≡ went.NotUnderstood) }
        ensures unable { (result ≡ 2) ↔ (self ≡ went.Unable) }
    {
        match self {
            Outcome::Understood => 0,
            Outcome::NotUnderstood => 1,
            Outcome::Unable => 2,
        }
    }
}
