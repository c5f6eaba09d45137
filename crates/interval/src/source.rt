//! An interval source: each draw answers 100 to 1,000 milliseconds.
ghost use Rattle.std.specs.Prelude.{◌≡◌};
ghost use Rattle.interval.specs.Source.{SourceMeaning, WithinLimits};

/// The shortest interval, in milliseconds.
pub const LEAST: u32 = 100;

/// The longest interval, in milliseconds.
pub const MOST: u32 = 1_000;

/// What says how long the interval of the next auction is.
pub trait IntervalSource {
    // All of the source that its answers depend on.
    ghost Position: { Type 0 };

    ghost position: { Self → Position };

    // What a draw answers at a position, and which position follows.
    ghost meaning: { SourceMeaning Position };

    /// The next interval in milliseconds, 100 to 1,000.
    fn draw(&mut self) -> u32
        ensures answer { result ≡ meaning.draws (position self.old) }
        ensures next { position self.new ≡ meaning.next (position self.old) };

    // An answer is 100 to 1,000 at every position.
    ghost in_limits: { WithinLimits meaning };
}
