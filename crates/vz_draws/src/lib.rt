//! Pseudo-random numbers, the same in each run, for programs that play random histories.
#![tactic(auto)]

ghost use Rattle.std.specs.Prelude.{◌<◌};

/// A generator of numbers, by a linear congruence.
#[derive(Drop)]
pub struct Draws {
    state: u32,
}

impl Draws {
    /// Makes a generator that begins with this number.
    pub fn new(state: u32) -> Draws {
        Draws { state }
    }

    /// Returns a number below `end`, or 0 if `end` is 0.
    pub fn below(&mut self, end: u32) -> u32
        ensures { 0 < end → result < end }
    {
        self.state = self
            .state
            .wrapping_mul(1_664_525)
            .wrapping_add(1_013_904_223);
        let drawn = self.state >> 8;
        if end == 0 { 0 } else { drawn % end }
    }

    /// Returns a byte.
    pub fn byte(&mut self) -> u8 {
        let _next = self.below(1);
        self.state.to_be_bytes()[0]
    }
}
