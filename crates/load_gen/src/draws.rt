// Numbers below bounds, drawn one after another.
ghost use Rattle.std.specs.Prelude.{◌≡◌, ◌<◌, ◌%◌, pos};
ghost use Rattle.load_gen.specs.Draws.{first_state, next_state, signed_of, state_after};

use std::marker::Model;

/// A generator of numbers that look random. Each draw moves its state one step.
///
/// It is that of Lehmer with the prime modulus 2^31 - 1, and with the multiplier 48,271 that Park,
/// Miller and Stockmeyer recommended in 1993. Contracts see its state.
#[derive(Drop)]
pub(crate) struct Draws {
    state: u64,
}

impl Model for Draws {
    ghost use Rattle.std.specs.Prelude.{ℕ, ◌<◌};

    ghost Value = { ℕ };

    ghost view = { λ draws. draws.state };

    ghost invariant = { λ draws. draws.state < 2_147_483_647 };
}

impl Draws {
    /// The generator of a number, before its first draw.
    pub fn new(number: u32) -> Draws
        ensures { result ≡ first_state number }
    {
        Draws {
            state: 1 + u64::from(number % 2_147_483_646),
        }
    }

    // Moves the state one step.
    #[inline]
    fn step(&mut self)
        ensures { self.new ≡ next_state self.old }
    {
        self.state = self.state * 48_271 % 2_147_483_647;
    }

    /// The next draw below a bound.
    #[inline]
    pub fn below(&mut self, bound: u32) -> u32
        requires { 0 < bound }
        ensures state { self.new ≡ next_state self.old }
        ensures draw { result ≡ next_state self.old % bound }
        ensures below { result < bound }
    {
        self.step();
        (self.state % u64::from(bound)) as u32
    }

    /// The next draw below a bound, as a value of a table.
    #[inline]
    pub fn value_below(&mut self, bound: u32) -> i64
        requires { 0 < bound }
        ensures state { self.new ≡ next_state self.old }
        ensures draw { result ≡ pos (next_state self.old % bound) }
    {
        i64::from(self.below(bound))
    }

    /// The next draw from -1,000 to 1,000.
    #[inline]
    pub fn signed(&mut self) -> i64
        ensures state { self.new ≡ next_state self.old }
        ensures draw { result ≡ signed_of (next_state self.old) }
    {
        i64::from(self.below(2_001)) - 1_000
    }

    /// Passes over so many draws.
    pub fn skip(&mut self, count: u32)
        ensures { self.new ≡ state_after self.old count }
    {
        for _ in 0..count {
            self.step();
        }
    }
}
