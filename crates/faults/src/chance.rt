//! Numbers that look like chance, and come again in the same order from the same seed.
ghost use Rattle.std.specs.Prelude.{◌≡◌, ◌%◌, max};
ghost use Rattle.faults.specs.Chances.{step, drawn, hits};

const MULTIPLIER: u128 = 6_364_136_223_846_793_005;

const INCREMENT: u128 = 1_442_695_040_888_963_407;

const MODULUS: u128 = 0x1_0000_0000_0000_0000;

/// Knuth's linear congruential generator of 64 bits, of which the upper half is used.
#[derive(Clone, Copy, Debug)]
pub struct Chance {
    pub(crate) state: u64,
}

impl Chance {
    pub fn from_seed(seed: u64) -> Chance
        ensures { result.state ≡ seed }
    {
        Chance { state: seed }
    }

    /// The next number, of 32 bits.
    pub fn draw(&mut self) -> u64
        ensures value { result ≡ drawn self.old.state }
        ensures after { self.new.state ≡ step self.old.state }
    {
        let next = (u128::from(self.state) * MULTIPLIER + INCREMENT) % MODULUS;
        self.state = next as u64;
        self.state / 0x1_0000_0000
    }

    /// A number below `end`, or 0 where there is none.
    pub fn below(&mut self, end: u64) -> u64
        ensures value { result ≡ drawn self.old.state % max end 1 }
        ensures after { self.new.state ≡ step self.old.state }
    {
        self.draw() % end.max(1)
    }

    /// Whether it comes now what comes once in so many times.
    pub fn one_in(&mut self, times: u64) -> bool
        ensures value { result ≡ hits times self.old.state }
        ensures after { self.new.state ≡ step self.old.state }
    {
        self.below(times) == 0
    }
}
