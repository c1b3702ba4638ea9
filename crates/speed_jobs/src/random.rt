//! Numbers that look random, the same for the same seed: splitmix64, by Steele, Lea and Flood.

/// A source of numbers.
#[derive(Drop)]
pub struct Random {
    state: u64,
}

impl Random {
    /// The source of a seed.
    pub fn new(seed: u64) -> Random {
        Random { state: seed }
    }

    /// The next number.
    pub fn next(&mut self) -> u64 {
        self.state = self.state.wrapping_add(0x9e37_79b9_7f4a_7c15);
        let z = self.state;
        let z = (z ^ (z >> 30)).wrapping_mul(0xbf58_476d_1ce4_e5b9);
        let z = (z ^ (z >> 27)).wrapping_mul(0x94d0_49bb_1331_11eb);
        z ^ (z >> 31)
    }

    /// The next number, below a limit that 32 bits hold.
    pub fn below(&mut self, limit: u64) -> u64 {
        (self.next() >> 32).wrapping_mul(limit) >> 32
    }

    /// Whether one in so many falls here.
    pub fn is_one_in(&mut self, count: u64) -> bool {
        self.below(count) == 0
    }
}
