//! Numbers that a seed determines.
ghost use Rattle.std.specs.Prelude.{◌<◌};

/// The state of a generator (SplitMix64).
#[derive(Drop)]
pub struct Random {
    state: u64,
}

impl Random {
    /// A generator of a seed.
    pub fn new(seed: u64) -> Self {
        Random { state: seed }
    }

    /// A number below a limit.
    pub fn below(&mut self, limit: u64) -> u64
        requires { 0 < limit }
        ensures { result < limit }
    {
        self.state = self.state.wrapping_add(0x9e37_79b9_7f4a_7c15);
        let mixed = (self.state ^ (self.state >> 30)).wrapping_mul(0xbf58_476d_1ce4_e5b9);
        let mixed = (mixed ^ (mixed >> 27)).wrapping_mul(0x94d0_49bb_1331_11eb);
        (mixed ^ (mixed >> 31)) % limit
    }
}
