//! Pseudorandom numbers.

/// Pseudorandom numbers, which a seed determines (splitmix64).
#[derive(Drop)]
pub(crate) struct Random {
    state: u64,
}

impl Random {
    /// The pseudorandom numbers of this job in the round with this seed.
    pub(crate) fn of(seed: u64, job: u32) -> Random {
        let mut seeds = Random { state: seed };
        let state = seeds.next().wrapping_add(u64::from(job));
        let mut jobs = Random { state };
        Random { state: jobs.next() }
    }

    /// Returns the next number: adds a fixed odd number to the state, and mixes the bits of the sum.
    fn next(&mut self) -> u64 {
        self.state = self.state.wrapping_add(0x9e37_79b9_7f4a_7c15);
        let mut bits = self.state;
        bits = (bits ^ (bits >> 30)).wrapping_mul(0xbf58_476d_1ce4_e5b9);
        bits = (bits ^ (bits >> 27)).wrapping_mul(0x94d0_49bb_1331_11eb);
        bits ^ (bits >> 31)
    }

    /// A random number below the limit; 0 if the limit is 0.
    pub(crate) fn below(&mut self, limit: u64) -> u64 {
        self.next().checked_rem(limit).unwrap_or(0)
    }

    /// `true` in about one of `limit` cases.
    pub(crate) fn one_in(&mut self, limit: u64) -> bool {
        self.below(limit) == 0
    }
}
