//! Numbers drawn from a seed.
ghost use Rattle.std.specs.Prelude.{◌<◌};

use rand::RngExt;
use rand_pcg::Pcg64;

/// A source of random numbers, determined by a seed and a list's number.
#[derive(Drop)]
pub(crate) struct Chance {
    rng: Pcg64,
}

impl Chance {
    /// The source for this list of this seed.
    pub fn new(seed: u64, list: u64) -> Chance {
        Chance {
            rng: Pcg64::new(u128::from(seed), u128::from(list)),
        }
    }

    /// A random number below `n`.
    pub fn below(&mut self, n: u32) -> u32
        requires { 0 < n }
        ensures { result < n }
    {
        self.rng.random_range(0..n)
    }

    /// True with a probability of 1 in `n`.
    pub fn one_in(&mut self, n: u32) -> bool
        requires { 0 < n }
    {
        self.below(n) == 0
    }

    /// A random index of a list with `n` elements; 0 if it has none.
    pub fn index(&mut self, n: usize) -> usize {
        let n = u32::try_from(n).unwrap_or(1);
        self.below(n.max(1)) as usize
    }

    /// A random index, with these weights; 0 if all of them are 0.
    pub fn place(&mut self, weights: &[u32]) -> usize {
        let mut sum: u32 = 0;
        for weight in weights {
            sum = sum.saturating_add(*weight);
        }
        if sum == 0 {
            return 0;
        }
        let mut left = self.below(sum);
        for place in 0..weights.len() {
            if left < weights[place] {
                return place;
            }
            left -= weights[place];
        }
        0
    }
}
