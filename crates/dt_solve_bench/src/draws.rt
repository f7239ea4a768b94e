use rand_core::SeedableRng;
use rand_core::utils::NextWord;
use rand_pcg::Pcg64;

/// A stream of numbers that a seed fixes.
#[derive(Drop)]
pub struct Draws {
    generator: Pcg64,
}

impl Draws {
    /// The stream of a seed.
    pub fn new(seed: u64) -> Draws {
        Draws {
            generator: Pcg64::seed_from_u64(seed),
        }
    }

    /// The next number, modulo the bound; 0 where that is 0.
    pub fn below(&mut self, bound: u32) -> u32 {
        let word = self.generator.next_word();
        if bound == 0 {
            return 0;
        }
        (word % u64::from(bound)) as u32
    }
}
