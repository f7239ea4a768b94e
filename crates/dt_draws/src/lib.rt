//! Numbers that are drawn: a stream of them is fixed by a seed.
//!
//! Proved: `Draws` is the generator of its seed, and each number is made of its next two words. It
//! takes no memory.
#![tactic(auto)]

ghost use Rattle.std.specs.Prelude.{◌≡◌, ◌+◌, ◌*◌, ◌%◌, ◌^◌};
ghost use Rattle.dt_bits.specs.Bits.{IsWidth};

use dt_bits::{Width, ones};
use rand_core::SeedableRng;
use rand_core::utils::NextWord;
use rand_pcg::Pcg64;
use std::marker::Model;

// The number whose lower half is one word and whose higher half is the other.
fn of_words(low: u64, high: u64) -> u128
    ensures { result ≡ low + high * 2 ^ 64 }
{
    (u128::from(high) << 64) | u128::from(low)
}

// The lowest bits of a number.
fn cut(number: u128, width: Width) -> u128
    requires { IsWidth width.0 }
    ensures { result ≡ number % 2 ^ width.0 }
{
    number & ones(width)
}

/// A stream of numbers that a seed fixes.
#[derive(Drop)]
pub struct Draws {
    generator: Pcg64,
}

impl Model for Draws {
    ghost use Rattle.rand_pcg.specs.Lcg.{Lcg};

    ghost Value = { Lcg };

    ghost view = { λ d. d.generator };
}

impl Draws {
    ghost use Rattle.dt_draws.specs.Drawing.{generator_of, drawn, after_draw};

    /// The stream of a seed.
    pub fn new(seed: u64) -> Draws
        ensures { result ≡ generator_of seed }
    {
        Draws {
            generator: Pcg64::seed_from_u64(seed),
        }
    }

    /// The next number of so many bits: the generator's next two words, of which the first is the
    /// lower, modulo 2 to the width. It takes no memory.
    pub fn draw(&mut self, width: Width) -> u128
        requires { IsWidth width.0 }
        ensures number { result ≡ drawn self.old width.0 }
        ensures rest { self.new ≡ after_draw self.old }
    {
        let low = self.generator.next_word();
        let high = self.generator.next_word();
        cut(of_words(low, high), width)
    }
}
