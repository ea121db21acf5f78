// Draws of numbers below a bound, from words that a seed fixes.
ghost use Rattle.std.specs.Prelude.{◌≡◌, ◌↔◌, ◌≤◌, ◌<◌, ◌-◌, ◌^◌, ◌%◌, IsTrue};
ghost use Rattle.surf_pick.specs.Draws.{seeded, words_of, next_wide, draw_below};

use rand_core::{Rng, SeedableRng};
use rand_pcg::Pcg64;
use std::marker::Model;

/// Draws of a generator whose words are fixed by its seed. No call takes memory.
#[derive(Drop)]
pub struct Draw {
    generator: Pcg64,
}

impl Model for Draw {
    ghost use Rattle.rand_pcg.specs.Lcg.{Lcg};

    ghost Value = { Lcg };

    ghost view = { λ d. d.generator };
}

impl Draw {
    /// The generator of a seed.
    pub fn new(seed: u64) -> Draw
        ensures { result ≡ seeded seed }
    {
        Draw {
            generator: Pcg64::seed_from_u64(seed),
        }
    }

    /// A number below `total`, which is above 0.
    ///
    /// Each try takes two words. The first of them that is not among the last `2^128 mod total`
    /// numbers counts, so that no remainder is likelier than another; after fifteen tries the
    /// sixteenth counts whatever it is.
    pub fn below(&mut self, total: u128) -> u128
        requires { 0 < total }
        ensures draw { (result, words_of self.new) ≡ draw_below total (words_of self.old) }
        ensures below { result < total }
    {
        for turn in 0..15u32 {
            let _turn = turn;
            let word = self.wide();
            if counts(word, total) {
                return remainder(word, total);
            }
        }
        remainder(self.wide(), total)
    }

    // The next two words as one number.
    fn wide(&mut self) -> u128
        ensures { (result, words_of self.new) ≡ next_wide (words_of self.old) }
    {
        let first = u128::from(self.generator.next_u64());
        let second = u128::from(self.generator.next_u64());
        (first << 64) + second
    }
}

// Whether a number of two words counts. Nearly all are so small that this needs no remainder.
fn counts(word: u128, total: u128) -> bool
    requires { 0 < total }
    ensures { IsTrue result ↔ word ≤ 2 ^ 128 - 1 - 2 ^ 128 % total }
{
    word <= u128::MAX - total || word <= last_word(total)
}

// The remainder of a number of two words, in numbers of 64 bits where the divisor has 32.
fn remainder(word: u128, total: u128) -> u128
    requires { 0 < total }
    ensures { result ≡ word % total }
{
    if total >= 4294967296 {
        return word % total;
    }
    let total = total as u64;
    let low = (word % 18446744073709551616) as u64;
    let high = (word / 18446744073709551616) as u64 % total;
    let middle = (high * 4294967296 + low / 4294967296) % total;
    u128::from((middle * 4294967296 + low % 4294967296) % total)
}

// The greatest number of two words that counts.
fn last_word(total: u128) -> u128
    requires { 0 < total }
    ensures { result ≡ 2 ^ 128 - 1 - 2 ^ 128 % total }
{
    let rest = u128::MAX % total;
    if rest + 1 == total {
        return u128::MAX;
    }
    u128::MAX - (rest + 1)
}
