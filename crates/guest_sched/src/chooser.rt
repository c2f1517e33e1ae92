ghost use Rattle.std.specs.Prelude.{◌≡◌, ◌<◌, ◌≤◌, ◌%◌, length};
ghost use Rattle.guest_sched.specs.Words.{generator_of, word_of, next_generator};

use rand_core::utils::NextWord;
use rand_pcg::Lcg64Xsh32;
use std::marker::Model;

/// A generator of PCG32 words, seen by contracts as its state and increment.
#[derive(Debug, Drop)]
pub struct Chooser {
    words: Lcg64Xsh32,
}

impl Model for Chooser {
    ghost use Rattle.rand_pcg.specs.Lcg.{Lcg};

    ghost Value = { Lcg };

    ghost view = { λ c. c.words };
}

/// The stream of the generator.
const STREAM: u64 = 54;

impl Chooser {
    /// The generator of a seed, in stream 54.
    #[tactic(auto, unfolding(crate::specs::Words::generator_of))]
    pub fn new(seed: u64) -> Self
        ensures { result ≡ generator_of seed }
    {
        Chooser {
            words: Lcg64Xsh32::new(seed, STREAM),
        }
    }

    /// Draws one word, and answers the place in a list that it picks: the word modulo the list's length.
    #[tactic(auto, unfolding(crate::specs::Words::word_of, crate::specs::Words::next_generator))]
    pub fn pick(&mut self, enabled: &[u8]) -> usize
        requires some { 1 ≤ length enabled.now }
        requires few { length enabled.now ≤ 8 }
        ensures place { result ≡ word_of self.old % length enabled.now }
        ensures drawn { self.new ≡ next_generator self.old }
    {
        self.words.next_word() as usize % enabled.len()
    }
}
