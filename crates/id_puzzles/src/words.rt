//! Words drawn from a seed.
ghost use Rattle.std.specs.Prelude.{◌≡◌, ◌+◌, ◌/◌, ◌%◌, ◌^◌, ◌<◌, ◌≤◌, length};
ghost use Rattle.kad_base.specs.Words.{word, drawn_bytes};
ghost use Rattle.id_puzzles.specs.Drawn.{WordsState, IsSeeded, drawn_by};

use rand_chacha::ChaCha20Rng;
use rand_core::SeedableRng;
use rand_core::utils::NextWord;
use std::marker::Model;

/// The words of ChaCha20's key stream for a seed, stream 0, one after the other from a place on.
#[derive(Debug, Drop)]
pub struct Words {
    rng: ChaCha20Rng,
}

impl Model for Words {
    ghost Value = { WordsState };

    ghost view = { λ w. drawn_by w.rng };

    ghost invariant = { λ w. IsSeeded w.rng };
}

impl Words {
    /// The words of the seed from that place on, counted from 0.
    pub fn new(seed: &[u8; 32], at: u64) -> Words
        requires { at < 2 ^ 60 }
        ensures { result ≡ record { seed = seed.now; place = at } }
    {
        let mut rng = ChaCha20Rng::from_seed(*seed);
        rng.set_word_pos(u128::from(at));
        Words { rng }
    }

    /// The next word.
    pub fn next(&mut self) -> u32
        requires { self.old.place < 2 ^ 60 }
        ensures value { result ≡ word self.old.seed self.old.place }
        ensures place { self.new ≡ record self.old { place = self.old.place + 1 } }
    {
        self.rng.next_word()
    }

    /// Fills the bytes with the next words, four bytes a word, the lowest first.
    pub fn fill(&mut self, bytes: &mut [u8])
        requires whole { length bytes.old % 4 ≡ 0 }
        requires place { self.old.place + length bytes.old / 4 ≤ 2 ^ 60 }
        ensures bytes { bytes.new ≡ drawn_bytes self.old.seed self.old.place
            (length bytes.old / 4) }
        ensures place { self.new ≡ record self.old
            { place = self.old.place + length bytes.old / 4 } }
    {
        for i in 0..bytes.len() / 4 {
            bytes[4 * i..4 * i + 4].copy_from_slice(&self.next().to_le_bytes());
        }
    }
}
