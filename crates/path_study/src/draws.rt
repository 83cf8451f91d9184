//! What is drawn from the seed of a study, in order.
ghost use Rattle.std.specs.Prelude.{◌≤◌, ◌<◌, ◌+◌, ◌^◌};

use id_puzzles::Words;
use kad_base::Id;
use std::alloc::{AllocError, Global};

/// The words of a seed, one after the other: 2^32 of them, which is more than any study draws, and zeros after those.
#[derive(Drop)]
pub struct Draws {
    words: Words,
    left: u64,
    ghost in_reach: { words.place + left ≤ 2 ^ 60 },
}

impl Draws {
    pub fn new(seed: &[u8; 32]) -> Draws {
        Draws {
            words: Words::new(seed, 0),
            left: 1 << 32,
        }
    }

    fn word(&mut self) -> u32 {
        if self.left == 0 {
            return 0;
        }
        self.left -= 1;
        self.words.next()
    }

    /// A number below `n`.
    pub fn below(&mut self, n: usize) -> usize
        requires { 0 < n }
        ensures { result < n }
    {
        self.word() as usize % n
    }

    /// An identifier: five words, the lowest byte of each first.
    pub fn id(&mut self) -> Id {
        let mut bytes = [0; 20];
        for part in 0..5 {
            bytes[4 * part..4 * part + 4].copy_from_slice(&self.word().to_le_bytes());
        }
        Id(bytes)
    }

    /// So many different numbers below `n`, or all of them if there are no more (Floyd's algorithm: Bentley and
    /// Floyd, 1987).
    pub fn some_below(
        &mut self,
        alloc: Global,
        n: usize,
        count: usize,
    ) -> Result<Vec<usize>, AllocError> {
        let mut chosen = Vec::new(alloc);
        for last in 0..n.min(count) {
            chosen.push(last)?;
        }
        if n <= count {
            return Ok(chosen);
        }
        chosen.clear();
        for last in n - count..n {
            let drawn = self.below(last + 1);
            let drawn = if chosen.contains(&drawn) { last } else { drawn };
            chosen.push(drawn)?;
        }
        Ok(chosen)
    }
}
