//! The words of a seed, and permutations drawn from them.
ghost use Rattle.std.specs.Prelude.{◌≡◌, IfOk, OnOk, OnErr};
ghost use Rattle.std.specs.List.{range_with_len};
ghost use Rattle.mtx_text.specs.Permutations.{Permutes};
ghost use Rattle.mtx_text.specs.Seeds.{step, word, seeded, permutation_of};

use bale_items::NoMemory;
use rand_core::utils::NextWord;
use rand_pcg::Pcg32;
use std::alloc::{AllocError, Global};
use std::marker::Model;

/// The stream of the generator.
const STREAM: u64 = 54;

/// A generator of words, seen as its state.
#[derive(Drop)]
pub struct Words {
    generator: Pcg32,
}

impl Model for Words {
    ghost use Rattle.std.specs.Prelude.{◌≡◌, ℕ};

    ghost Value = { ℕ };

    ghost view = { λ w. w.generator.state };

    ghost invariant = { λ w. w.generator.increment ≡ 109 };
}

impl Words {
    /// The words of a seed.
    pub fn of_seed(seed: u64) -> Words
        ensures { result ≡ seeded seed }
    {
        Words {
            generator: Pcg32::new(seed, STREAM),
        }
    }

    /// The next word.
    pub fn draw(&mut self) -> u32
        ensures word { result ≡ word self.old }
        ensures state { self.new ≡ step self.old }
    {
        self.generator.next_word()
    }

    /// A permutation of the numbers below `n`: the element at `x` is the new number of `x`.
    ///
    /// # Errors
    ///
    /// `NoMemory` if there was none; no word was drawn.
    pub fn permutation(&mut self, alloc: Global, n: u32) -> Result<Vec<u32>, NoMemory>
        ensures list { IfOk result (λ p. p.items ≡ (permutation_of n self.old).0) }
        ensures state { OnOk result (self.new ≡ (permutation_of n self.old).1) }
        ensures permutes { IfOk result (λ p. Permutes n p.items) }
        ensures kept { OnErr result (self.new ≡ self.old) }
    {
        let mut list = numbers_below(alloc, n)?;
        let mut i = n;
        while i > 1 {
            i -= 1;
            let other = self.draw() % (i + 1);
            list.swap(i as usize, other as usize);
        }
        Ok(list)
    }
}

/// The numbers below `n` in order.
fn numbers_below(alloc: Global, n: u32) -> Result<Vec<u32>, AllocError>
    ensures { IfOk result (λ v. v.items ≡ range_with_len 0 n) }
{
    let mut list = Vec::with_capacity(alloc, n as usize)?;
    for k in 0..n {
        list.push(k)?;
    }
    Ok(list)
}
