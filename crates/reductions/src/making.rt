//! The programs of all ranks, each made from its rank.

ghost use Rattle.std.specs.Prelude.{◌≡◌, ◌<◌, ℕ, map, Result, IfOk};
ghost use Rattle.std.specs.List.{range_with_len};

use bale_items::NoMemory;
use round_program::{Program, Progs};
use std::alloc::Global;

/// The programs of so many ranks, of which `make` makes each from its rank. If it makes `f r` of
/// rank `r`, they are those of a run wherever each `f r` is in round 0 (`proofs/Starts`).
///
/// # Errors
/// `NoMemory` if there was none for them.
pub fn programs<Q: Program, F: Fn(u32) -> Result<Q, NoMemory>>(
    alloc: Global,
    ranks: u32,
    make: F,
) -> Result<Progs<Q>, NoMemory>
    requires makes { (r : ℕ) → r < ranks → F.pre make r }
    ensures { (f : ℕ → Q) → ((r : ℕ) (q : Result Q NoMemory) → r < ranks → F.post make r q → IfOk q (λ s. s ≡ f r))
        → IfOk result (λ ps. ps ≡ map f (range_with_len 0 ranks)) }
{
    let mut progs = Progs::new(alloc);
    for rank in 0..ranks {
        progs.add(make(rank)?)?;
    }
    Ok(progs)
}
