//! The answer of a run: the cell of each key, as its owner has it.

ghost use Rattle.std.specs.Prelude.{◌≡◌, ◌<◌, ◌≤◌, ◌%◌, length, IfOk};
ghost use Rattle.std.specs.List.{All};
ghost use Rattle.reductions.specs.Answers.{cell_of, owned_values};

use crate::reduced::Reduced;
use bale_items::NoMemory;
use round_program::Progs;
use std::alloc::Global;

/// A program whose state has cells by key.
pub trait HasCells: Drop {
    ghost use Rattle.reductions.specs.Reductions.{ReducedState};

    ghost cells_of: { Self → ReducedState };

    /// The cells, of which those of own keys mean something.
    fn cells(&self) -> &Reduced
        ensures { result.now ≡ cells_of self.now };
}

/// The cells of the keys below `count`, each as its owner has it: key `k` belongs to rank `k mod
/// ranks`.
///
/// # Errors
/// `NoMemory` if there was none for them.
pub fn owned<Q: HasCells>(
    alloc: Global,
    progs: &Progs<Q>,
    count: usize,
) -> Result<Vec<u64>, NoMemory>
    requires some { 0 < length progs.now }
    requires keys { All (λ s. count ≤ length (Q.cells_of s).cells) progs.now }
    ensures { IfOk result (λ v. v.items ≡ owned_values Q.cells_of progs.now count) }
{
    let mut answer = Vec::new(alloc);
    for key in 0..count {
        answer.push(cell_of(progs, key))?;
    }
    Ok(answer)
}

/// The cell of a key, as its owner has it.
fn cell_of<Q: HasCells>(progs: &Progs<Q>, key: usize) -> u64
    requires some { 0 < length progs.now }
    requires keys { All (λ s. key < length (Q.cells_of s).cells) progs.now }
    ensures { result ≡ cell_of Q.cells_of progs.now key }
{
    match progs.get(key % progs.len()) {
        Some(owner) => owner.cells().cells()[key],
        None => 0,
    }
}
