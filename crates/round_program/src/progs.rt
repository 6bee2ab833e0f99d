//! The programs of all ranks, one per rank: what a drive is given and hands back.

ghost use Rattle.std.specs.Prelude.{◌≡◌, [], ◌∷◌, ◌++◌, OnOk, OnErr, length, drop, slice_get};
ghost use Rattle.std.specs.Option.{option_copied};

use bale_items::NoMemory;
use std::alloc::Global;
use std::marker::Model;

/// A list of programs. A drive takes them out from the front, rank by rank, and adds them again
/// when their run has ended.
#[derive(Drop)]
pub struct Progs<Q> {
    list: Vec<Q>,
}

impl<Q> Model for Progs<Q> {
    ghost use Rattle.std.specs.Prelude.{List};

    ghost Value = { List Q };

    ghost view = { λ p. p.list.items };
}

impl<Q: Drop> Progs<Q> {
    /// An empty list, whose later growth takes memory from `alloc`.
    pub fn new(alloc: Global) -> Progs<Q>
        ensures { result ≡ [] }
    {
        Progs {
            list: Vec::new(alloc),
        }
    }

    /// Puts `q` at the end. After `NoMemory` the list is as before, and `q` is dropped.
    pub fn add(&mut self, q: Q) -> Result<(), NoMemory>
        ensures added { OnOk result (self.new ≡ self.old ++ q ∷ []) }
        ensures refused { OnErr result (self.new ≡ self.old) }
    {
        self.list.push(q)?;
        Ok(())
    }

    /// The number of programs.
    pub fn len(&self) -> usize
        ensures { result ≡ length self.now }
    {
        self.list.len()
    }

    /// The program of rank `r`, or `None` exactly past the end.
    pub fn get(&self, r: usize) -> Option<&Q>
        ensures { option_copied result ≡ slice_get self.now r }
    {
        self.list.get(r)
    }

    /// Takes the first program out, or answers `None` if and only if the list is empty.
    pub fn take_first(&mut self) -> Option<Q>
        ensures first { result ≡ slice_get self.old 0 }
        ensures rest { self.new ≡ drop 1 self.old }
    {
        if self.list.is_empty() {
            None
        } else {
            Some(self.list.remove(0))
        }
    }
}
