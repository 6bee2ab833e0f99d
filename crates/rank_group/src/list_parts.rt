//! A list taken apart.
ghost use Rattle.std.specs.Prelude.{◌≡◌, IfOk};
ghost use Rattle.std.specs.Iterator.{YieldsFirst, item_count};

use bale_items::NoMemory;
use std::alloc::Global;
use std::marker::Model;

/// The elements of a short list, each moved out in its turn, from the first to the last.
///
/// It is `Vec::into_iter` without the queue behind that, which would be compiled anew for the ranks
/// of each drive.
#[derive(Drop)]
pub struct OneByOne<T> {
    /// The last one stands first.
    left: Vec<T>,
}

impl<T> Model for OneByOne<T> {
    ghost use Rattle.std.specs.Prelude.{List, reverse};

    ghost Value = { List T };

    ghost view = { λ o. reverse o.left.items };
}

/// Takes a list apart: the elements move from its end to a second list, from whose end they are
/// handed out in order. Only `pop` and `push_reserved` do it, which lists of ranks need anyhow;
/// `reverse` would be compiled anew for the ranks of each drive.
///
/// # Errors
/// `NoMemory` if there was none.
pub fn one_by_one<T: Drop>(alloc: Global, list: Vec<T>) -> Result<OneByOne<T>, NoMemory>
    ensures { IfOk result (λ o. o ≡ list.items) }
{
    let mut list = list;
    let Ok(mut left) = Vec::with_capacity(alloc, list.len()) else {
        return Err(NoMemory);
    };
    while let Some(x) = list.pop() {
        left.push_reserved(x);
    }
    Ok(OneByOne { left })
}

impl<T: Drop> Iterator for OneByOne<T> {
    type Item = T;

    ghost next_gives = { YieldsFirst (λ s. s) };

    ghost remaining = { item_count (λ s. s) };

    fn next(&mut self) -> Option<T> {
        self.left.pop()
    }
}
