//! How many threads turn the ranks of a drive.
ghost use Rattle.std.specs.Prelude.{◌≤◌};

use std::thread;
use std::thread::Threads;

/// As many threads as ranks, but no more than the machine has processors. Two ranks or more have at
/// least two threads.
pub fn threads_for<R: Threads>(rt: &R, ranks: u32) -> usize
    ensures most { result ≤ ranks }
    ensures two { 2 ≤ ranks → 2 ≤ result }
{
    let ranks = ranks as usize;
    if ranks <= 2 {
        return ranks;
    }
    match thread::available_parallelism(rt) {
        Ok(processors) => ranks.min(processors.get().max(2)),
        Err(_) => 2,
    }
}
