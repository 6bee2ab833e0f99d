//! Measures conveyors, for `docs/BENCHMARKS.md`: the program sends items between ranks on one
//! thread, and prints a sum of what came, so that nothing is left out by the compiler. How much
//! work that was is counted from outside, by callgrind.
//!
//! The words are five numbers: the bank (0 for the plain bank with one rank, 1 for slot links, 2
//! for the plain bank with all ranks), the number of hops (or 16 or 64, for a grid of one number),
//! the buffer size (1, 64 or 1024), the items of each rank and epoch, and the number of epochs.
#![tactic(auto)]

mod plain;
mod rows;
mod sending;
mod shape;
mod side;
mod slots;
mod taking;

use bale_items::NoMemory;
use rows::{Job, measure};
use std::env;
use std::process::ExitCode;
use std::rt::Env;

fn main(rt: HostRuntime) -> ExitCode {
    match measure(rt.alloc(), job_of(&rt)) {
        Ok(sum) => {
            let _written = println!(&rt; "{sum}");
            ExitCode::from(0)
        }
        Err(NoMemory) => ExitCode::from(1),
    }
}

/// The job that the words tell. A word that is missing counts as 0.
fn job_of<R: Env + AllocGlobal>(rt: &R) -> Job {
    let mut numbers = [0u64; 5];
    let mut at = 0;
    if let Ok(all) = env::args(rt) {
        for word in all.skip(1) {
            if at < 5 {
                numbers[at] = number(word.as_bytes());
                at += 1;
            }
        }
    }
    Job {
        bank: numbers[0],
        hops: numbers[1],
        buffer: numbers[2],
        items: numbers[3],
        epochs: numbers[4],
    }
}

/// The number that these digits write.
fn number(digits: &[u8]) -> u64 {
    let mut n: u64 = 0;
    for digit in digits {
        n = n
            .wrapping_mul(10)
            .wrapping_add((*digit as u64).wrapping_sub(48));
    }
    n
}
