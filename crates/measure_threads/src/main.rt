//! Measures how many items a second ranks exchange, on threads, over conveyors on slot links.
//!
//! The words are `P N B [REPS] [GRID]`: each of P ranks sends N items to ranks that a seed chooses,
//! B of which travel together (1, 2, 8, 64 or 1,024). After a run that isn't measured come REPS
//! others (5), over the grid GRID (one number, P). For each it prints how many items a second that
//! was, and a checksum of what came; with 0 for REPS the first run's checksum alone. With 0 for N
//! nobody sends in many rounds, and it prints how many epochs a second that was, of which each
//! round has two.
#![tactic(auto)]

mod command;
mod exchange;
mod stop_watch;

use bale_items::NoMemory;
use command::{Command, command_of};
use exchange::exchange;
use std::env;
use std::process::ExitCode;
use std::rt::Env;

fn main(rt: HostRuntime) -> ExitCode {
    let Some(command) = words_of(&rt) else {
        let _written = eprintln!(&rt; "usage: measure_threads P N B [REPS] [GRID]");
        return ExitCode::from(2);
    };
    match exchange(&rt, rt.alloc(), &command) {
        Ok(first) => {
            if command.times == 0 {
                let _written = println!(&rt; "checksum {}", first.checksum);
            }
        }
        Err(NoMemory) => return ExitCode::from(1),
    }
    for _ in 0..command.times {
        match exchange(&rt, rt.alloc(), &command) {
            Ok(rate) => {
                if command.items == 0 {
                    let _written = println!(&rt;
                        "epochs_per_second {}",
                        per_second(rate.epochs, rate.nanoseconds)
                    );
                } else {
                    let items = command.items as u64 * command.grid.ranks() as u64;
                    let _written = println!(&rt;
                        "items_per_second {}",
                        per_second(items, rate.nanoseconds)
                    );
                    let _written = println!(&rt; "checksum {}", rate.checksum);
                }
            }
            Err(NoMemory) => return ExitCode::from(1),
        }
    }
    ExitCode::from(0)
}

/// The command that the program's words tell.
fn words_of<R: Env + AllocGlobal>(rt: &R) -> Option<Command> {
    let mut words = Vec::new(rt.alloc());
    for word in env::args(rt).ok()?.skip(1) {
        words.push(word).ok()?;
    }
    command_of(words.as_slice())
}

/// How many of so many in some nanoseconds come in a second.
fn per_second(count: u64, nanoseconds: u64) -> u64 {
    let nanoseconds = nanoseconds.max(1) as u128;
    let rate = count as u128 * 1_000_000_000 / nanoseconds;
    u64::try_from(rate).unwrap_or(u64::MAX)
}
