//! The program `bale`: the command line's words, the standard streams, and the exit status.
#![tactic(auto)]

use bale_cli::{Refusal, report, run};
use bale_types::{StderrSink, StdinSource, StdoutSink};
use rank_group::OpenGate;
use std::env;
use std::io::ErrorKind;
use std::process::ExitCode;
use std::rt::Env;

fn main(rt: HostRuntime) -> ExitCode {
    keep_freed_memory(&rt);
    let mut err = StderrSink::new(&rt);
    match words(&rt) {
        Ok(words) => {
            let mut source = StdinSource::new(&rt);
            let mut out = StdoutSink::new(&rt);
            let outcome = run(
                &rt,
                rt.alloc(),
                words.as_slice(),
                &mut source,
                &mut out,
                &mut err,
                &OpenGate,
            );
            ExitCode::from(outcome.status)
        }
        Err(refusal) => {
            report(&mut err, refusal);
            ExitCode::from(refusal.status())
        }
    }
}

/// Takes a large piece of memory and gives it back untouched. glibc then serves requests up to that
/// size from its heap, and keeps there what is freed: a page that was used once is used again at
/// once, if a new one costs a page fault of some two microseconds.
fn keep_freed_memory<R: AllocGlobal>(rt: &R) {
    let piece: Result<Vec<u8>, _> = Vec::with_capacity(rt.alloc(), 33_000_000);
    drop(piece);
}

/// The words after the program's name. Words that aren't UTF-8 are no command.
fn words<R: Env + AllocGlobal>(rt: &R) -> Result<Vec<String>, Refusal> {
    let mut words = Vec::new(rt.alloc());
    match env::args(rt) {
        Ok(all) => {
            for word in all.skip(1) {
                if words.push(word).is_err() {
                    return Err(Refusal::NoMemory);
                }
            }
            Ok(words)
        }
        Err(e) if e.kind() == ErrorKind::OutOfMemory => Err(Refusal::NoMemory),
        Err(_) => Err(Refusal::Usage),
    }
}
