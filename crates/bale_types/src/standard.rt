//! Standard input, output and error as a source and two sinks: the trusted edge.
//!
//! No contract can say what a terminal, a pipe or a file gives or takes, so these tell no content.
//! They count their failures: exactly the calls that answer `Failed`. What std answered goes whole
//! to one helper, whose contract keeps it; what no contract sees, the repository's checks try on
//! real files, pipes and devices.
ghost use Rattle.std.specs.Prelude.{◌≡◌, ◌<◌, ◌≤◌, ℕ, List, Option, None, Some, Ok, [], length, is_err, IfOk, if◌then◌else◌};
ghost use Rattle.std.specs.Result.{result_ok};
ghost use Rattle.bale_types.specs.Stream.{moved_bytes, CountsFaults, MovesSome, some_moved};
ghost use Rattle.bale_items.specs.Counters.{next_count};

use super::fault::Failed;
use super::stream::{Sink, Source};
use std::io::{self, Eprint, Input, Print, Read, Write};
use std::marker::PhantomData;
use std::str;

/// Standard input.
#[derive(Drop)]
pub struct StdinSource<'a, R: Input> {
    reader: R::Reader,
    /// How many reads failed; saturates at its end.
    faults: u64,
    runtime: PhantomData<&'a R>,
}

impl<'a, R: Input> StdinSource<'a, R> {
    /// A source over the runtime's standard input.
    pub fn new(rt: &'a R) -> StdinSource<'a, R>
        ensures { result.faults ≡ 0 }
    {
        StdinSource {
            reader: rt.reader(),
            faults: 0,
            runtime: PhantomData,
        }
    }
}

impl<R: Input> Source for StdinSource<'_, R> {
    ghost left = { λ _. None };

    ghost faults = { λ s. s.faults };

    fn read(&mut self, buf: &mut [u8]) -> Result<usize, Failed>
        requires { 0 < length buf.old }
        ensures bound { IfOk result (λ count. count ≤ length buf.new) }
        ensures only_at_end { (text : List ℕ) → result ≡ Ok 0 → None ≡ Some text → text ≡ [] }
        ensures at_end { (let left : Option (List ℕ) = None in left ≡ Some []) → IfOk result (λ count. count ≡ 0) }
        ensures counts { CountsFaults self.old.faults self.new.faults result }
        ensures faults { self.new.faults ≡
            (if is_err result then next_count self.old.faults else self.old.faults) }
    {
        counted(self.reader.read(buf), &mut self.faults)
    }
}

/// Standard output.
#[derive(Drop)]
pub struct StdoutSink<'a, R> {
    rt: &'a R,
    /// How many writes failed; saturates at its end.
    faults: u64,
}

impl<'a, R: Print> StdoutSink<'a, R> {
    /// A sink over the runtime's standard output.
    pub fn new(rt: &'a R) -> StdoutSink<'a, R>
        ensures { result.faults ≡ 0 }
    {
        StdoutSink { rt, faults: 0 }
    }
}

impl<R: Print> Sink for StdoutSink<'_, R> {
    ghost taken = { λ _. None };

    ghost faults = { λ s. s.faults };

    fn write(&mut self, piece: &[u8]) -> Result<usize, Failed>
        requires { 0 < length piece.now }
        ensures some { MovesSome (length piece.now) result }
        ensures counts { CountsFaults self.old.faults self.new.faults result }
        ensures faults { self.new.faults ≡
            (if is_err result then next_count self.old.faults else self.old.faults) }
    {
        counted(
            some_taken(io::writer(self.rt).write(piece)),
            &mut self.faults,
        )
    }
}

/// Standard error. It takes text alone, since the runtime prints text there, and each piece whole:
/// bytes that are no UTF-8 count as a failure.
#[derive(Drop)]
pub struct StderrSink<'a, R> {
    rt: &'a R,
    /// How many writes failed; saturates at its end.
    faults: u64,
}

impl<'a, R: Eprint> StderrSink<'a, R> {
    /// A sink over the runtime's standard error.
    pub fn new(rt: &'a R) -> StderrSink<'a, R>
        ensures { result.faults ≡ 0 }
    {
        StderrSink { rt, faults: 0 }
    }
}

impl<R: Eprint> Sink for StderrSink<'_, R> {
    ghost taken = { λ _. None };

    ghost faults = { λ s. s.faults };

    fn write(&mut self, piece: &[u8]) -> Result<usize, Failed>
        requires { 0 < length piece.now }
        ensures some { MovesSome (length piece.now) result }
        ensures whole { IfOk result (λ count. count ≡ length piece.now) }
        ensures counts { CountsFaults self.old.faults self.new.faults result }
        ensures faults { self.new.faults ≡
            (if is_err result then next_count self.old.faults else self.old.faults) }
    {
        let got = match str::from_utf8(piece) {
            Ok(text) => self.rt.eprint(text).map(|()| piece.len()),
            Err(_) => Err(io::Error::other("no UTF-8")),
        };
        counted(got, &mut self.faults)
    }
}

/// What a call of std moved, or its failure, which is counted.
fn counted(got: io::Result<usize>, faults: &mut u64) -> Result<usize, Failed>
    ensures moved { result_ok result ≡ result_ok got }
    ensures faults { faults.new ≡ (if is_err result then next_count faults.old else faults.old) }
    ensures never_falls { faults.old ≤ faults.new }
{
    match got {
        Ok(count) => Ok(count),
        Err(_) => {
            *faults = faults.saturating_add(1);
            Err(Failed)
        }
    }
}

/// A write that took nothing has failed.
fn some_taken(got: io::Result<usize>) -> io::Result<usize>
    ensures { result_ok result ≡ some_moved (result_ok got) }
{
    match got {
        Ok(0) => Err(io::Error::other("nothing was taken")),
        other => other,
    }
}
