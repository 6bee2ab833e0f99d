//! What the tests of the top calls share: a run with its source, its sinks and its gate, and what
//! it tells.
ghost use Rattle.bale_items.specs.Ledgers.{IsBlankOf};

use bale_cli::{Outcome, run, run_serial};
use bale_types::{MemSink, MemSource};
use rank_group::{Gate, Steps};
use std::alloc::{AllocError, Global};
use std::marker::Brand;
use std::string::ToString;
use std::sync::Wait;
use std::sync::atomic::{AtomicBool, AtomicU64, Ordering};
use std::sync::ledger::{Blank, Ledger};
use std::test::Fail;
use std::thread;
use std::thread::Threads;

/// The text of most runs: one rank's worth of everything.
pub(crate) const ONE: &[u8] =
    b"%%MatrixMarket matrix coordinate pattern general\n3 3 4\n1 1\n1 3\n2 3\n3 3\n";

/// The program's words, its source and its sinks.
#[derive(Clone, Copy)]
pub(crate) struct Call {
    pub(crate) words: &'static str,
    pub(crate) text: &'static [u8],
    /// The most bytes of a read, and the read that fails: none is number 0.
    pub(crate) read: (usize, u64),
    /// The most bytes of a write to out, and the write that fails: none is number 0.
    pub(crate) write: (usize, u64),
    /// The write to err that fails.
    pub(crate) say: u64,
}

/// A call at which nothing fails.
pub(crate) const fn ample(words: &'static str, text: &'static [u8]) -> Call {
    Call {
        words,
        text,
        read: (65_536, 0),
        write: (4_096, 0),
        say: 0,
    }
}

/// What a run tells.
#[derive(Drop)]
pub(crate) struct Told {
    /// The status, out and err.
    pub(crate) text: String,
    /// How many closed rounds, and the epochs of the first of them.
    pub(crate) rounds: (usize, u64),
}

/// How often a hold looks before it gives up.
const TRIES: u32 = 1_000_000_000;

/// The gate of all runs here: for each of them that had another, the ranks' threads would be
/// compiled anew. It counts how often the turn 0 of each of two ranks was announced, once in each
/// run, and may hold that of one until the other's was.
#[derive(Drop)]
pub(crate) struct Watch {
    held: Option<u32>,
    pub(crate) of_0: AtomicU64,
    pub(crate) of_1: AtomicU64,
    announced: AtomicBool,
    pub(crate) gave_up: AtomicBool,
}

impl Watch {
    pub(crate) fn new(held: Option<u32>) -> Watch {
        Watch {
            held,
            of_0: AtomicU64::new(0),
            of_1: AtomicU64::new(0),
            announced: AtomicBool::new(false),
            gave_up: AtomicBool::new(false),
        }
    }
}

impl Gate for Watch {
    fn turn(&self, rank: u32, n: u64) {
        if n != 0 {
            return;
        }
        let begun = if rank == 0 { &self.of_0 } else { &self.of_1 };
        begun.fetch_add(1, Ordering::SeqCst);
        if self.held != Some(rank) {
            self.announced.store(true, Ordering::SeqCst);
            return;
        }
        for _ in 0..TRIES {
            if self.announced.load(Ordering::SeqCst) {
                return;
            }
            thread::yield_now();
        }
        self.gave_up.store(true, Ordering::SeqCst);
    }
}

/// A serial run whose turns nobody asks for.
fn run_counted<L: Ledger>(
    alloc: Global,
    words: &[String],
    source: &mut MemSource,
    out: &mut MemSink,
    err: &mut MemSink,
    blank: Blank,
) -> Outcome
    requires blank { IsBlankOf L.name L.parts blank.name blank.parts }
{
    let mut steps = Steps::<L>::new(blank);
    run_serial(alloc, words, source, out, err, &mut steps)
}

fn run_alone(
    alloc: Global,
    words: &[String],
    source: &mut MemSource,
    out: &mut MemSink,
    err: &mut MemSink,
) -> Outcome {
    run_counted::<Brand>(alloc, words, source, out, err, Blank::new(1))
}

/// The words of a text.
fn words_of(alloc: Global, text: &str) -> Result<Vec<String>, AllocError> {
    let mut words = Vec::new(alloc);
    for word in text.split_whitespace() {
        words.push(word.to_string(alloc)?)?;
    }
    Ok(words)
}

/// What a run tells that left these in its sinks.
fn told_of(alloc: Global, outcome: &Outcome, out: &[u8], err: &[u8]) -> Result<Told, Fail> {
    let epochs = match outcome.rounds.get(0) {
        Some(round) => round.epochs(),
        None => 0,
    };
    let status = outcome.status;
    let written = str::from_utf8(out)?;
    let said = str::from_utf8(err)?;
    Ok(Told {
        text: format!(in alloc; "{status} {written}{said}")?,
        rounds: (outcome.rounds.len(), epochs),
    })
}

/// Makes a call: as its words ask for it, with this gate, or serially.
pub(crate) fn make<R: Threads + Wait + Sync>(
    rt: &R,
    alloc: Global,
    call: Call,
    gate: Option<&Watch>,
) -> Result<Told, Fail> {
    let (most_read, read_fails) = call.read;
    let (most_written, write_fails) = call.write;
    if most_read == 0 || most_written == 0 {
        return Err(Fail::new("no byte at a call"));
    }
    let words = words_of(alloc, call.words)?;
    let mut source = MemSource::new(alloc, call.text, most_read, &[read_fails])?;
    let mut out = MemSink::new(alloc, 4_096, most_written, &[write_fails])?;
    let mut err = MemSink::new(alloc, 4_096, 4_096, &[call.say])?;
    let outcome = match gate {
        Some(gate) => run(
            rt,
            alloc,
            words.as_slice(),
            &mut source,
            &mut out,
            &mut err,
            gate,
        ),
        None => run_alone(alloc, words.as_slice(), &mut source, &mut out, &mut err),
    };
    told_of(alloc, &outcome, out.taken(), err.taken())
}
