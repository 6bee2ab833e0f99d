//! On how many threads a text is parsed.
//!
//! An `Execution` reads the plain lines that a text of entry lines begins with: `OneThread` none of
//! them, and `OnThreads` as many as threads can read side by side. The rest is read on the caller's
//! thread, and the answer is the same.
ghost use Rattle.std.specs.Prelude.{◌≡◌, ⊤, [], IfOk};
ghost use Rattle.std.specs.Thread.{IsSync};
ghost use Rattle.mtx_text.specs.code.Drafts.{CanRead, ReadsOn};

use crate::ahead::{Progress, begin, read_ahead};
use crate::banner::{Form, Symmetry};
use crate::draft::Run;
use crate::sizes::Sizes;
use std::alloc::{AllocError, Global};
use std::thread::Threads;

/// Bytes of entry lines at least that are worth starting threads for.
const WORTH_THREADS: usize = 65_536;

/// How a text is parsed, which changes nothing of the answer.
pub trait Execution {
    /// Threads may share what they are given.
    ghost ready: { Type 0 };

    /// Makes room for the entries of a text, and reads none of its lines or the first of them.
    fn read_ahead<'a>(
        &self,
        alloc: Global,
        form: Form,
        sizes: Sizes,
        run: Run<'a>,
    ) -> Result<Progress<'a>, AllocError>
        requires ready { ready }
        requires text { CanRead sizes run.rest.now run.number }
        ensures { IfOk result (λ p. ReadsOn form sizes [] p.entries.items run.entry p.run) };
}

/// On the caller's thread alone.
#[derive(Drop)]
pub struct OneThread;

/// On several threads, if the text is long enough and no entry has a mirror.
#[derive(Drop)]
pub struct OnThreads<'a, R: Threads + Sync> {
    rt: &'a R,
    /// Two to this power is the number of threads.
    halvings: u32,
}

impl<'a, R: Threads + Sync> OnThreads<'a, R> {
    /// On at most so many threads, of which more than four are not used.
    pub fn new(rt: &'a R, threads: u32) -> OnThreads<'a, R> {
        let halvings = match threads {
            0 | 1 => 0,
            2 | 3 => 1,
            _ => 2,
        };
        OnThreads { rt, halvings }
    }
}

impl Execution for OneThread {
    ghost ready = { ⊤ };

    fn read_ahead<'a>(
        &self,
        alloc: Global,
        _form: Form,
        _sizes: Sizes,
        run: Run<'a>,
    ) -> Result<Progress<'a>, AllocError> {
        begin(alloc, run)
    }
}

impl<'t, R: Threads + Sync> Execution for OnThreads<'t, R> {
    ghost ready = { IsSync R.row };

    fn read_ahead<'a>(
        &self,
        alloc: Global,
        form: Form,
        sizes: Sizes,
        run: Run<'a>,
    ) -> Result<Progress<'a>, AllocError> {
        match form.symmetry {
            Symmetry::General if self.halvings > 0 && run.rest.len() >= WORTH_THREADS => {
                read_ahead(self.rt, self.halvings, alloc, form.kind, sizes, run)
            }
            _ => begin(alloc, run),
        }
    }
}
