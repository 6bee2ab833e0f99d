//! Entry lines read without regard to duplicates, up to the first line that is bad for another
//! reason.
ghost use Rattle.std.specs.Prelude.{◌≡◌, IfOk, IfErr, OnOk};
ghost use Rattle.mtx_text.specs.Sparse.{IsInside};
ghost use Rattle.mtx_text.specs.Grammar.{stands_for};
ghost use Rattle.mtx_text.specs.code.PlainLines.{NoneCounts};
ghost use Rattle.mtx_text.specs.code.Drafts.{CanRead, ReadsOn, IsNext, AddsLine, IsDraft};

use crate::ahead::Progress;
use crate::append::append;
use crate::banner::{Form, Symmetry};
use crate::cell::{mirror, plain_cell, read_cell};
use crate::execution::Execution;
use crate::lines::{Kept, first_kept, next_kept};
use crate::refusal::{BadLine, Reason};
use crate::sizes::Sizes;
use bale_items::Triple;
use std::alloc::{AllocError, Global};

/// The entries of the lines that were read, and the line that ended the reading, if it is bad.
#[derive(Drop)]
pub(crate) struct Draft {
    pub(crate) entries: Vec<Triple>,
    pub(crate) stop: Option<BadLine>,
}

/// A line that counts, and what it names.
#[derive(Clone, Copy)]
struct Entry<'a> {
    kept: Kept<'a>,
    cell: Result<Triple, Reason>,
}

/// The draft of a text whose first line is line `number`.
#[tactic(auto, using(crate::proofs::Steps::draft_ok, crate::proofs::Steps::draft_bad, crate::proofs::Steps::draft_over, crate::proofs::Steps::draft_few, crate::proofs::Steps::draft_enough))]
pub(crate) fn read_draft<X: Execution>(
    on: &X,
    alloc: Global,
    form: Form,
    sizes: Sizes,
    text: &[u8],
    number: u64,
) -> Result<Draft, AllocError>
    requires ready { X.ready }
    requires text { CanRead sizes text.now number }
    ensures { IfOk result (IsDraft form sizes text.now number) }
{
    let start = Run {
        rest: text,
        number,
        left: sizes.entries,
        careful: 0,
    };
    let Progress {
        mut entries,
        mut run,
    } = on.read_ahead(alloc, form, sizes, start)?;
    loop {
        run = read_plain(form, sizes, &mut entries, run)?;
        let Entry { kept, cell } = match next_entry(form, sizes, run.rest, run.number) {
            Ok(entry) => entry,
            Err(end) => {
                let stop = if run.left > 0 {
                    Some(bad(end, Reason::TooFew))
                } else {
                    None
                };
                return Ok(Draft { entries, stop });
            }
        };
        if run.left == 0 {
            let stop = Some(bad(kept.number, Reason::TooMany));
            return Ok(Draft { entries, stop });
        }
        match cell {
            Ok(t) => push(&mut entries, sizes, form.symmetry, t)?,
            Err(reason) => {
                let stop = Some(bad(kept.number, reason));
                return Ok(Draft { entries, stop });
            }
        }
        run = Run {
            rest: kept.rest,
            number: kept.number + 1,
            left: run.left - 1,
            careful: run.careful,
        };
    }
}

/// How far a text was read.
#[derive(Clone, Copy)]
pub struct Run<'a> {
    /// What is still to be read.
    pub(crate) rest: &'a [u8],
    /// The number of its first line.
    pub(crate) number: u64,
    /// How many entry lines are still to come.
    pub(crate) left: u32,
    /// How many lines are read before a plain one is looked for again.
    pub(crate) careful: u32,
}

/// How many plain lines pay for the look at one that isn't.
const PAUSE: u32 = 16;

/// Reads on as long as lines are plain and their entries in range. If lines that aren't plain
/// come often, most of them are not even looked at.
#[inline(never)]
fn read_plain<'a>(
    form: Form,
    sizes: Sizes,
    entries: &mut Vec<Triple>,
    run: Run<'a>,
) -> Result<Run<'a>, AllocError>
    requires { CanRead sizes run.rest.now run.number }
    ensures { IfOk result (λ r. ReadsOn form sizes entries.old.items entries.new.items run.entry r) }
{
    if run.careful > 0 {
        return Ok(Run {
            rest: run.rest,
            number: run.number,
            left: run.left,
            careful: run.careful - 1,
        });
    }
    match form.symmetry {
        Symmetry::General => {
            let kind = form.kind;
            let symmetry = Symmetry::General;
            plain_lines(Form { kind, symmetry }, sizes, entries, run)
        }
        _ => plain_lines(form, sizes, entries, run),
    }
}

/// Reads on as `read_plain` does if a look is due. A matrix with no mirrors has a copy of this
/// loop that asks for none.
#[inline(always)]
#[tactic(auto, using(crate::proofs::Steps::draft_ok))]
fn plain_lines<'a>(
    form: Form,
    sizes: Sizes,
    entries: &mut Vec<Triple>,
    run: Run<'a>,
) -> Result<Run<'a>, AllocError>
    requires { CanRead sizes run.rest.now run.number }
    ensures { IfOk result (λ r. ReadsOn form sizes entries.old.items entries.new.items run.entry r) }
{
    let mut rest = run.rest;
    let mut left = run.left;
    while left > 0 {
        let Some(plain) = plain_cell(form, sizes, rest) else {
            break;
        };
        let Ok(t) = plain.cell else {
            break;
        };
        let number = run.number + (run.left - left) as u64;
        let kept = first_kept(rest, number, plain.len, plain.next);
        push(entries, sizes, form.symmetry, t)?;
        rest = kept.rest;
        left -= 1;
    }
    let lines = run.left - left;
    Ok(Run {
        rest,
        number: run.number + lines as u64,
        left,
        careful: if lines < PAUSE { 15 } else { 0 },
    })
}

/// The next line that counts, and what it names; else the number of the end line.
#[inline(never)]
fn next_entry(form: Form, sizes: Sizes, text: &[u8], number: u64) -> Result<Entry<'_>, u64>
    requires { CanRead sizes text.now number }
    ensures next { IfOk result (IsNext form sizes text.now number) }
    ensures none { IfErr result (NoneCounts text.now number) }
{
    let kept = next_kept(text, number)?;
    let cell = read_cell(form, sizes, kept.line);
    Ok(Entry { kept, cell })
}

fn bad(line: u64, reason: Reason) -> BadLine
    ensures { result ≡ record { line = line; reason = reason } }
{
    BadLine { line, reason }
}

/// Appends what an entry line stands for.
#[inline(always)]
fn push(
    entries: &mut Vec<Triple>,
    sizes: Sizes,
    symmetry: Symmetry,
    t: Triple,
) -> Result<(), AllocError>
    requires { IsInside sizes.rows sizes.cols t }
    ensures { OnOk result (AddsLine sizes (stands_for symmetry t) entries.old.items entries.new.items) }
{
    append(entries, t)?;
    match mirror(symmetry, t) {
        None => Ok(()),
        Some(other) => {
            entries.push(other)?;
            Ok(())
        }
    }
}
