//! Entry lines read with a look at every place that came before: slower, and exact if a place
//! comes twice.
ghost use Rattle.std.specs.Prelude.{◌≡◌, ◌+◌, [], true, List, length, IfOk};
ghost use Rattle.bale_items.specs.declared.triple.Triple.{Triple};
ghost use Rattle.mtx_text.specs.Sparse.{AreSides, IsInside};
ghost use Rattle.mtx_text.specs.Lines.{lines_of, lines_from, words_of};
ghost use Rattle.mtx_text.specs.Grammar.{entry_of, entries_of};
ghost use Rattle.mtx_text.specs.code.Drafts.{CanRead};
ghost use Rattle.mtx_text.specs.code.Places.{Tracks, narrow};
ghost use Rattle.mtx_text.specs.Answers.{Gives};

use crate::banner::Form;
use crate::cell::read_cell;
use crate::lines::next_kept;
use crate::places::{add, is_taken};
use crate::refusal::{BadLine, ParseFault, Reason};
use crate::sizes::Sizes;
use bale_items::Triple;
use std::alloc::Global;
use std::collections::BTreeSet;

/// The entries of a text whose first line is line `number`.
#[tactic(auto, using(crate::proofs::Walk::step_ok, crate::proofs::Walk::step_bad, crate::proofs::Walk::over, crate::proofs::Walk::few, crate::proofs::Walk::enough))]
pub(crate) fn read_carefully(
    alloc: Global,
    form: Form,
    sizes: Sizes,
    text: &[u8],
    number: u64,
) -> Result<Vec<Triple>, ParseFault>
    requires { CanRead sizes text.now number }
    ensures { Gives (λ v. v.items) result
        (entries_of form sizes (number + length (lines_of text.now)) sizes.entries []
        (lines_from number (lines_of text.now))) }
{
    let mut entries = Vec::new(alloc);
    let mut seen = BTreeSet::new(alloc);
    let mut left = sizes.entries;
    let mut rest = text;
    let mut number = number;
    loop {
        match next_kept(rest, number) {
            Ok(kept) => {
                if left == 0 {
                    return Err(bad(kept.number, Reason::TooMany));
                }
                match read_entry(form, sizes, &seen, kept.line) {
                    Ok(t) => add(&mut entries, &mut seen, form.symmetry, t)?,
                    Err(reason) => return Err(bad(kept.number, reason)),
                }
                left -= 1;
                rest = kept.rest;
                number = kept.number + 1;
            }
            Err(end) => {
                if left > 0 {
                    return Err(bad(end, Reason::TooFew));
                }
                return Ok(entries);
            }
        }
    }
}

/// A bad line as the reader's answer.
pub(crate) fn bad(line: u64, reason: Reason) -> ParseFault
    ensures { result ≡ ParseFault.Bad (record { line = line; reason = reason }) }
{
    ParseFault::Bad(BadLine { line, reason })
}

/// An entry line after others, whose places are in `seen`.
#[tactic(auto, unfolding(crate::specs::Grammar::entry_of))]
fn read_entry(form: Form, sizes: Sizes, seen: &BTreeSet<u64>, line: &[u8]) -> Result<Triple, Reason>
    requires { AreSides sizes.rows sizes.cols }
    ensures value { (done : List Triple) → Tracks seen.now done → narrow done ≡ true
        → result ≡ entry_of form sizes done (words_of line.now) }
    ensures inside { IfOk result (IsInside sizes.rows sizes.cols) }
{
    let t = read_cell(form, sizes, line)?;
    if is_taken(seen, t) {
        return Err(Reason::Duplicate);
    }
    Ok(t)
}
