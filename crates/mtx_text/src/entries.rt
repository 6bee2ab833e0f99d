//! The entry lines of a text.
//!
//! They are first read without regard to duplicates. If no place came twice, which one walk over
//! the entries shows, that reading is the answer. Else they are read again, with a look at every
//! place that came before, for the first bad line.
ghost use Rattle.std.specs.Prelude.{◌+◌, [], length};
ghost use Rattle.mtx_text.specs.Lines.{lines_of, lines_from};
ghost use Rattle.mtx_text.specs.Grammar.{entries_of};
ghost use Rattle.mtx_text.specs.code.Drafts.{CanRead};
ghost use Rattle.mtx_text.specs.Answers.{Gives};

use crate::apart::are_apart;
use crate::banner::Form;
use crate::careful::read_carefully;
use crate::draft::{Draft, read_draft};
use crate::execution::Execution;
use crate::refusal::ParseFault;
use crate::sizes::Sizes;
use bale_items::Triple;
use std::alloc::Global;

/// The entries of a text whose first line is line `number`.
pub(crate) fn read_entries<X: Execution>(
    on: &X,
    alloc: Global,
    form: Form,
    sizes: Sizes,
    text: &[u8],
    number: u64,
) -> Result<Vec<Triple>, ParseFault>
    requires ready { X.ready }
    requires text { CanRead sizes text.now number }
    ensures { Gives (λ v. v.items) result
        (entries_of form sizes (number + length (lines_of text.now)) sizes.entries []
        (lines_from number (lines_of text.now))) }
{
    let Draft { entries, stop } = read_draft(on, alloc, form, sizes, text, number)?;
    let side = sizes.rows.max(sizes.cols);
    if !are_apart(alloc, side, entries.as_slice())? {
        return read_carefully(alloc, form, sizes, text, number);
    }
    match stop {
        None => Ok(entries),
        Some(line) => Err(ParseFault::Bad(line)),
    }
}
