//! Lines that are counted as they come.

ghost use Rattle.std.specs.Prelude.{◌≡◌, ◌<◌, ◌≤◌, ◌+◌, ◌^◌, ◌++◌, ◌∷◌, [], true, IfSome, OnOk, OnErr, length, map, slice_get, slice_set, slice_index};
ghost use Rattle.std.specs.List.{All};
ghost use Rattle.app_tally.specs.code.CountView.{numbered_lines, counted_lines, IsMultiset, IsLineEntry};
ghost use Rattle.app_tally.specs.Counts.{tally_of, with_line};
ghost use Rattle.app_tally.specs.Numbers.{front_number};

use crate::line_index::LineIndex;
use crate::numbered::{Numbered, numbered};
use crate::strings::Strings;
use bale_items::NoMemory;
use std::alloc::Global;
use std::marker::Model;

/// Lines in the order in which they came first, each with how many times it came. An equal line is
/// looked up by its hash. One that the index doesn't find is kept a second time, with a number of
/// its own, so that no proof depends on the index.
#[derive(Drop)]
pub(crate) struct Multiset {
    lines: Strings,
    times: Vec<u64>,
    index: LineIndex,
}

impl Model for Multiset {
    ghost use Rattle.std.specs.Prelude.{List};
    ghost use Rattle.app_tally.specs.code.CountView.{numbered_lines, IsMultiset};
    ghost use Rattle.app_tally.specs.Counts.{Entry};

    ghost Value = { List Entry };

    ghost view = { λ s. numbered_lines s.lines s.times.items };

    ghost invariant = { λ s. IsMultiset s.lines s.times.items };
}

impl Multiset {
    /// No lines, whose later growth takes memory from `alloc`.
    pub(crate) fn new(alloc: Global) -> Multiset
        ensures { result ≡ [] }
    {
        Multiset {
            lines: Strings::new(alloc),
            times: Vec::new(alloc),
            index: LineIndex::new(alloc),
        }
    }

    /// Counts a line. `NoMemory` is also the answer once it was counted 2^64 - 1 times.
    pub(crate) fn count(&mut self, line: &[u8]) -> Result<(), NoMemory>
        requires { length line.now ≤ 65_535 }
        ensures { OnOk result (tally_of (counted_lines self.new)
            ≡ with_line line.now (tally_of (counted_lines self.old))) }
    {
        count_line(&mut self.lines, &mut self.times, &mut self.index, line)
    }

    /// The number of lines that are kept.
    pub(crate) fn len(&self) -> usize {
        self.lines.len()
    }

    /// Appends all lines with their numbers to `all`.
    pub(crate) fn gather<'a>(&'a self, all: &mut Vec<Numbered<'a>>) -> Result<(), NoMemory>
        ensures gathered { OnOk result (map (λ l. (l.1.now, l.2)) all.new.items
            ≡ map (λ l. (l.1.now, l.2)) all.old.items ++ self.now) }
        ensures counted { All IsLineEntry self.now }
        ensures numbers { OnOk result (All (λ l. l.0 ≡ front_number 16 l.1.now) all.old.items
            → All (λ l. l.0 ≡ front_number 16 l.1.now) all.new.items) }
    {
        gather_lines(all, &self.lines, &self.times)
    }
}

/// Counts a line: raises the number of an equal one, or appends it.
fn count_line(
    lines: &mut Strings,
    times: &mut Vec<u64>,
    index: &mut LineIndex,
    line: &[u8],
) -> Result<(), NoMemory>
    requires multiset { IsMultiset lines.old times.old.items }
    requires short { length line.now ≤ 65_535 }
    ensures multiset { IsMultiset lines.new times.new.items }
    ensures counted { OnOk result (tally_of (counted_lines (numbered_lines lines.new times.new.items))
        ≡ with_line line.now (tally_of (counted_lines (numbered_lines lines.old times.old.items)))) }
{
    if index.skips() {
        return append_line(lines, times, line);
    }
    let hash = LineIndex::hash_of(line);
    if let Some(i) = index.find(lines, hash, line) {
        return one_more(times, i);
    }
    index.add(lines, hash)?;
    append_line(lines, times, line)
}

/// Raises a number by one, if it stays below 2^64.
fn one_more(times: &mut Vec<u64>, i: usize) -> Result<(), NoMemory>
    requires { i < length times.old.items }
    ensures raised { OnOk result (times.new.items
        ≡ slice_set times.old.items i (slice_index times.old.items i + 1)) }
    ensures refused { OnErr result (times.new.items ≡ times.old.items) }
{
    match times[i].checked_add(1) {
        Some(more) => {
            times[i] = more;
            Ok(())
        }
        None => Err(NoMemory),
    }
}

/// Appends a line that was counted once. After `NoMemory` all is as before.
fn append_line(lines: &mut Strings, times: &mut Vec<u64>, line: &[u8]) -> Result<(), NoMemory>
    requires { length line.now ≤ 65_535 }
    ensures line { OnOk result (lines.new ≡ lines.old ++ line.now ∷ []) }
    ensures number { OnOk result (times.new.items ≡ times.old.items ++ 1 ∷ []) }
    ensures same_lines { OnErr result (lines.new ≡ lines.old) }
    ensures same_numbers { OnErr result (times.new.items ≡ times.old.items) }
{
    let len = times.len();
    times.push(1)?;
    match lines.push(line) {
        Ok(()) => Ok(()),
        Err(refused) => {
            times.truncate(len);
            Err(refused)
        }
    }
}

/// Appends lines with their numbers.
fn gather_lines<'a>(
    all: &mut Vec<Numbered<'a>>,
    lines: &'a Strings,
    times: &[u64],
) -> Result<(), NoMemory>
    requires { IsMultiset lines.now times.now }
    ensures gathered { OnOk result (map (λ l. (l.1.now, l.2)) all.new.items
        ≡ map (λ l. (l.1.now, l.2)) all.old.items ++ numbered_lines lines.now times.now) }
    ensures counted { All IsLineEntry (numbered_lines lines.now times.now) }
    ensures numbers { OnOk result (All (λ l. l.0 ≡ front_number 16 l.1.now) all.old.items
        → All (λ l. l.0 ≡ front_number 16 l.1.now) all.new.items) }
{
    for i in 0..lines.len() {
        all.push(numbered(lines.at(i), times[i]))?;
    }
    Ok(())
}
