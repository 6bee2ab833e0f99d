//! The answer of tally: distinct lines, each with how many times it was read.

ghost use Rattle.std.specs.Prelude.{◌≡◌, ◌≢◌, ◌<◌, ◌≤◌, ◌+◌, ◌-◌, ◌^◌, Some, OnOk, IfOk, length, map, slice_get, slice_set, slice_index, true, false};
ghost use Rattle.std.specs.List.{All};
ghost use Rattle.std.specs.List.Sorted.{IsSortedBy};
ghost use Rattle.std.specs.Ordering.{is_gt, is_lt};
ghost use Rattle.app_tally.specs.code.CountView.{numbered_lines, counted_lines, counted_times, IsCounts, IsLineEntry};
ghost use Rattle.app_tally.specs.Counts.{by_bytes, Entry, tally_of};
ghost use Rattle.app_tally.specs.Numbers.{front_number};

use crate::numbered::Numbered;
use crate::strings::Strings;
use bale_items::NoMemory;
use std::alloc::Global;
use std::marker::Model;

/// Distinct lines in the order of bytes, each with how many times it was read.
#[derive(Drop)]
pub struct Counts {
    lines: Strings,
    times: Vec<u64>,
}

impl Model for Counts {
    ghost use Rattle.std.specs.Prelude.{List};
    ghost use Rattle.app_tally.specs.code.CountView.{numbered_lines, IsCounts};
    ghost use Rattle.app_tally.specs.Counts.{Entry};

    ghost Value = { List Entry };

    ghost view = { λ c. numbered_lines c.lines c.times.items };

    ghost invariant = { λ c. IsCounts c.lines c.times.items };
}

impl Counts {
    /// The entries of these lines and numbers.
    fn of_parts(lines: Strings, times: Vec<u64>) -> Counts
        requires { IsCounts lines times.items }
        ensures { result ≡ numbered_lines lines times.items }
    {
        Counts { lines, times }
    }

    /// The number of distinct lines.
    pub fn len(&self) -> usize
        ensures { result ≡ length self.now }
    {
        self.times.len()
    }

    /// Distinct line number `i` in the order of bytes, from 0, which is below the number of
    /// distinct lines.
    pub fn line(&self, i: usize) -> &[u8]
        requires { i < length self.now }
        ensures { slice_get (map (λ e. e.0) self.now) i ≡ Some result.now }
    {
        self.lines.at(i)
    }

    /// How many times that line was read.
    pub fn times(&self, i: usize) -> u64
        requires { i < length self.now }
        ensures { slice_get (map (λ e. e.1) self.now) i ≡ Some result }
    {
        self.times[i]
    }
}

/// The tally of lines with numbers: they are sorted, and then equal ones are side by side.
pub(crate) fn tally_all(alloc: Global, lines: Vec<Numbered<'_>>) -> Result<Counts, NoMemory>
    requires counted { All IsLineEntry (map (λ l. (l.1.now, l.2)) lines.items) }
    requires numbers { All (λ l. l.0 ≡ front_number 16 l.1.now) lines.items }
    ensures { IfOk result (λ c. c ≡ tally_of (counted_lines (map (λ l. (l.1.now, l.2)) lines.entry.items))) }
{
    let mut sorted = lines;
    // A sort by the numbers alone is fast; the second one passes over lines that are in order, and
    // sorts those that have the same number.
    sorted.sort_unstable_by_key(|l| l.0);
    sorted.sort_unstable();
    count_sorted(alloc, sorted.as_slice())
}

/// The tally of lines with numbers that are in order.
fn count_sorted(alloc: Global, sorted: &[Numbered<'_>]) -> Result<Counts, NoMemory>
    requires order { IsSortedBy (λ (e : Entry) (f : Entry). is_lt (by_bytes e.0 f.0))
        (map (λ l. (l.1.now, l.2)) sorted.now) }
    requires counted { All IsLineEntry (map (λ l. (l.1.now, l.2)) sorted.now) }
    ensures { IfOk result (λ c. c ≡ tally_of (counted_lines (map (λ l. (l.1.now, l.2)) sorted.now))) }
{
    let mut lines = Strings::new(alloc);
    let mut times = Vec::new(alloc);
    for line in sorted {
        count(&mut lines, &mut times, line.1, line.2)?;
    }
    Ok(Counts::of_parts(lines, times))
}

/// Counts a line `more` times, which is no less than those counted so far.
fn count(lines: &mut Strings, times: &mut Vec<u64>, line: &[u8], more: u64) -> Result<(), NoMemory>
    requires counts { IsCounts lines.old times.old.items }
    requires last { All (λ e. is_gt (by_bytes e.0 line.now) ≡ false) (numbered_lines lines.old times.old.items) }
    requires some { 0 < more }
    requires short { length line.now ≤ 65_535 }
    ensures counts { OnOk result (IsCounts lines.new times.new.items) }
    ensures counted { OnOk result (numbered_lines lines.new times.new.items
        ≡ counted_times more line.now (numbered_lines lines.old times.old.items)) }
{
    if ends_with(lines, line) {
        return raise_last(times, more);
    }
    lines.push(line)?;
    times.push(more)?;
    Ok(())
}

/// Whether the last of lines is this one.
fn ends_with(lines: &Strings, line: &[u8]) -> bool
    ensures last { result ≡ true → slice_get lines.now (length lines.now - 1) ≡ Some line.now }
    ensures other { result ≡ false → slice_get lines.now (length lines.now - 1) ≢ Some line.now }
{
    let len = lines.len();
    len > 0 && lines.at(len - 1) == line
}

/// Raises the last number, if it stays below 2^64.
fn raise_last(times: &mut Vec<u64>, more: u64) -> Result<(), NoMemory>
    requires { 0 < length times.old.items }
    ensures { OnOk result (times.new.items ≡ slice_set times.old.items (length times.old.items - 1)
        (slice_index times.old.items (length times.old.items - 1) + more)) }
{
    let last = times.len() - 1;
    let Some(sum) = times[last].checked_add(more) else {
        return Err(NoMemory);
    };
    times[last] = sum;
    Ok(())
}
