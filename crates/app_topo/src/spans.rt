//! The places of a column's entries among those of all own columns in order. Once they are in
//! order it is noted for each own column; what was noted is a guess, looked at before it is taken,
//! and if it is wrong a search by halving answers.

ghost use Rattle.std.specs.Prelude.{◌≡◌, ◌<◌, ◌≤◌, ◌==◌, ℕ, length, slice_index_or};
ghost use Rattle.std.specs.List.{filter};
ghost use Rattle.bale_items.specs.declared.triple.Triple.{Triple};
ghost use Rattle.mtx_text.specs.Cells.{InOrder};
ghost use Rattle.app_topo.specs.code.TopoPlaces.{SplitsAt};

use bale_items::Triple;

/// Places of entries, from the first one to behind the last one.
#[derive(Clone, Copy)]
pub(crate) struct Span {
    pub(crate) from: usize,
    pub(crate) to: usize,
}

/// Notes if the entries of each own column stand.
pub(crate) fn note_spans(spans: &mut Vec<Span>, ranks: u32, columns: &[Triple])
    requires { 0 < ranks }
{
    let mut column = 0;
    let mut from = 0;
    for to in 0..columns.len() {
        let next = columns[to].i;
        if next != column {
            note(spans, ranks, column, Span { from, to });
            column = next;
            from = to;
        }
    }
    let to = columns.len();
    note(spans, ranks, column, Span { from, to });
}

#[inline(always)]
fn note(spans: &mut Vec<Span>, ranks: u32, column: u32, span: Span)
    requires { 0 < ranks }
{
    if let Some(noted) = spans.get_mut((column / ranks) as usize) {
        *noted = span;
    }
}

/// The entries of column `c`.
pub(crate) fn entries_of_column<'a>(
    columns: &'a [Triple],
    spans: &[Span],
    ranks: u32,
    c: u32,
) -> &'a [Triple]
    requires some { 0 < ranks }
    requires ordered { InOrder columns.now }
    ensures { result.now ≡ filter (λ u. u.i == c) columns.now }
{
    let guess = guessed(spans, ranks, c);
    let from = place_of(columns, c as u64, guess.from);
    let to = place_of(columns, c as u64 + 1, guess.to);
    &columns[from..to]
}

/// The places that the entries of a column may have.
#[inline(always)]
fn guessed(spans: &[Span], ranks: u32, c: u32) -> Span
    requires { 0 < ranks }
{
    match spans.get((c / ranks) as usize) {
        Some(span) => *span,
        None => Span { from: 0, to: 0 },
    }
}

/// The place of the first entry of column `c` or a later one.
#[inline(always)]
fn place_of(columns: &[Triple], c: u64, guess: usize) -> usize
    requires { InOrder columns.now }
    ensures { SplitsAt c result columns.now }
{
    if guess > columns.len() {
        return first_of(columns, c);
    }
    if c < bound_before(columns, guess) {
        return first_of(columns, c);
    }
    if bound_from(columns, guess) < c {
        return first_of(columns, c);
    }
    guess
}

/// A number above all columns before a place.
#[inline(always)]
fn bound_before(columns: &[Triple], at: usize) -> u64
    requires ordered { InOrder columns.now }
    requires within { at ≤ length columns.now }
    ensures { (k : ℕ) (d : Triple) → k < at → (slice_index_or columns.now k d).i < result }
{
    if at == 0 {
        return 0;
    }
    columns[at - 1].i as u64 + 1
}

/// A number above no column from a place on.
#[inline(always)]
fn bound_from(columns: &[Triple], at: usize) -> u64
    requires { InOrder columns.now }
    ensures { (k : ℕ) (d : Triple) → at ≤ k → k < length columns.now → result ≤ (slice_index_or columns.now k d).i }
{
    if at >= columns.len() {
        return u64::MAX;
    }
    columns[at].i as u64
}

/// The place that `place_of` finds, by halving.
#[inline(never)]
fn first_of(columns: &[Triple], c: u64) -> usize
    requires { InOrder columns.now }
    ensures { SplitsAt c result columns.now }
{
    let mut low = 0;
    let mut high = columns.len();
    while low < high {
        let middle = low + (high - low) / 2;
        if (columns[middle].i as u64) < c {
            low = middle + 1;
        } else {
            high = middle;
        }
    }
    low
}
