//! ig's answer as text, from ranks that each know the sums of their entries' columns.

ghost use Rattle.std.specs.Prelude.{◌≡◌, ℕ, ◌<◌, ◌+◌, ◌*◌, ◌^◌, List, map, length, slice_get, Some};
ghost use Rattle.bale_types.specs.Out.{Writes};
ghost use Rattle.bale_items.specs.declared.triple.Triple.{Triple};
ghost use Rattle.app_histo_ig.specs.ColumnAnswers.{HaveSums};
ghost use Rattle.app_histo_ig.specs.IgLines.{column_sum, ig_lines};

use bale_items::{Triple, value_of};
use bale_types::{Failed, Out, Sink};
use mtx_text::{EntryLine, Kind, Matrix};
use round_program::Progs;

/// A rank that keeps a word for each of its entries: that of entry number `e` is at `e div
/// ranks`.
pub trait Answered: Drop {
    ghost words: { Self → List ℕ };

    /// These words.
    fn answers(&self) -> &[u64]
        ensures { result.now ≡ words self.now };
}

/// Writes a line for each entry of the matrix, in order: its row and column from 1, and the sum of
/// its column.
pub(crate) fn write_sums<Q: Answered, K: Sink>(
    p: &Progs<Q>,
    m: &Matrix,
    out: &mut Out<'_, K>,
) -> Result<(), Failed>
    requires sums { HaveSums m.now.entries (map Q.words p.now) }
    ensures { Writes K.taken K.faults (ig_lines m.now.entries) out.old out.new result }
{
    let entries = m.entries();
    let ranks = p.len();
    let mut line = EntryLine::new();
    let mut at = Dealt { rank: 0, turn: 0 };
    for e in 0..entries.len() {
        line.set(Kind::Integer, summed(entries[e], sum_at(p, m, at)));
        out.line(&line)?;
        at = next(at, ranks);
    }
    Ok(())
}

/// The place of an entry's word, the entries being dealt out in turn.
#[derive(Clone, Copy)]
struct Dealt {
    rank: usize,
    turn: usize,
}

/// The place of the next entry's word.
fn next(at: Dealt, ranks: usize) -> Dealt
    requires rank { at.rank < ranks }
    requires turn { at.turn + 1 < 2 ^ 64 }
    ensures next { result.turn * ranks + result.rank ≡ at.turn * ranks + at.rank + 1 }
    ensures rank { result.rank < ranks }
{
    if at.rank + 1 < ranks {
        Dealt {
            rank: at.rank + 1,
            turn: at.turn,
        }
    } else {
        Dealt {
            rank: 0,
            turn: at.turn + 1,
        }
    }
}

/// The sum of the column of an entry, as the entry's rank has it.
fn sum_at<Q: Answered>(p: &Progs<Q>, m: &Matrix, at: Dealt) -> i64
    requires sums { HaveSums m.now.entries (map Q.words p.now) }
    requires rank { at.rank < length p.now }
    requires entry { at.turn * length p.now + at.rank < length m.now.entries }
    ensures { (t : Triple) → slice_get m.now.entries (at.turn * length p.now + at.rank) ≡ Some t
        → result ≡ column_sum t.j m.now.entries }
{
    m.known();
    let Some(own) = p.get(at.rank) else {
        unreachable!()
    };
    value_of(own.answers()[at.turn])
}

/// The place of an entry with a sum in place of its value.
fn summed(t: Triple, sum: i64) -> Triple
    ensures { result ≡ record { i = t.i; j = t.j; v = sum } }
{
    Triple {
        i: t.i,
        j: t.j,
        v: sum,
    }
}
