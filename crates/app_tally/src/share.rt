//! The lines of one rank, among those that all ranks share.

ghost use Rattle.std.specs.Prelude.{◌≡◌, ◌<◌, ◌≤◌, ◌+◌, ◌-◌, ◌/◌, ◌^◌, [], Some, length, slice_get};
ghost use Rattle.std.specs.Arc.{arc_value};
ghost use Rattle.std.specs.List.{All};
ghost use Rattle.round_program.specs.Ranks.{IsRankOf};
ghost use Rattle.elastic.specs.Spelling.{IsLetter};
ghost use Rattle.app_tally.specs.TallyRuns.{own_lines};

use crate::strings::Strings;
use std::alloc::Global;
use std::marker::Model;
use std::sync::Arc;

/// The lines of one rank. They stay where the text is, which all ranks share.
#[derive(Drop)]
pub(crate) struct Share {
    /// the lines of all ranks
    lines: Arc<Strings, Global>,
    ranks: usize,
    rank: usize,
    /// how many lines the rank has; none once they were sent
    len: usize,
}

impl Model for Share {
    ghost use Rattle.std.specs.Prelude.{ℕ, List};
    ghost use Rattle.std.specs.Arc.{arc_value};
    ghost use Rattle.app_tally.specs.code.ShareView.{shared_lines, IsShare};

    ghost Value = { List (List ℕ) };

    ghost view = { λ s. shared_lines s.ranks s.rank s.len (arc_value s.lines) };

    ghost invariant = { λ s. IsShare s.ranks s.rank s.len (arc_value s.lines) };
}

impl Share {
    /// All lines of a rank.
    pub(crate) fn new(lines: Arc<Strings, Global>, ranks: u32, rank: u32) -> Share
        requires rank { IsRankOf ranks rank }
        requires few { length (arc_value lines) ≤ 16_777_216 }
        ensures { result ≡ own_lines ranks rank (arc_value lines) }
    {
        let len = how_many(lines.len(), ranks as usize, rank as usize);
        Share {
            lines,
            ranks: ranks as usize,
            rank: rank as usize,
            len,
        }
    }

    /// The number of lines.
    pub(crate) fn len(&self) -> usize
        ensures value { result ≡ length self.now }
        ensures letters { All IsLetter self.now }
    {
        let _lines = self.lines.len();
        self.len
    }

    /// Line number `i`, which is below the number of lines.
    pub(crate) fn at(&self, i: usize) -> &[u8]
        requires { i < length self.now }
        ensures { slice_get self.now i ≡ Some result.now }
    {
        self.lines.at(i * self.ranks + self.rank)
    }

    /// Leaves no line.
    pub(crate) fn forget(&mut self)
        ensures { self.new ≡ [] }
    {
        self.len = 0;
    }
}

/// How many of `len` lines a rank has.
fn how_many(len: usize, step: usize, first: usize) -> usize
    requires own { first < step }
    requires small { len + step < 2 ^ 64 }
    ensures { result ≡ (len + (step - 1 - first)) / step }
{
    (len + (step - 1 - first)) / step
}
