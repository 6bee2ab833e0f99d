//! Lines of entries, whose rows are written once: entries of one row share their front.
ghost use Rattle.std.specs.Prelude.{◌≡◌, ◌+◌, ◌≤◌, ◌<◌, ℕ, List, [], length};
ghost use Rattle.bale_types.specs.declared.line.TheConstants.{LINE_ROOM};
ghost use Rattle.bale_types.specs.Digits.{IsLaid};
ghost use Rattle.bale_items.specs.declared.triple.Triple.{Triple};
ghost use Rattle.mtx_text.specs.Written.{entry_text};
ghost use Rattle.mtx_text.specs.code.Fronts.{rest_text, line_of, Names};

use crate::kind::Kind;
use bale_items::Triple;
use bale_types::{Fours, LINE_ROOM, Line, LineText, lay_byte, lay_integer, lay_natural_by};
use std::marker::Model;

/// The line of one entry after another, seen as its bytes. Its front, which names the row, stays
/// where the next entry has the same row, and what follows is written when an output takes the
/// line.
#[derive(Drop)]
pub struct EntryLine {
    /// The digits of columns.
    fours: Fours,
    /// The row, from 1, and a blank.
    front: Line,
    /// The row that the front names, from 1; 0 if it names none yet.
    row: u64,
    /// What the value is; none if there is no entry yet.
    kind: Option<Kind>,
    /// The column, from 0.
    column: u32,
    /// The value, if it is written.
    value: i64,
}

impl Model for EntryLine {
    ghost use Rattle.std.specs.Prelude.{ℕ, List};
    ghost use Rattle.mtx_text.specs.code.Fronts.{line_of, Names};

    ghost Value = { List ℕ };

    ghost view = { λ e. line_of e.front e.kind e.column e.value };

    ghost invariant = { λ e. Names e.row e.front };
}

impl EntryLine {
    /// A line of no entry, which is empty.
    pub fn new() -> EntryLine
        ensures { result ≡ [] }
    {
        EntryLine {
            fours: Fours::new(),
            front: Line::new(),
            row: 0,
            kind: None,
            column: 0,
            value: 0,
        }
    }

    /// Becomes the line of an entry, as `write_matrix` writes it in a matrix of that kind.
    #[inline(always)]
    pub fn set(&mut self, kind: Kind, t: Triple)
        ensures { self.new ≡ entry_text kind t }
    {
        let row = t.i as u64 + 1;
        if self.row != row {
            name(&mut self.front, row);
            self.row = row;
        }
        self.kind = Some(kind);
        self.column = t.j;
        if let Kind::Integer = kind {
            self.value = t.v;
        }
    }
}

impl LineText for EntryLine {
    ghost text = { λ l. l };

    #[inline(always)]
    fn lay(&self, buffer: &mut [u8], at: usize) -> usize
        requires { at + LINE_ROOM ≤ length buffer.old }
        ensures { IsLaid LINE_ROOM at result buffer.old buffer.new self.now }
    {
        let Some(kind) = self.kind else {
            return at;
        };
        let front = self.front.lay(buffer, at);
        lay_rest(buffer, front, &self.fours, kind, self.column, self.value)
    }
}

/// Makes a line the front of a row's lines.
fn name(front: &mut Line, row: u64)
    ensures { Names row front.new }
{
    front.cut(0);
    front.number(row);
    front.byte(b' ');
}

/// Lays what follows the row in an entry's line behind the first `at` bytes of a buffer, and says
/// where it ends.
#[inline(always)]
fn lay_rest(
    buffer: &mut [u8],
    at: usize,
    fours: &Fours,
    kind: Kind,
    column: u32,
    value: i64,
) -> usize
    requires { at + 42 ≤ length buffer.old }
    ensures { IsLaid 42 at result buffer.old buffer.new (rest_text kind column value) }
{
    let column = lay_natural_by(buffer, at, fours, column as u64 + 1);
    match kind {
        Kind::Integer => {
            let blank = lay_byte(buffer, column, b' ');
            let value = lay_integer(buffer, blank, value);
            lay_byte(buffer, value, b'\n')
        }
        Kind::Pattern => lay_byte(buffer, column, b'\n'),
    }
}
