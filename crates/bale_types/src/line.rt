//! A line of an answer before it is written: put together in place, and handed on by one call of
//! `Out::line`.
ghost use Rattle.std.specs.Prelude.{◌≡◌, ◌+◌, ◌≤◌, ℕ, List, [], ◌∷◌, length, take};
ghost use Rattle.bale_types.specs.Digits.{IsLaid, HasMore};

use super::digits::{lay_byte, lay_text};
use itoa::{Buffer, Integer};
use std::marker::Model;

/// How many bytes a line may have: enough for three numbers of 64 bits, each with a short word.
pub const LINE_ROOM: usize = 80;

/// How many bytes most lines have at most.
const SHORT: usize = 16;

/// A line of up to `LINE_ROOM` bytes.
#[derive(Drop)]
pub struct Line {
    /// The room, of which the first `len` bytes are the line's.
    room: [u8; LINE_ROOM],
    /// How many bytes the line has.
    len: usize,
}

impl Model for Line {
    ghost use Rattle.std.specs.Prelude.{◌≤◌, ℕ, List, take};
    ghost use Rattle.bale_types.specs.declared.line.TheConstants.{LINE_ROOM};

    ghost Value = { List ℕ };

    ghost view = { λ l. take l.len l.room };

    ghost invariant = { λ l. l.len ≤ LINE_ROOM };
}

impl Line {
    /// An empty line.
    pub fn new() -> Line
        ensures { result ≡ [] }
    {
        Line {
            room: [0; LINE_ROOM],
            len: 0,
        }
    }

    /// Appends one byte, for which there must be room.
    #[inline(always)]
    pub fn byte(&mut self, b: u8)
        requires { length self.old + 1 ≤ LINE_ROOM }
        ensures { HasMore 1 self.old self.new (b ∷ []) }
    {
        self.len = lay_byte(&mut self.room, self.len, b);
    }

    /// Appends bytes, for which there must be room.
    pub fn text(&mut self, t: &[u8])
        requires { length self.old + length t.now ≤ LINE_ROOM }
        ensures { HasMore (length t.now) self.old self.new t.now }
    {
        self.len = lay_text(&mut self.room, self.len, t);
    }

    /// Appends the decimal text of `n`. There must be room for the longest text of its type, which
    /// is 20 bytes for 64 bits, signed or not.
    pub fn number<I: Integer>(&mut self, n: I)
        requires { length self.old + I.MAX_STR_LEN ≤ LINE_ROOM }
        ensures { HasMore I.MAX_STR_LEN self.old self.new (I.text n) }
    {
        let mut buffer = Buffer::new();
        self.text(buffer.format(n).as_bytes());
    }

    /// Goes back to the first `n` bytes.
    #[inline(always)]
    pub fn cut(&mut self, n: usize)
        requires { n ≤ length self.old }
        ensures bytes { self.new ≡ take n self.old }
        ensures len { length self.new ≡ n }
    {
        self.len = n;
    }

    /// The line so far.
    pub fn bytes(&self) -> &[u8]
        ensures { result.now ≡ self.now }
    {
        &self.room[..self.len]
    }

    /// How many bytes the line has.
    #[inline(always)]
    pub fn len(&self) -> usize
        ensures value { result ≡ length self.now }
        ensures high { result ≤ LINE_ROOM }
    {
        self.len
    }
}

/// What has a line's text, and lays it into a buffer.
pub trait LineText {
    ghost text: { Self → List ℕ };

    /// Lays the text behind the first `at` bytes of a buffer, and says where it ends; what follows
    /// there may be anything.
    fn lay(&self, buffer: &mut [u8], at: usize) -> usize
        requires room { at + LINE_ROOM ≤ length buffer.old }
        ensures { IsLaid LINE_ROOM at result buffer.old buffer.new (text self.now) };
}

impl LineText for Line {
    ghost text = { λ l. l };

    /// Copies the room, or the front of it if the line is short, so that the copy has one of two
    /// fixed sizes.
    #[inline(always)]
    fn lay(&self, buffer: &mut [u8], at: usize) -> usize
        requires room { at + LINE_ROOM ≤ length buffer.old }
        ensures { IsLaid LINE_ROOM at result buffer.old buffer.new self.now }
    {
        let end = at + self.len;
        if self.len <= SHORT {
            buffer[at..at + SHORT].copy_from_slice(&self.room[..SHORT]);
            return end;
        }
        buffer[at..at + LINE_ROOM].copy_from_slice(&self.room);
        end
    }
}
