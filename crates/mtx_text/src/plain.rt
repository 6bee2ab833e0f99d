//! Plain entry lines, read in one pass: numbers of few digits, one space between two of them, and
//! LF, or CR and LF, at once behind the last. Most texts have no other lines; whatever isn't of
//! this form is read the general way.
ghost use Rattle.std.specs.Prelude.{◌≡◌, ◌<◌, true, false, Some, ◌+◌, ◌-◌, length, drop, IfSome, IfOk, IfErr};
ghost use Rattle.std.specs.Char.{is_ascii_digit};
ghost use Rattle.mtx_text.specs.declared.kind.Kind.TheVariants as Kind;
ghost use Rattle.mtx_text.specs.code.PlainLines.{LineAt, DigitsEnd, LastAt, MayRead, ReadsOne, IsFew, TwoAt, FrontAt, IsPlain, LeadingDigits};

use crate::digit_lanes::{no_digits, number_of};
use crate::integer::Integer;
use crate::lines::behind;
use crate::numbers::Fields;

/// Digits of a plain number at most, so that none wraps.
const MOST_DIGITS: usize = 18;

/// Digits of a number at most that is read at once: as many as an index has.
const FEW_DIGITS: usize = 5;

/// Bytes that a plain line has with what follows it, at least: so many that no look at one of
/// its first two numbers asks whether it is still within the text.
const WINDOW: usize = 24;

/// The digits that a text begins with: their number, and how many they are.
#[derive(Clone, Copy)]
struct Digits {
    size: u64,
    len: usize,
}

/// Two runs of digits, with a space between them, and the bits of the bytes that are no digits,
/// from one byte behind the second run on.
#[derive(Clone, Copy)]
struct Two {
    row: Digits,
    column: Digits,
    others: u64,
}

/// The first two words of a line, and what follows them and their spaces.
#[derive(Clone, Copy)]
pub(crate) struct Front<'a> {
    two: Two,
    pub(crate) rest: &'a [u8],
}

/// The digits that a line ends with: their number, how many they are, and if the next line
/// begins.
#[derive(Clone, Copy)]
struct Ending {
    size: u64,
    len: usize,
    next: usize,
}

/// The last word of a line: its integer, how many bytes it has, and if the next line begins.
#[derive(Clone, Copy)]
pub(crate) struct Last {
    value: Integer,
    len: usize,
    next: usize,
}

/// The fields of a plain line, how many bytes it has, and if the next line begins.
#[derive(Clone, Copy)]
pub(crate) struct Plain {
    pub(crate) fields: Fields,
    pub(crate) len: usize,
    pub(crate) next: usize,
}

/// The row and the column of a line of three words that a text begins with.
#[inline(always)]
pub(crate) fn front_of_three(text: &[u8]) -> Option<Front<'_>>
    ensures { IfSome result (λ front. FrontAt text.now front.two front.rest.now) }
{
    let two = two_numbers(text)?;
    let end = two.row.len + 1 + two.column.len;
    if text[end] != b' ' {
        return None;
    }
    Some(Front {
        two,
        rest: behind(end, text),
    })
}

/// The value at the end of such a line, if it is one of few digits.
#[inline(always)]
pub(crate) fn short_value(front: Front<'_>) -> Option<Last>
    requires { IsFew front.two front.rest.now }
    ensures { IfSome result (λ last. LastAt front.entry.rest.now last.len last.next last.value) }
{
    let len = front.two.others.trailing_zeros() as usize;
    if len == 0 || len > FEW_DIGITS {
        return None;
    }
    let end = line_end(front.rest, len)?;
    Some(Last {
        value: natural(number_of(front.rest, len)),
        len,
        next: len + end,
    })
}

/// The plain line of these three words.
#[inline(always)]
pub(crate) fn plain_three(text: &[u8], front: Front<'_>, last: Last) -> Plain
    requires front { FrontAt text.now front.two front.rest.now }
    requires last { LastAt front.rest.now last.len last.next last.value }
    ensures { IsPlain Kind.Integer text.now result }
{
    let Two { row, column, .. } = front.two;
    Plain {
        fields: Fields {
            row: Some(natural(row.size)),
            column: Some(natural(column.size)),
            value: Some(last.value),
        },
        len: row.len + 1 + column.len + 1 + last.len,
        next: row.len + 1 + column.len + 1 + last.next,
    }
}

/// The plain line of row and column, whose value is 1, that a text begins with.
#[inline(always)]
pub(crate) fn plain_two(text: &[u8]) -> Option<Plain>
    ensures { IfSome result (IsPlain Kind.Pattern text.now) }
{
    let Two { row, column, .. } = two_numbers(text)?;
    let end = line_end(behind(row.len, text), column.len)?;
    Some(Plain {
        fields: Fields {
            row: Some(natural(row.size)),
            column: Some(natural(column.size)),
            value: Some(natural(1)),
        },
        len: row.len + 1 + column.len,
        next: row.len + 1 + (column.len + end),
    })
}

/// The numbers of the two runs of few digits that a text begins with, with one space between them
/// and another byte behind.
#[inline(always)]
fn two_numbers(text: &[u8]) -> Option<Two>
    ensures { IfSome result (TwoAt text.now) }
{
    if text.len() < WINDOW {
        return None;
    }
    let others = no_digits(text);
    let len = others.trailing_zeros() as usize;
    if len == 0 || len > FEW_DIGITS || text[len] != b' ' {
        return None;
    }
    let width = (others >> (len + 1)).trailing_zeros() as usize;
    if width == 0 || width > FEW_DIGITS {
        return None;
    }
    let row = Digits {
        size: number_of(text, len),
        len,
    };
    let column = Digits {
        size: number_of(behind(len, text), width),
        len: width,
    };
    Some(Two {
        row,
        column,
        others: others >> (len + 1 + (width + 1)),
    })
}

#[inline(always)]
fn natural(size: u64) -> Integer
    ensures { result ≡ record { minus = false; size = size } }
{
    Integer { minus: false, size }
}

/// The word that a text begins with, if it is digits behind a minus or no sign, and the line
/// ends with it.
#[inline(never)]
#[tactic(auto, using(crate::proofs::PlainLines::digits_last))]
pub(crate) fn last_word(text: &[u8]) -> Option<Last>
    ensures { IfSome result (λ last. LastAt text.now last.len last.next last.value) }
{
    if text.is_empty() || text[0] != b'-' {
        let digits = last_digits(text)?;
        return Some(Last {
            value: natural(digits.size),
            len: digits.len,
            next: digits.next,
        });
    }
    let digits = last_digits(behind(0, text))?;
    Some(Last {
        value: Integer {
            minus: true,
            size: digits.size,
        },
        len: digits.len + 1,
        next: digits.next + 1,
    })
}

/// The digits that a text begins with, if they are at most `MOST_DIGITS` and the line ends with
/// them.
#[inline(always)]
fn last_digits(text: &[u8]) -> Option<Ending>
    ensures { IfSome result (λ e. DigitsEnd text.now e.len e.next e.size) }
{
    let digits = leading(text)?;
    if digits.len == 0 || digits.len > MOST_DIGITS {
        return None;
    }
    let end = line_end(text, digits.len)?;
    Some(Ending {
        size: digits.size,
        len: digits.len,
        next: digits.len + end,
    })
}

/// How many bytes end the line behind its first `len` bytes: one LF, or CR and LF.
#[inline(always)]
#[tactic(auto, using(crate::proofs::PlainLines::ends_in_lf, crate::proofs::PlainLines::ends_in_cr_lf))]
fn line_end(text: &[u8], len: usize) -> Option<usize>
    requires { len < length text.now }
    ensures { IfSome result (λ end. LineAt (drop len text.now) 0 end) }
{
    if text[len] == b'\n' {
        return Some(1);
    }
    if text[len] == b'\r' && len + 1 < text.len() && text[len + 1] == b'\n' {
        return Some(2);
    }
    None
}

/// The digits that a text begins with, if another byte follows. The number of too many digits
/// wraps: it is cheaper to count them once than to look at each whether it is one too many.
#[inline(always)]
fn leading(text: &[u8]) -> Option<Digits>
    ensures { IfSome result (LeadingDigits text.now) }
{
    if text.len() <= UNROLLED {
        return more_digits(text);
    }
    match few_digits(text) {
        Err(digits) => Some(digits),
        Ok(_) => more_digits(text),
    }
}

/// As many digits as are read one by one, without a loop.
const UNROLLED: usize = 5;

/// The digits that a text begins with, as an error if they are fewer than `UNROLLED`.
#[inline(always)]
fn few_digits(text: &[u8]) -> Result<Digits, Digits>
    requires { 5 < length text.now }
    ensures { IfErr result (LeadingDigits text.now) }
{
    let one = digit_more(text, Digits { size: 0, len: 0 })?;
    let two = digit_more(text, one)?;
    let three = digit_more(text, two)?;
    let four = digit_more(text, three)?;
    let five = digit_more(text, four)?;
    digit_more(text, five)
}

/// One digit more, or as an error the digits as they are, if no digit follows.
#[inline(always)]
fn digit_more(text: &[u8], digits: Digits) -> Result<Digits, Digits>
    requires { MayRead text.now digits }
    ensures more { IfOk result (ReadsOne text.now digits) }
    ensures same { IfErr result (λ d. d ≡ digits) }
{
    let digit = (text[digits.len] as u64).wrapping_sub(b'0' as u64);
    if digit > 9 {
        return Err(digits);
    }
    Ok(Digits {
        size: digits.size * 10 + digit,
        len: digits.len + 1,
    })
}

/// The digits that a text begins with, however many, if another byte follows.
#[inline(always)]
fn more_digits(text: &[u8]) -> Option<Digits>
    ensures { IfSome result (LeadingDigits text.now) }
{
    let mut size: u64 = 0;
    for (i, b) in text.iter().enumerate() {
        if !b.is_ascii_digit() {
            return Some(Digits { size, len: i });
        }
        size = size.wrapping_mul(10).wrapping_add((*b - b'0') as u64);
    }
    None
}
