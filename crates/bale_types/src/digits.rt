//! The text of numbers, laid into a buffer behind the bytes that it holds: each call says where the
//! next is laid.
//!
//! Numbers are printed by itoa, except if a line is written for each entry of a matrix: there
//! rows, columns and most values have at most five digits, and tables lay them down in half the
//! instructions.
ghost use Rattle.std.specs.Prelude.{◌≡◌, ◌+◌, ◌/◌, ◌%◌, ◌<◌, ◌≤◌, [], ◌∷◌, length};
ghost use Rattle.std.specs.Fmt.{decimal, signed_decimal};
ghost use Rattle.bale_types.specs.Digits.{four, IsLaid};

use super::fours::Fours;
use itoa::{Buffer, Integer};

/// The two digits of each number below 100: a look costs less than two divisions.
static PAIRS: [u8; 200] =
    *b"00010203040506070809101112131415161718192021222324252627282930313233343536373839404142434445464748495051525354555657585960616263646566676869707172737475767778798081828384858687888990919293949596979899";

/// Lays a byte behind the first `at` bytes of a buffer, and says where it ends.
#[inline(always)]
pub fn lay_byte(buffer: &mut [u8], at: usize, b: u8) -> usize
    requires { at + 1 ≤ length buffer.old }
    ensures laid { IsLaid 1 at result buffer.old buffer.new (b ∷ []) }
    ensures end { result ≡ at + 1 }
{
    buffer[at] = b;
    at + 1
}

/// Lays the decimal text of `n`, for which there must be room for 20 bytes. Up to five digits are
/// written in place.
#[inline(always)]
fn lay_natural(buffer: &mut [u8], at: usize, n: u64) -> usize
    requires { at + 20 ≤ length buffer.old }
    ensures { IsLaid 20 at result buffer.old buffer.new (decimal n) }
{
    if n < 100 {
        two_digits(buffer, at, n as u32)
    } else if n < 10_000 {
        four_digits(buffer, at, n as u32)
    } else if n < 100_000 {
        five_digits(buffer, at, n as u32)
    } else {
        lay_number(buffer, at, n)
    }
}

/// Lays the decimal text of `n`, for which there must be room for 20 bytes, by a look into a table
/// for most rows and columns.
#[inline(always)]
pub fn lay_natural_by(buffer: &mut [u8], at: usize, fours: &Fours, n: u64) -> usize
    requires { at + 20 ≤ length buffer.old }
    ensures { IsLaid 20 at result buffer.old buffer.new (decimal n) }
{
    if n < 1_000 || 100_000 <= n {
        lay_natural(buffer, at, n)
    } else if n < 10_000 {
        four_by(buffer, at, fours, n as u32)
    } else {
        five_by(buffer, at, fours, n as u32)
    }
}

/// Lays the decimal text of a number with or without a sign, for which there must be room for 20
/// bytes.
#[inline(always)]
pub fn lay_integer(buffer: &mut [u8], at: usize, n: i64) -> usize
    requires { at + 20 ≤ length buffer.old }
    ensures { IsLaid 20 at result buffer.old buffer.new (signed_decimal n) }
{
    if 0 <= n {
        lay_natural(buffer, at, n as u64)
    } else {
        lay_number(buffer, at, n)
    }
}

/// Lays the decimal text of any number, by itoa.
#[inline(never)]
fn lay_number<I: Integer>(buffer: &mut [u8], at: usize, n: I) -> usize
    requires { at + I.MAX_STR_LEN ≤ length buffer.old }
    ensures { IsLaid I.MAX_STR_LEN at result buffer.old buffer.new (I.text n) }
{
    let mut digits = Buffer::new();
    lay_text(buffer, at, digits.format(n).as_bytes())
}

/// Lays bytes behind the first `at` bytes of a buffer, and says where they end.
pub(crate) fn lay_text(buffer: &mut [u8], at: usize, t: &[u8]) -> usize
    requires { at + length t.now ≤ length buffer.old }
    ensures laid { IsLaid (length t.now) at result buffer.old buffer.new t.now }
    ensures end { result ≡ at + length t.now }
{
    let end = at + t.len();
    buffer[at..end].copy_from_slice(t);
    end
}

/// Writes a number of at most two digits behind the first `at` bytes of a buffer, and says where it
/// ends.
#[inline(always)]
fn two_digits(buffer: &mut [u8], at: usize, n: u32) -> usize
    requires room { at + 2 ≤ length buffer.old }
    requires few { n < 100 }
    ensures { IsLaid 2 at result buffer.old buffer.new (decimal n) }
{
    if n < 10 {
        digit(buffer, at, n);
        return at + 1;
    }
    pair(buffer, at, n);
    at + 2
}

/// Writes a number of three or four digits behind the first `at` bytes of a buffer, and says where
/// it ends.
#[inline(always)]
fn four_digits(buffer: &mut [u8], at: usize, n: u32) -> usize
    requires room { at + 4 ≤ length buffer.old }
    requires many { 100 ≤ n }
    requires few { n < 10_000 }
    ensures { IsLaid 4 at result buffer.old buffer.new (decimal n) }
{
    let next = two_digits(buffer, at, n / 100);
    pair(buffer, next, n % 100);
    next + 2
}

/// Writes a number of five digits behind the first `at` bytes of a buffer, and says where it ends.
#[inline(always)]
fn five_digits(buffer: &mut [u8], at: usize, n: u32) -> usize
    requires room { at + 5 ≤ length buffer.old }
    requires many { 10_000 ≤ n }
    requires few { n < 100_000 }
    ensures { IsLaid 5 at result buffer.old buffer.new (decimal n) }
{
    let rest = n % 10_000;
    digit(buffer, at, n / 10_000);
    pair(buffer, at + 1, rest / 100);
    pair(buffer, at + 3, rest % 100);
    at + 5
}

/// Writes a number of four digits behind the first `at` bytes by a look, and says where it ends.
#[inline(always)]
fn four_by(buffer: &mut [u8], at: usize, fours: &Fours, n: u32) -> usize
    requires room { at + 4 ≤ length buffer.old }
    requires many { 1_000 ≤ n }
    requires few { n < 10_000 }
    ensures { IsLaid 4 at result buffer.old buffer.new (decimal n) }
{
    look(buffer, at, fours, n);
    at + 4
}

/// Writes a number of five digits behind the first `at` bytes by a digit and a look, and says where
/// it ends.
#[inline(always)]
fn five_by(buffer: &mut [u8], at: usize, fours: &Fours, n: u32) -> usize
    requires room { at + 5 ≤ length buffer.old }
    requires many { 10_000 ≤ n }
    requires few { n < 100_000 }
    ensures { IsLaid 5 at result buffer.old buffer.new (decimal n) }
{
    digit(buffer, at, n / 10_000);
    look(buffer, at + 1, fours, n % 10_000);
    at + 5
}

/// Writes all four digits of a number below 10,000 behind the first `at` bytes.
#[inline(always)]
fn look(buffer: &mut [u8], at: usize, fours: &Fours, n: u32)
    requires room { at + 4 ≤ length buffer.old }
    requires few { n < 10_000 }
    ensures { IsLaid 4 at (at + 4) buffer.old buffer.new (four n) }
{
    buffer[at..at + 4].copy_from_slice(&fours.of(n));
}

/// Writes both digits of a number below 100 behind the first `at` bytes.
#[inline(always)]
fn pair(buffer: &mut [u8], at: usize, n: u32)
    requires room { at + 2 ≤ length buffer.old }
    requires few { n < 100 }
    ensures { IsLaid 2 at (at + 2) buffer.old buffer.new ((48 + n / 10) ∷ (48 + n % 10) ∷ []) }
{
    let from = n as usize * 2;
    let digits = [PAIRS[from], PAIRS[from + 1]];
    buffer[at..at + 2].copy_from_slice(&digits);
}

/// Writes a digit behind the first `at` bytes.
#[inline(always)]
fn digit(buffer: &mut [u8], at: usize, n: u32)
    requires room { at + 1 ≤ length buffer.old }
    requires few { n < 10 }
    ensures { IsLaid 1 at (at + 1) buffer.old buffer.new ((48 + n) ∷ []) }
{
    buffer[at] = b'0' + n as u8;
}
