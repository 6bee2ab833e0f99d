//! Digits many at a time: if runs of them end among sixteen bytes, and the number that up to
//! five of them are.
ghost use Rattle.std.specs.Prelude.{◌≡◌, ℕ, ◌<◌, ◌≤◌, length, map};
ghost use Rattle.std.specs.Simd.Lanes.{mask_l};
ghost use Rattle.mtx_text.specs.code.PlainLines.{FewDigits, NumberTo};
ghost use Rattle.mtx_text.specs.code.DigitLanes.{is_no_digit, bits_of, lane_word, word_from, number_from};

use std::simd::prelude::*;

/// Eight digits 0.
const ZEROS: u64 = 0x3030_3030_3030_3030;

/// Which of the first sixteen bytes are no digits: the bit of the first byte is the lowest. The
/// topmost bit is set, too, so that no search for the lowest one asks whether there is any.
#[inline(always)]
pub(crate) fn no_digits(text: &[u8]) -> u64
    requires { 16 ≤ length text.now }
    ensures { result ≡ mask_l (bits_of 16 text.now) }
{
    no_digits_in(u8x16::from_slice(text)) + (1 << 63)
}

/// Which of the bytes in a vector are no digits.
#[inline(always)]
fn no_digits_in(lanes: u8x16) -> u64
    ensures { result ≡ mask_l (map is_no_digit lanes) }
{
    (lanes - u8x16::splat(b'0'))
        .simd_ge(u8x16::splat(10))
        .to_bitmask()
}

/// The number that the first `len` bytes are, all of them digits.
#[inline(always)]
pub(crate) fn number_of(text: &[u8], len: usize) -> u64
    requires { FewDigits text.now len }
    ensures { NumberTo text.now len result }
{
    value_of(front_word(text).wrapping_sub(ZEROS) << (64 - 8 * len))
}

/// The first eight bytes as a word, the first of them lowest.
#[inline(always)]
fn front_word(text: &[u8]) -> u64
    requires { 8 ≤ length text.now }
    ensures { result ≡ lane_word text.now }
{
    u64::from_le_bytes([
        text[0], text[1], text[2], text[3], text[4], text[5], text[6], text[7],
    ])
}

/// The number that the eight bytes of a word are, each of them a digit's value, the lowest byte the
/// first digit: two digits and then four are put together by a multiplication each.
#[inline(always)]
fn value_of(word: u64) -> u64
    ensures { (digit : ℕ → ℕ) → ((k : ℕ) → k < 8 → digit k ≤ 9) → word ≡ word_from digit → result ≡ number_from digit }
{
    let pairs = (word.wrapping_mul(1 + (10 << 8)) >> 8) & 0x00ff_00ff_00ff_00ff;
    let fours = pairs.wrapping_mul(1 + (100 << 16)) >> 16;
    (fours & 0xffff) * 10_000 + (fours >> 32)
}
