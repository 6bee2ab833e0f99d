//! Integer words read as they are cut from a line, in one pass over their digits.
ghost use Rattle.std.specs.Prelude.{◌≡◌, ◌≤◌, ◌||◌, ◌==◌, ◌∷◌, [], length, slice_index, IfNone, IfSome};
ghost use Rattle.std.specs.Option.{option_map};
ghost use Rattle.mtx_text.specs.Lines.{words_of, is_blank};
ghost use Rattle.mtx_text.specs.Integers.{integer_of};
ghost use Rattle.mtx_text.specs.Grammar.{fields_of};
ghost use Rattle.mtx_text.specs.code.Capped.{capped, read_three};
ghost use Rattle.mtx_text.specs.code.PlainLines.{CappedTo};

use crate::integer::{CAP, Integer, read_integer};
use crate::kind::Kind;
use crate::words::{cut_word, first_word, is_blank, trimmed};

/// A word read as an integer, if it is one, and the line behind it.
#[derive(Clone, Copy)]
struct Number<'a> {
    word: &'a [u8],
    value: Option<Integer>,
    rest: &'a [u8],
}

/// The words for row, column and value of an entry line, read as integers.
#[derive(Clone, Copy)]
pub(crate) struct Fields {
    pub(crate) row: Option<Integer>,
    pub(crate) column: Option<Integer>,
    pub(crate) value: Option<Integer>,
}

/// The fields of an entry line that has as many words as its kind asks for.
pub(crate) fn read_fields(kind: Kind, line: &[u8]) -> Option<Fields>
    ensures { option_map (λ f. (f.row, f.column, f.value)) result ≡ option_map read_three
        (fields_of kind (words_of line.now)) }
{
    match kind {
        Kind::Integer => three_numbers(line),
        Kind::Pattern => two_numbers(line),
    }
}

/// The fields of a line of three words.
fn three_numbers(line: &[u8]) -> Option<Fields>
    ensures { option_map (λ f. (f.row, f.column, f.value)) result ≡ option_map read_three
        (fields_of Kind.Integer (words_of line.now)) }
{
    let row = first_number(line)?;
    let column = first_number(row.rest)?;
    let value = first_number(column.rest)?;
    match first_word(value.rest) {
        None => Some(Fields {
            row: row.value,
            column: column.value,
            value: value.value,
        }),
        Some(_) => None,
    }
}

/// The fields of a pattern line, whose value is 1.
fn two_numbers(line: &[u8]) -> Option<Fields>
    ensures { option_map (λ f. (f.row, f.column, f.value)) result ≡ option_map read_three
        (fields_of Kind.Pattern (words_of line.now)) }
{
    let row = first_number(line)?;
    let column = first_number(row.rest)?;
    match first_word(column.rest) {
        None => Some(Fields {
            row: row.value,
            column: column.value,
            value: Some(Integer {
                minus: false,
                size: 1,
            }),
        }),
        Some(_) => None,
    }
}

/// The first word of a line.
#[inline(always)]
#[tactic(auto, using(crate::proofs::Numbered::number_at, crate::proofs::Numbered::number_is))]
fn first_number(line: &[u8]) -> Option<Number<'_>>
    ensures none { IfNone result (words_of line.now ≡ []) }
    ensures some { IfSome result (λ n. words_of line.now ≡ n.word.now ∷ words_of n.rest.now) }
    ensures value { IfSome result (λ n. n.value ≡ option_map capped (integer_of n.word.now)) }
{
    let line = trimmed(line);
    if line.is_empty() {
        return None;
    }
    let (size, len) = leading_digits(line);
    if len > 0 && ends_word(line, len) {
        let (word, rest) = line.split_at(len);
        let value = Some(Integer { minus: false, size });
        return Some(Number { word, value, rest });
    }
    let (word, rest) = cut_word(line);
    let value = read_integer(word);
    Some(Number { word, value, rest })
}

/// Whether a word that goes up to an index ends there.
#[inline(always)]
fn ends_word(line: &[u8], len: usize) -> bool
    requires { len ≤ length line.now }
    ensures { result ≡ (len == length line.now || is_blank (slice_index line.now len)) }
{
    len == line.len() || is_blank(line[len])
}

/// How many digits a line begins with, and their number, or the cap if that is less.
#[inline(always)]
fn leading_digits(line: &[u8]) -> (u64, usize)
    ensures { CappedTo line.now result.1 result.0 }
{
    let mut size: u64 = 0;
    for (i, b) in line.iter().enumerate() {
        if !b.is_ascii_digit() {
            return (size, i);
        }
        size = (size * 10 + (*b - b'0') as u64).min(CAP);
    }
    (size, line.len())
}
