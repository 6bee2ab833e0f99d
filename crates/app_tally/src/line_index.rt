//! The places at which an equal line may be kept: a hash table with open addressing.

ghost use Rattle.std.specs.Prelude.{◌≡◌, true, IfSome, Some, slice_get};

use crate::strings::Strings;
use bale_items::NoMemory;
use std::alloc::Global;

/// Places of the first table; a table that is half full grows to four times as many.
const LEAST_PLACES: usize = 1024;

/// Places that are tried for a line. The bound keeps lines with equal hashes from making a search
/// long.
const MOST_TRIED: usize = 16;

/// After too few lines were found, the next ones are not looked for: so many times those that are
/// kept.
const SKIPPED: usize = 8;

/// The number in an empty place; no line has it.
const NO_LINE: u32 = 4_294_967_295;

/// Numbers of lines by the hashes of the lines. It only says where to look: a line is compared
/// before it counts as found, and may be missing here. If hardly a line comes twice, most lines
/// are neither looked for nor put here.
#[derive(Drop)]
pub(crate) struct LineIndex {
    /// a power of two of places, or none
    places: Vec<u32>,
    /// lines that were put here since it was empty
    taken: usize,
    /// lines that were looked for since then
    looked: usize,
    /// lines that are not to be looked for
    skip: usize,
}

impl LineIndex {
    /// No places, whose later growth takes memory from `alloc`.
    pub(crate) fn new(alloc: Global) -> LineIndex {
        LineIndex {
            places: Vec::new(alloc),
            taken: 0,
            looked: 0,
            skip: 0,
        }
    }

    /// The hash of a line, by its length and eight bytes at a time. The last eight may be in part
    /// those before them again.
    pub(crate) fn hash_of(line: &[u8]) -> u32 {
        let mut hash = line.len() as u64;
        let mut rest = line;
        while rest.len() > 8 {
            hash = mixed(hash, last_word(&rest[..8]));
            rest = &rest[8..];
        }
        (mixed(hash, last_word(line)) % 4_294_967_296) as u32
    }

    /// Whether the next line is not to be looked for, because few of those before it were found.
    pub(crate) fn skips(&mut self) -> bool {
        if self.skip > 0 {
            self.skip -= 1;
            return true;
        }
        self.looked = self.looked.saturating_add(1);
        false
    }

    /// The number of a line that equals this one, if there is one at a place for its hash.
    pub(crate) fn find(&self, lines: &Strings, hash: u32, line: &[u8]) -> Option<usize>
        ensures { IfSome result (λ i. slice_get lines.now i ≡ Some line.now) }
    {
        for tried in 0..MOST_TRIED {
            let i = number_at(&self.places, place_of(&self.places, hash, tried));
            if is_line(lines, i as usize, line) {
                return Some(i as usize);
            }
            if i == NO_LINE {
                return None;
            }
        }
        None
    }

    /// Puts the number of the line that comes behind these at a place for its hash. If the table
    /// is half full, it grows if a third of the lines were found, and else it is emptied.
    pub(crate) fn add(&mut self, lines: &Strings, hash: u32) -> Result<(), NoMemory> {
        if self.taken >= self.places.len() / 2 {
            if self.looked.saturating_sub(self.taken) < self.taken / 2 {
                self.forget(lines.len());
                return Ok(());
            }
            grow(&mut self.places, lines, self.taken)?;
        }
        put(&mut self.places, hash, lines.len());
        self.taken = self.taken.saturating_add(1);
        Ok(())
    }

    /// Empties the table of so many lines.
    fn forget(&mut self, lines: usize) {
        self.places.clear();
        self.taken = 0;
        self.looked = 0;
        self.skip = lines.saturating_mul(SKIPPED);
    }
}

/// A hash with one more word: both halves of a product, so that each bit depends on many.
#[inline(always)]
fn mixed(hash: u64, word: u64) -> u64 {
    let product = ((hash ^ word) as u128).wrapping_mul(0x9E37_79B9_7F4A_7C15);
    (product % 18_446_744_073_709_551_616) as u64 ^ (product >> 64) as u64
}

/// The last eight bytes of a line as a word, or of a shorter one all bytes, some of them twice.
#[inline(always)]
fn last_word(line: &[u8]) -> u64 {
    match line.last_chunk::<8>() {
        Some(word) => u64::from_le_bytes(*word),
        None => two_halves(line),
    }
}

/// The first and the last four bytes of a line as a word, or all of a line of fewer bytes.
fn two_halves(line: &[u8]) -> u64 {
    match (line.first_chunk::<4>(), line.last_chunk::<4>()) {
        (Some(first), Some(last)) => {
            u32::from_le_bytes(*first) as u64 ^ ((u32::from_le_bytes(*last) as u64) << 32)
        }
        _ => few_bytes(line),
    }
}

/// Up to eight bytes as a word.
fn few_bytes(line: &[u8]) -> u64 {
    let mut word = 0u64;
    for b in line {
        word = (word << 8) ^ *b as u64;
    }
    word
}

/// A table of four times as many places, with the numbers of the last of these lines.
fn grow(places: &mut Vec<u32>, lines: &Strings, taken: usize) -> Result<(), NoMemory> {
    let more = places.len().saturating_mul(4).max(LEAST_PLACES);
    places.clear();
    places.resize(more, NO_LINE)?;
    for i in lines.len().saturating_sub(taken)..lines.len() {
        put(places, LineIndex::hash_of(lines.at(i)), i);
    }
    Ok(())
}

/// Puts a number at the first empty place for a hash, if there is one.
fn put(places: &mut Vec<u32>, hash: u32, number: usize) {
    for tried in 0..MOST_TRIED {
        let place = place_of(places, hash, tried);
        if place < places.len() && places[place] == NO_LINE {
            places[place] = number.min(NO_LINE as usize) as u32;
            return;
        }
    }
}

/// A place for a hash, after so many that were tried.
#[inline(always)]
fn place_of(places: &[u32], hash: u32, tried: usize) -> usize {
    (hash as usize).wrapping_add(tried) & places.len().wrapping_sub(1)
}

/// The number at a place.
#[inline(always)]
fn number_at(places: &[u32], place: usize) -> u32 {
    if place < places.len() {
        places[place]
    } else {
        NO_LINE
    }
}

/// Whether line number `i` is there and is this one.
fn is_line(lines: &Strings, i: usize, line: &[u8]) -> bool
    ensures { result ≡ true → slice_get lines.now i ≡ Some line.now }
{
    i < lines.len() && lines.at(i) == line
}
