//! Numbers on the command line.

ghost use Rattle.std.specs.Prelude.{ℕ, ◌≡◌, ◌<◌, ◌≤◌, ◌∷◌, List, length, min, IfSome, ◌==◌};
ghost use Rattle.std.specs.Option.{option_map};
ghost use Rattle.std.specs.List.{slice_split};
ghost use Rattle.bale_words.specs.Numbers.{number_of, number_in, numbers_in, text_parts};
ghost use Rattle.bale_words.specs.Reading.{Reads};

use crate::fault::WordsFault;
use std::alloc::Global;
use std::marker::Model;

/// A list of numbers, as the dimensions of a grid or a permutation.
#[derive(Drop)]
pub struct Numbers {
    list: Vec<u32>,
}

impl Model for Numbers {
    ghost use Rattle.std.specs.Prelude.{ℕ, List};

    ghost Value = { List ℕ };

    ghost view = { λ n. n.list.items };
}

impl Numbers {
    /// The numbers of a list.
    pub fn of(list: Vec<u32>) -> Numbers
        ensures { result ≡ list.items }
    {
        Numbers { list }
    }

    /// The numbers, in order.
    pub fn as_slice(&self) -> &[u32]
        ensures { result.now ≡ self.now }
    {
        self.list.as_slice()
    }
}

/// Numbers from here on lie past every range of an option, so a longer one counts as this one.
const MOST: u128 = 100_000_000_000_000_000_000;

/// The number of a text, if it is one or more digits and lies in the range.
#[tactic(auto, using(crate::proofs::Ranges::within_capped), unfolding(crate::specs::Numbers::number_in))]
pub(crate) fn number_between(low: u64, high: u64, text: &[u8]) -> Option<u64>
    ensures number { result ≡ number_in low high text.now }
    ensures low { IfSome result (λ n. low ≤ n) }
    ensures high { IfSome result (λ n. n ≤ high) }
{
    let n = read_number(text)?;
    if low as u128 <= n && n <= high as u128 {
        Some(n as u64)
    } else {
        None
    }
}

/// The number that a text of digits stands for, or MOST if it is greater.
fn read_number(text: &[u8]) -> Option<u128>
    ensures { result ≡ option_map (λ n. min n MOST) (number_of text.now) }
{
    if text.is_empty() {
        return None;
    }
    let mut value: u128 = 0;
    for byte in text {
        if !byte.is_ascii_digit() {
            return None;
        }
        value = (value * 10 + (*byte - b'0') as u128).min(MOST);
    }
    Some(value)
}

/// The numbers of a text that are parted by a byte, each in the range.
#[tactic(auto, using(crate::proofs::Parts::number_more, crate::proofs::Parts::number_none), unfolding(crate::specs::Numbers::numbers_in))]
pub(crate) fn numbers_between(
    alloc: Global,
    separator: u8,
    low: u32,
    high: u32,
    text: &[u8],
) -> Result<Numbers, WordsFault>
    ensures { Reads (numbers_in separator low high text.now) result }
{
    let mut list = Vec::new(alloc);
    let mut rest = Some(text);
    while let Some(here) = rest {
        let (part, more) = first_part(separator, here);
        let Some(n) = number_between(low as u64, high as u64, part) else {
            return Err(WordsFault::Usage);
        };
        list.push(n as u32)?;
        rest = more;
    }
    Ok(Numbers { list })
}

/// What precedes the first separator, and what follows it if there is one.
#[tactic(auto, using(crate::proofs::Parts::none_more))]
pub(crate) fn first_part(separator: u8, text: &[u8]) -> (&[u8], Option<&[u8]>)
    ensures parts { slice_split (λ b. b == separator) text.now ≡ result.0.now ∷ text_parts separator
        (option_map (λ s. s.now) result.1) }
    ensures shorter { IfSome result.1 (λ rest. length rest.now < length text.now) }
{
    for i in 0..text.len() {
        if text[i] == separator {
            return (&text[..i], Some(&text[i + 1..]));
        }
    }
    (text, None)
}
