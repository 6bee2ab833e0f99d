//! What the values of the options give.

ghost use Rattle.std.specs.Prelude.{◌≡◌, ◌≤◌, ◌<◌, [], ◌∷◌, Some, None, true, false, if◌then◌else◌};
ghost use Rattle.std.specs.Option.{option_map};
ghost use Rattle.bale_words.specs.declared.command.Transport.TheVariants.{Convey};
ghost use Rattle.bale_words.specs.declared.command.Driving.TheVariants.{Threads};
ghost use Rattle.bale_words.specs.Reading.{Reads};
ghost use Rattle.bale_words.specs.Values.{as_grid, or_default, if_given, is_text, grid_of, slots_of, buffer_of, steady_of, driving_of, transport_of, has_biconvey, generated_by, generated_of, most_entries};

use crate::command::{Driving, Generated, Transport};
use crate::fault::WordsFault;
use crate::numbers::{first_part, number_between, numbers_between};
use crate::task::TaskName;
use item_buffer::{MOST_ENTRIES, is_capacity};
use port_bank::{MOST_SLOTS, is_slot_count};
use route_tensor::Grid;
use std::alloc::Global;

/// The grid of `--grid`; 4 if it isn't given.
pub(crate) fn read_grid(alloc: Global, text: Option<&str>) -> Result<Grid, WordsFault>
    ensures { Reads (or_default (4 ∷ []) grid_of (option_map (λ s. s.now) text.entry)) result }
{
    match text {
        None => make_grid(&[4]),
        Some(text) => grid_from(alloc, text.as_bytes()),
    }
}

#[tactic(auto, unfolding(crate::specs::Values::grid_of))]
fn grid_from(alloc: Global, text: &[u8]) -> Result<Grid, WordsFault>
    ensures { Reads (grid_of text.now) result }
{
    let dims = numbers_between(alloc, b'x', 1, 64, text)?;
    make_grid(dims.as_slice())
}

fn make_grid(dims: &[u32]) -> Result<Grid, WordsFault>
    ensures { Reads (as_grid dims.now) result }
{
    match Grid::new(dims) {
        Ok(grid) => Ok(grid),
        Err(_) => Err(WordsFault::Usage),
    }
}

/// The number of `--slots`; 2 if it isn't given.
pub(crate) fn read_slots(text: Option<&str>) -> Option<u32>
    ensures { result ≡ or_default 2 slots_of (option_map (λ s. s.now) text.entry) }
{
    match text {
        None => Some(2),
        Some(text) => slots_from(text.as_bytes()),
    }
}

#[tactic(auto, unfolding(crate::specs::Values::slots_of))]
fn slots_from(text: &[u8]) -> Option<u32>
    ensures { result ≡ slots_of text.now }
{
    let n = number_between(1, MOST_SLOTS as u64, text)? as u32;
    if is_slot_count(n) { Some(n) } else { None }
}

/// The number of `--buffer`; 64 if it isn't given.
pub(crate) fn read_buffer(text: Option<&str>) -> Option<u32>
    ensures { result ≡ or_default 64 buffer_of (option_map (λ s. s.now) text.entry) }
{
    match text {
        None => Some(64),
        Some(text) => buffer_from(text.as_bytes()),
    }
}

#[tactic(auto, unfolding(crate::specs::Values::buffer_of))]
fn buffer_from(text: &[u8]) -> Option<u32>
    ensures { result ≡ buffer_of text.now }
{
    let n = number_between(1, MOST_ENTRIES as u64, text)? as u32;
    if is_capacity(n) { Some(n) } else { None }
}

#[tactic(auto, unfolding(crate::specs::Values::is_text))]
pub(crate) fn is_word(word: &str, text: &str) -> bool
    ensures { result ≡ is_text word.now text.now }
{
    text == word
}

/// The answer of `--steady`; no if it isn't given.
#[tactic(auto, unfolding(crate::specs::Values::steady_of))]
pub(crate) fn read_steady(text: Option<&str>) -> Option<bool>
    ensures { result ≡ or_default false steady_of (option_map (λ s. s.now) text.entry) }
{
    match text {
        None => Some(false),
        Some(text) if is_word("yes", text) => Some(true),
        Some(text) if is_word("no", text) => Some(false),
        Some(_) => None,
    }
}

/// The drive of `--drive`; threads if it isn't given.
#[tactic(auto, unfolding(crate::specs::Values::driving_of))]
pub(crate) fn read_driving(text: Option<&str>) -> Option<Driving>
    ensures { result ≡ or_default Threads driving_of (option_map (λ s. s.now) text.entry) }
{
    match text {
        None => Some(Driving::Threads),
        Some(text) if is_word("threads", text) => Some(Driving::Threads),
        Some(text) if is_word("serial", text) => Some(Driving::Serial),
        Some(_) => None,
    }
}

/// The transport of `--via`; conveyors if it isn't given.
#[tactic(auto, unfolding(crate::specs::Values::transport_of))]
pub(crate) fn read_transport(application: TaskName, text: Option<&str>) -> Option<Transport>
    ensures { result ≡ or_default Convey (transport_of application) (option_map (λ s. s.now) text.entry) }
{
    match text {
        None => Some(Transport::Convey),
        Some(text) if is_word("convey", text) => Some(Transport::Convey),
        Some(text) if is_word("exstack", text) => Some(Transport::Exstack),
        Some(text) if is_word("biconvey", text) => biconvey_for(application),
        Some(_) => None,
    }
}

fn biconvey_for(application: TaskName) -> Option<Transport>
    ensures { result ≡ (if has_biconvey application then Some Transport.Biconvey else None) }
{
    if application == TaskName::Ig {
        Some(Transport::Biconvey)
    } else {
        None
    }
}

/// The matrix of `--gen`, if it is given.
pub(crate) fn read_generated(text: Option<&str>) -> Option<Option<Generated>>
    ensures { result ≡ if_given generated_of (option_map (λ s. s.now) text.entry) }
{
    match text {
        None => Some(None),
        Some(text) => Some(Some(generated_from(text.as_bytes())?)),
    }
}

#[tactic(auto, using(crate::proofs::Parts::four_parts), unfolding(crate::specs::Values::generated_of))]
fn generated_from(text: &[u8]) -> Option<Generated>
    ensures { result ≡ generated_of text.now }
{
    let (n, rest) = first_part(b',', text);
    let (m, rest) = first_part(b',', rest?);
    let (seed, rest) = first_part(b',', rest?);
    match rest {
        None => generated_by(n, m, seed),
        Some(_) => None,
    }
}

/// A matrix of these three numbers.
fn generated_by(n: &[u8], m: &[u8], seed: &[u8]) -> Option<Generated>
    ensures { result ≡ generated_by (n.now ∷ m.now ∷ seed.now ∷ []) }
{
    let rows = number_between(1, 16_384, n)?;
    let entries = number_between(rows, most_entries(rows), m)?;
    let seed = number_between(0, u64::MAX, seed)?;
    Some(Generated {
        rows: rows as u32,
        entries: entries as u32,
        seed,
    })
}

/// The most entries of a generated matrix with so many rows.
fn most_entries(rows: u64) -> u64
    requires { rows ≤ 16384 }
    ensures value { result ≡ most_entries rows }
    ensures small { result ≤ 262144 }
{
    (rows * (rows + 1) / 2).min(262_144)
}
