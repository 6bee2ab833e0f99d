//! Strings at a rank: their items are pushed, and read from the items that came.
ghost use Rattle.std.specs.Prelude.{◌≡◌, ◌≢◌, ◌≤◌, ◌==◌, ◌<◌, [], true, false, map, drop, length};
ghost use Rattle.std.specs.List.{All};
ghost use Rattle.elastic.specs.Spelling.{spelling};
ghost use Rattle.rank_handles.specs.StringCalls.{is_none_pending};
ghost use Rattle.rank_handles.specs.ElasticKept.{KeepsBegun, PendingPushed, StringPulled, ItemPulled};

use crate::answer::Answer;
use crate::cases::AnyRank;
use crate::exchange::Exchange;
use bale_items::{Item, NoMemory};
use elastic::{spell, take_from};
use hop_core::Phase;

/// The bytes of a string, which a rank has and lends.
#[repr(C)]
#[derive(Drop)]
pub struct BaleString<'a> {
    pub bytes: &'a [u8],
}

/// Whether nothing is pending of these items, of which so many were pushed.
pub(crate) fn are_none_pending(spelled: &[(u32, Item)], pushed: usize) -> bool
    ensures { result ≡ is_none_pending (drop pushed spelled.now) }
{
    pushed >= spelled.len()
}

/// Puts the spelling of a string in the place of what was there. Without memory nothing is there
/// then, and the answer is no. (Bytes are below 256, as their type says.)
pub(crate) fn spell_string(spelled: &mut Vec<(u32, Item)>, to: u32, bytes: &[u8]) -> bool
    ensures spelled { result ≡ true → spelled.new.items ≡ map (λ x. (to, x)) (spelling bytes.now) }
    ensures none { result ≡ false → spelled.new.items ≡ [] }
    ensures bytes { All (λ b. b < 256) bytes.now }
{
    spelled.clear();
    match spell(spelled, to, bytes) {
        Ok(()) => true,
        Err(NoMemory) => {
            spelled.clear();
            false
        }
    }
}

/// Pushes items from number `start` on until one finds no room. How many are pushed then, with
/// those before.
pub(crate) fn push_pending(rank: &mut AnyRank, spelled: &[(u32, Item)], start: usize) -> usize
    ensures { PendingPushed (drop start spelled.now) rank.old (drop result spelled.now) rank.new }
{
    let mut pushed = start;
    while pushed < spelled.len() {
        let (to, item) = spelled[pushed];
        match rank.push(item, to) {
            Answer::Good => pushed += 1,
            _ => return pushed,
        }
    }
    pushed
}

/// Pulls items until one makes a string whole. Its sender; `letter` is that string.
pub(crate) fn pull_string(
    rank: &mut AnyRank,
    begun: &mut Vec<Vec<Item>>,
    letter: &mut Vec<u8>,
) -> Result<u32, Answer>
    requires begun { rank.old.state.phase ≢ Phase.Dormant }
    requires read { KeepsBegun rank.old (map (λ l. l.items) begun.old.items) }
    ensures pulled { StringPulled result letter.new.items rank.old rank.new }
    ensures read { KeepsBegun rank.new (map (λ l. l.items) begun.new.items) }
{
    loop {
        if let Some(from) = pull_item(rank, begun, letter)? {
            return Ok(from);
        }
    }
}

/// Pulls one item. If it makes a string whole, the sender; `letter` is that string.
fn pull_item(
    rank: &mut AnyRank,
    begun: &mut Vec<Vec<Item>>,
    letter: &mut Vec<u8>,
) -> Result<Option<u32>, Answer>
    requires begun { rank.old.state.phase ≢ Phase.Dormant }
    requires read { KeepsBegun rank.old (map (λ l. l.items) begun.old.items) }
    ensures pulled { ItemPulled result letter.new.items rank.old rank.new }
    ensures read { KeepsBegun rank.new (map (λ l. l.items) begun.new.items) }
{
    let (from, item) = rank.pull()?;
    match take_from(begun, letter, from as usize, item) {
        Ok(true) => Ok(Some(from)),
        Ok(false) => Ok(None),
        Err(NoMemory) => {
            rank.unpull();
            Err(Answer::NoMemory)
        }
    }
}
