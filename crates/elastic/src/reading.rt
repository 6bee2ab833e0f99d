//! Letters from the items that came.

ghost use Rattle.std.specs.Prelude.{◌≡◌, ◌<◌, ◌++◌, ◌∷◌, [], true, IfOk, OnOk, OnErr, cond, length, map, replicate, slice_set};
ghost use Rattle.std.specs.List.{flat_map};
ghost use Rattle.std.specs.Int.{w64, to_le_bytes};
ghost use Rattle.elastic.specs.Spelling.{further, bytes_in, letter_from};
ghost use Rattle.elastic.specs.Mails.{is_whole, letter_of, with_next_item, begun_after};

use bale_items::{Item, NoMemory};
use std::alloc::Global;

/// Whether items, no more than one letter's, are a whole letter.
fn is_whole(items: &[Item]) -> bool
    ensures { result ≡ is_whole items.now }
{
    match items {
        [] => false,
        [first, rest @ ..] => rest.len() as u64 == further(first.a % 65_536),
    }
}

/// How many items follow the first one of a letter of so many bytes.
fn further(len: u64) -> u64
    requires { len < 65_536 }
    ensures { result ≡ further len }
{
    (len.saturating_sub(16) + 23) / 24
}

/// What senders have begun before their first item: an empty list for each.
///
/// # Errors
///
/// `NoMemory` if there was none for the lists.
pub fn none_begun(alloc: Global, ranks: u32) -> Result<Vec<Vec<Item>>, NoMemory>
    ensures { IfOk result (λ v. map (λ l. l.items) v.items ≡ replicate ranks []) }
{
    let mut begun = Vec::new(alloc);
    for _sender in 0..ranks {
        begun.push(Vec::new(alloc))?;
    }
    Ok(begun)
}

/// Whether an item that comes from the rank `from` is a letter alone: nothing is begun before it,
/// and nothing follows.
#[inline(always)]
pub(crate) fn is_alone(begun: &Vec<Vec<Item>>, from: usize, item: Item) -> bool
    requires { from < length begun.now.items }
    ensures letter { result ≡ true → with_next_item (map (λ l. l.items) begun.now.items) from item ≡ item ∷ [] }
    ensures whole { result ≡ true → is_whole (item ∷ []) ≡ true }
    ensures begun { result ≡ true → begun_after (map (λ l. l.items) begun.now.items) from item
        ≡ map (λ l. l.items) begun.now.items }
{
    begun[from].is_empty() && is_whole(&[item])
}

/// The bytes of the letter that an item begins, as many as it holds.
#[inline(always)]
pub(crate) fn first_bytes(item: Item) -> [u8; 16]
    ensures { result ≡ to_le_bytes w64 item.b ++ to_le_bytes w64 item.c }
{
    let mut bytes = [0u8; 16];
    bytes[..8].copy_from_slice(&item.b.to_le_bytes());
    bytes[8..].copy_from_slice(&item.c.to_le_bytes());
    bytes
}

/// The letter that an item is alone, of the bytes that it holds.
#[inline(always)]
pub(crate) fn only_letter(bytes: &[u8; 16], item: Item) -> &[u8]
    requires whole { is_whole (item ∷ []) ≡ true }
    requires bytes { bytes.now ≡ to_le_bytes w64 item.b ++ to_le_bytes w64 item.c }
    ensures { result.now ≡ letter_of (item ∷ []) }
{
    &bytes[..(item.a % 65_536) as usize]
}

/// Takes an item in from the rank `from`, by what all senders have begun, and answers whether its
/// letter is whole now; then `letter` is that letter.
///
/// # Errors
///
/// `NoMemory`: what the senders have begun is as before, and `letter` may hold anything.
pub fn take_from(
    begun: &mut Vec<Vec<Item>>,
    letter: &mut Vec<u8>,
    from: usize,
    item: Item,
) -> Result<bool, NoMemory>
    requires { from < length begun.old.items }
    ensures whole { IfOk result (λ whole. whole
        ≡ is_whole (with_next_item (map (λ l. l.items) begun.old.items) from item)) }
    ensures begun { OnOk result (map (λ l. l.items) begun.new.items
        ≡ begun_after (map (λ l. l.items) begun.old.items) from item) }
    ensures letter { IfOk result (λ whole. whole ≡ true → letter.new.items
        ≡ letter_of (with_next_item (map (λ l. l.items) begun.old.items) from item)) }
    ensures unchanged { OnErr result (map (λ l. l.items) begun.new.items ≡ map (λ l. l.items) begun.old.items) }
    ensures senders { length begun.new.items ≡ length begun.old.items }
{
    take_in(&mut begun[from], letter, item)
}

/// Takes an item in by what its sender has begun, and answers whether its letter is whole now.
fn take_in(begun: &mut Vec<Item>, letter: &mut Vec<u8>, item: Item) -> Result<bool, NoMemory>
    ensures whole { IfOk result (λ whole. whole ≡ is_whole (begun.old.items ++ item ∷ [])) }
    ensures begun { OnOk result (begun.new.items ≡ cond (is_whole (begun.old.items ++ item ∷ [])) []
        (begun.old.items ++ item ∷ [])) }
    ensures letter { IfOk result (λ whole. whole ≡ true → letter.new.items ≡ letter_of (begun.old.items ++ item ∷ [])) }
    ensures unchanged { OnErr result (begun.new.items ≡ begun.old.items) }
{
    // A short letter is whole with its first item: then nothing is begun.
    if begun.is_empty() && is_whole(&[item]) {
        read_first(letter, item)?;
        return Ok(true);
    }
    begun.push(item)?;
    if !is_whole(begun) {
        return Ok(false);
    }
    match read_letter(letter, begun) {
        Ok(()) => {
            begun.clear();
            Ok(true)
        }
        Err(NoMemory) => {
            begun.pop();
            Err(NoMemory)
        }
    }
}

/// Forgets what all senders have begun.
pub fn forget_all(begun: &mut Vec<Vec<Item>>)
    ensures { map (λ l. l.items) begun.new.items ≡ replicate (length begun.old.items) [] }
{
    for sender in 0..begun.len() {
        forget(begun, sender);
    }
}

/// Forgets what a sender has begun.
fn forget(begun: &mut Vec<Vec<Item>>, from: usize)
    requires { from < length begun.old.items }
    ensures { map (λ l. l.items) begun.new.items ≡ slice_set (map (λ l. l.items) begun.old.items) from [] }
{
    begun[from].clear();
}

/// Puts the letter that one item is in the place of what `letter` held. After `NoMemory` it may
/// hold anything.
fn read_first(letter: &mut Vec<u8>, item: Item) -> Result<(), NoMemory>
    ensures { OnOk result (letter.new.items ≡ letter_of (item ∷ [])) }
{
    letter.clear();
    append_letter(letter, item, &[])
}

/// Puts the letter that items are in the place of what `letter` held. After `NoMemory` it may hold
/// anything.
fn read_letter(letter: &mut Vec<u8>, items: &[Item]) -> Result<(), NoMemory>
    ensures { OnOk result (letter.new.items ≡ letter_of items.now) }
{
    letter.clear();
    match items {
        [] => Ok(()),
        [first, rest @ ..] => append_letter(letter, *first, rest),
    }
}

/// Appends the letter that an item begins and further items go on with, if nothing comes before
/// it.
fn append_letter(letter: &mut Vec<u8>, first: Item, rest: &[Item]) -> Result<(), NoMemory>
    requires { letter.old.items ≡ [] }
    ensures { OnOk result (letter.new.items ≡ letter_from first rest.now) }
{
    letter.extend_from_slice(&first.b.to_le_bytes())?;
    letter.extend_from_slice(&first.c.to_le_bytes())?;
    append_bytes(letter, rest)?;
    letter.truncate((first.a % 65_536) as usize);
    Ok(())
}

/// Appends the bytes of items that follow a first one.
fn append_bytes(letter: &mut Vec<u8>, items: &[Item]) -> Result<(), NoMemory>
    ensures { OnOk result (letter.new.items ≡ letter.old.items ++ flat_map bytes_in items.now) }
{
    for item in items {
        append_item(letter, *item)?;
    }
    Ok(())
}

/// Appends the bytes of one of them.
fn append_item(letter: &mut Vec<u8>, item: Item) -> Result<(), NoMemory>
    ensures { OnOk result (letter.new.items ≡ letter.old.items ++ bytes_in item) }
{
    letter.extend_from_slice(&item.a.to_le_bytes())?;
    letter.extend_from_slice(&item.b.to_le_bytes())?;
    letter.extend_from_slice(&item.c.to_le_bytes())?;
    Ok(())
}
