//! A round over all links of a rank: what begins it, what is posted and collected in it, and what
//! it still waits for.
ghost use Rattle.std.specs.Prelude.{◌≡◌, ℕ, ◌+◌, ◌*◌, ◌<◌, ◌≤◌, ◌++◌, true, false, map, replicate, length, slice_index_or, IfOk, IfSome, OnOk, IsOk, IsErr};
ghost use Rattle.std.specs.List.{list_all, position, sum_by};
ghost use Rattle.list_laws.specs.Lists.{IsPrefix};
ghost use Rattle.item_buffer.specs.Capacity.{IsCap};
ghost use Rattle.port_bank.specs.Port.{is_crowded, is_idle};
ghost use Rattle.port_bank.specs.Logs.{lasts};
ghost use Rattle.port_bank.specs.Relay.{RelayLaw};
ghost use Rattle.exstack.specs.Links.{no_stack_out, no_stack_in, has_unread, begun_out, begun_in, stack_out_in_new_epoch, stack_in_in_new_epoch};
ghost use Rattle.exstack.specs.State.{number, missing_out, least_headroom};
ghost use Rattle.exstack.specs.Demands.{NoneBelow};
ghost use Rattle.exstack.specs.Steps.{WasPostedInRound, WasCollected, AskedWithoutSuccess, StackStopsAt, posts_to, collects_from, LeftByStackPosts, LeftByStackCollects, IsStackPort};

use crate::in_link::InLink;
use crate::out_link::OutLink;
use bale_items::NoMemory;
use port_bank::Port;
use std::alloc::Global;

/// So many links out, on which nothing waits.
pub fn links_out<const CAP: usize>(alloc: Global, count: u32) -> Result<Vec<OutLink<CAP>>, NoMemory>
    requires cap { IsCap CAP }
    ensures { IfOk result (λ links. links.items ≡ replicate count no_stack_out) }
{
    let mut links = Vec::with_capacity(alloc, count as usize)?;
    for _ in 0..count {
        links.push(OutLink::new(alloc)?)?;
    }
    Ok(links)
}

/// So many links in, on which nothing came.
pub fn links_in<const CAP: usize>(alloc: Global, count: u32) -> Result<Vec<InLink<CAP>>, NoMemory>
    requires cap { IsCap CAP }
    ensures { IfOk result (λ links. links.items ≡ replicate count no_stack_in) }
{
    let mut links = Vec::with_capacity(alloc, count as usize)?;
    for _ in 0..count {
        links.push(InLink::new(alloc)?)?;
    }
    Ok(links)
}

/// A round begins on every link out.
pub fn begin_outs<const CAP: usize>(links: &mut Vec<OutLink<CAP>>)
    ensures { links.new.items ≡ map begun_out links.old.items }
{
    for i in 0..links.len() {
        links[i].begin();
    }
}

/// A round begins on every link in.
pub fn begin_ins<const CAP: usize>(links: &mut Vec<InLink<CAP>>)
    ensures { links.new.items ≡ map begun_in links.old.items }
{
    for i in 0..links.len() {
        links[i].begin();
    }
}

/// A new epoch begins on every link out.
pub fn reopen_all<const CAP: usize>(links: &mut Vec<OutLink<CAP>>)
    ensures { links.new.items ≡ map stack_out_in_new_epoch links.old.items }
{
    for i in 0..links.len() {
        links[i].reopen();
    }
}

/// A new epoch begins on every link in.
pub fn resume_all<const CAP: usize>(links: &mut Vec<InLink<CAP>>)
    ensures { links.new.items ≡ map stack_in_in_new_epoch links.old.items }
{
    for i in 0..links.len() {
        links[i].resume();
    }
}

/// Posts once on each link out on which a parcel is due, in ascending order.
///
/// # Errors
/// `NoMemory` comes only from the port's post. What was posted before it stays posted.
pub fn post_all<const CAP: usize, P: Port<CAP>>(
    outs: &mut Vec<OutLink<CAP>>,
    port: &mut P,
    rank: u32,
    epoch: u64,
    last: bool,
) -> Result<(), NoMemory>
    requires port { IsStackPort (length outs.old.items) rank (P.view port.old) }
    requires epoch { (b : ℕ) → b < length outs.old.items → (slice_index_or outs.old.items b no_stack_out).due ≡ true
        → lasts ((P.view port.old).sent (number (length outs.old.items) rank b)) ≡ epoch }
    requires law { RelayLaw (P.view port.old).dims (P.view port.old).rank (P.view port.old).sent (P.view port.old).got }
    ensures count { length outs.new.items ≡ length outs.old.items }
    ensures moved { (b : ℕ) → b < length outs.old.items
        → WasPostedInRound last epoch (slice_index_or outs.old.items b no_stack_out) (slice_index_or outs.new.items
        b no_stack_out)
        ((P.view port.old).sent (number (length outs.old.items) rank b))
        ((P.view port.new).sent (number (length outs.old.items) rank b)) }
    ensures still_stuck { IsOk result → (b : ℕ) → b < length outs.old.items
        → (slice_index_or outs.new.items b no_stack_out).due ≡ true
        → AskedWithoutSuccess ((P.view port.old).looks_out (number (length outs.old.items) rank b))
        ((P.view port.new).looks_out (number (length outs.old.items) rank b))
        (is_crowded (P.view port.new) (number (length outs.old.items) rank b)) }
    ensures calls { OnOk result ((P.view port.new).calls
        ≡ (P.view port.old).calls ++ posts_to (length outs.old.items) rank outs.old.items (length outs.old.items)) }
    ensures stops { IsErr result → StackStopsAt (length outs.old.items) rank outs.old.items outs.new.items
        (P.view port.old).calls (P.view port.new).calls }
    ensures law { RelayLaw (P.view port.old).dims (P.view port.old).rank (P.view port.new).sent (P.view port.old).got }
    ensures memory { P.Memory.GROWS ≡ false → IsOk result }
    ensures left { LeftByStackPosts (P.view port.old) (P.view port.new) }
{
    let ranks = outs.len() as u32;
    for b in 0..outs.len() {
        outs[b].post(port, rank * ranks + b as u32, epoch, last)?;
    }
    Ok(())
}

/// Collects once from each link in on which a parcel is due, in ascending order.
pub fn collect_all<const CAP: usize, P: Port<CAP>>(
    ins: &mut Vec<InLink<CAP>>,
    port: &mut P,
    rank: u32,
    epoch: u64,
    exchange: bool,
)
    requires port { IsStackPort (length ins.old.items) rank (P.view port.old) }
    requires epoch { (a : ℕ) → a < length ins.old.items → (slice_index_or ins.old.items a no_stack_in).due ≡ true
        → lasts ((P.view port.old).got (number (length ins.old.items) a rank)) ≡ epoch }
    ensures count { length ins.new.items ≡ length ins.old.items }
    ensures moved { (a : ℕ) → a < length ins.old.items
        → WasCollected exchange (slice_index_or ins.old.items a no_stack_in) (slice_index_or ins.new.items a
        no_stack_in)
        ((P.view port.old).got (number (length ins.old.items) a rank))
        ((P.view port.new).got (number (length ins.old.items) a rank)) }
    ensures still_stuck { (a : ℕ) → a < length ins.old.items → (slice_index_or ins.new.items a no_stack_in).due ≡ true
        → AskedWithoutSuccess ((P.view port.old).noted (number (length ins.old.items) a rank))
        ((P.view port.new).noted (number (length ins.old.items) a rank))
        (is_idle (P.view port.new) (number (length ins.old.items) a rank)) }
    ensures calls { (P.view port.new).calls
        ≡ (P.view port.old).calls ++ collects_from (length ins.old.items) rank ins.old.items (length ins.old.items) }
    ensures own { IsPrefix ((P.view port.old).got (number (length ins.old.items) rank rank))
        ((P.view port.old).sent (number (length ins.old.items) rank rank))
        → IsPrefix ((P.view port.new).got (number (length ins.old.items) rank rank))
        ((P.view port.new).sent (number (length ins.old.items) rank rank)) }
    ensures left { LeftByStackCollects (P.view port.old) (P.view port.new) }
{
    let ranks = ins.len() as u32;
    for a in 0..ins.len() {
        ins[a].collect(port, a as u32 * ranks + rank, epoch, exchange);
    }
}

/// The link for which a round still waits: the lowest link out on which a parcel is due, or else
/// the lowest such link in.
pub fn missing<const CAP: usize>(
    outs: &[OutLink<CAP>],
    ins: &[InLink<CAP>],
    rank: u32,
) -> Option<u32>
    requires within { rank < length outs.now }
    requires count { length ins.now ≡ length outs.now }
    requires few { length outs.now ≤ 64 }
    ensures { result ≡ missing_out (length outs.now) rank (position (λ o. o.due) outs.now) ins.now }
{
    let ranks = outs.len() as u32;
    match lowest_due_out(outs) {
        Some(b) => Some(rank * ranks + b as u32),
        None => match lowest_due_in(ins) {
            Some(a) => Some(a as u32 * ranks + rank),
            None => None,
        },
    }
}

fn lowest_due_out<const CAP: usize>(outs: &[OutLink<CAP>]) -> Option<usize>
    ensures value { result ≡ position (λ o. o.due) outs.now }
    ensures within { IfSome result (λ b. b < length outs.now) }
{
    outs.iter().position(
        |link| -> bool
            ensures { result ≡ link.now.due }
        { link.is_due() },
    )
}

fn lowest_due_in<const CAP: usize>(ins: &[InLink<CAP>]) -> Option<usize>
    ensures value { result ≡ position (λ i. i.due) ins.now }
    ensures within { IfSome result (λ a. a < length ins.now) }
{
    ins.iter().position(
        |link| -> bool
            ensures { result ≡ link.now.due }
        { link.is_due() },
    )
}

/// Whether every link in has ended.
pub fn all_ended<const CAP: usize>(ins: &[InLink<CAP>]) -> bool
    ensures { result ≡ list_all (λ i. i.ended) ins.now }
{
    ins.iter().all(
        |link| -> bool
            ensures { result ≡ link.now.ended }
        { link.has_ended() },
    )
}

/// How many items are unread.
pub fn unread_in<const CAP: usize>(ins: &[InLink<CAP>]) -> u64
    requires few { length ins.now ≤ 64 }
    ensures { result ≡ sum_by (λ i. length i.unread) ins.now }
{
    let mut total = 0;
    for link in ins {
        total += u64::from(link.len());
    }
    total
}

/// How many items may still be pushed toward that rank for which it is least.
pub fn least_room<const CAP: usize>(outs: &[OutLink<CAP>]) -> u64
    ensures { result ≡ least_headroom CAP outs.now }
{
    let mut least = CAP as u64;
    for link in outs {
        least = least.min(link.headroom());
    }
    least
}

/// The lowest link in that has an unread item, if none below `from` has one. Most often it is
/// `from` itself, which is looked at before the search.
#[inline]
pub fn next_unread<const CAP: usize>(ins: &[InLink<CAP>], from: u32) -> Option<u32>
    requires below { NoneBelow ins.now from }
    ensures { result ≡ position has_unread ins.now }
{
    if (from as usize) < ins.len() && ins[from as usize].has_unread() {
        return Some(from);
    }
    search_unread(ins, from)
}

/// Searches the links from `from` on for the lowest one that has an unread item.
fn search_unread<const CAP: usize>(ins: &[InLink<CAP>], from: u32) -> Option<u32>
    requires below { NoneBelow ins.now from }
    ensures { result ≡ position has_unread ins.now }
{
    for at in from..ins.len() as u32 {
        if ins[at as usize].has_unread() {
            return Some(at);
        }
    }
    None
}
