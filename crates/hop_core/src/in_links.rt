//! One link into a rank: the parcel that came over it and is being read.

ghost use Rattle.std.specs.Prelude.{◌≡◌, ℕ, ◌+◌, ◌-◌, ◌^◌, ◌<◌, ◌≤◌, ◌==◌, length, sum, map, replicate, take, drop, slice_get, true, false, Some, None, IsSome, IfOk};
ghost use Rattle.std.specs.List.{list_all};
ghost use Rattle.item_buffer.specs.Capacity.{IsCap};
ghost use Rattle.hop_core.specs.State.{ins_of_hop, in_in_new_epoch};
ghost use Rattle.hop_core.specs.Link.{no_in, is_empty, FindsUnread, is_wanted, is_finished, with_first_taken, with_back, read_on};

use bale_items::{Entry, NoMemory};
use item_buffer::Parcel;
use route_tensor::Routes;
use std::alloc::Global;
use std::marker::Model;
use std::mem;

/// A link in.
#[derive(Drop)]
pub struct InLink<const CAP: usize> {
    parcel: Parcel<CAP>,
    /// Whether the last parcel of this epoch was got.
    ended: bool,
}

impl<const CAP: usize> Model for InLink<CAP> {
    ghost use Rattle.hop_core.specs.Link.{In};

    ghost Value = { In };

    ghost view = { λ i. record { parcel = i.parcel; ended = i.ended } };
}

impl<const CAP: usize> InLink<CAP> {
    /// A link that has not ended, with an empty inbox.
    pub fn new(alloc: Global) -> Result<Self, NoMemory>
        requires cap { IsCap CAP }
        ensures { IfOk result (λ i. i ≡ no_in) }
    {
        Ok(InLink {
            parcel: Parcel::new(alloc)?,
            ended: false,
        })
    }

    /// The first untaken entry.
    #[inline]
    pub fn head(&self) -> Option<Entry>
        ensures { result ≡ slice_get self.now.parcel.untaken 0 }
    {
        self.parcel.head()
    }

    /// Takes the first untaken entry.
    #[inline]
    pub fn take(&mut self) -> Option<Entry>
        ensures value { result ≡ slice_get self.old.parcel.untaken 0 }
        ensures taken { IsSome result → self.new ≡ record self.old { parcel = with_first_taken self.old.parcel } }
        ensures none { result ≡ None → self.new ≡ self.old }
    {
        self.parcel.take()
    }

    /// The untaken entries, in order.
    #[inline]
    pub fn unread(&self) -> &[Entry]
        ensures { result.now ≡ self.now.parcel.untaken }
    {
        self.parcel.untaken()
    }

    /// Takes the first `count` untaken entries.
    #[inline]
    pub fn skip(&mut self, count: usize)
        requires { count ≤ length self.old.parcel.untaken }
        ensures { self.new ≡ read_on count self.old }
    {
        self.parcel.skip(count);
    }

    /// Puts the entry taken last back in front.
    pub fn untake(&mut self)
        requires { IsSome self.old.parcel.back }
        ensures state { self.new ≡ record self.old { parcel = with_back self.old.parcel.back self.old.parcel } }
        ensures fits { length self.new.parcel.untaken ≤ CAP }
    {
        self.parcel.untake();
        self.parcel.known();
    }

    /// Whether nothing is untaken.
    #[inline]
    pub fn is_empty(&self) -> bool
        ensures { result ≡ is_empty self.now.parcel }
    {
        self.parcel.head().is_none()
    }

    /// Whether a parcel is to be collected.
    #[inline]
    pub fn is_wanted(&self) -> bool
        ensures { result ≡ is_wanted self.now }
    {
        if self.ended {
            return false;
        }
        self.parcel.len() == 0
    }

    /// Whether nothing of this epoch is left to come, nor to be read.
    #[inline]
    pub fn is_finished(&self) -> bool
        ensures { result ≡ is_finished self.now }
    {
        if !self.ended {
            return false;
        }
        self.parcel.len() == 0
    }

    /// Exchanges the parcel at hand for the inbox. The link has ended from now on if that parcel
    /// is marked last.
    /// Answers whether the link is finished.
    #[inline]
    pub fn exchange(&mut self, parcel: &mut Parcel<CAP>) -> bool
        ensures value { result ≡ is_finished self.new }
        ensures parcel { parcel.new ≡ self.old.parcel }
        ensures state { self.new ≡ record { parcel = parcel.old; ended = parcel.old.last } }
    {
        let last = parcel.last();
        mem::swap(&mut self.parcel, parcel);
        self.ended = last;
        self.is_finished()
    }

    /// A new epoch begins.
    pub fn resume(&mut self)
        ensures { self.new ≡ record self.old { ended = false } }
    {
        self.ended = false;
    }
}

/// Whether every link of a part of the list is finished.
pub fn all_finished<const CAP: usize>(links: &[InLink<CAP>], from: usize, to: usize) -> bool
    requires order { from ≤ to }
    requires within { to ≤ length links.now }
    ensures { result ≡ list_all is_finished (take (to - from) (drop from links.now)) }
{
    for i in (from..to).rev() {
        if !links[i].is_finished() {
            return false;
        }
    }
    true
}

/// Whether every link in of hop `h` is finished.
pub fn hop_finished<const CAP: usize>(routes: &Routes, links: &[InLink<CAP>], h: u32) -> bool
    requires first { 1 ≤ h }
    requires last { h ≤ length routes.now.dims }
    requires all { length links.now ≡ sum routes.now.dims }
    ensures { result ≡ list_all is_finished (ins_of_hop routes.now.dims links.now h) }
{
    let from = routes.first_of(h);
    all_finished(links, from as usize, routes.first_of(h + 1) as usize)
}

/// The lowest link from `from` on whose inbox has an entry. Most often it is `from` itself, which
/// is looked at before the search.
#[inline]
pub fn first_unread<const CAP: usize>(links: &[InLink<CAP>], from: u32) -> Option<u32>
    requires within { from ≤ length links.now }
    requires few { length links.now < 2 ^ 32 }
    ensures { FindsUnread from links.now result }
{
    if from as usize >= links.len() {
        return None;
    }
    if !links[from as usize].is_empty() {
        return Some(from);
    }
    search_unread(links, from + 1)
}

/// Searches the links from `from` on for the lowest one whose inbox has an entry.
fn search_unread<const CAP: usize>(links: &[InLink<CAP>], from: u32) -> Option<u32>
    requires within { from ≤ length links.now }
    requires few { length links.now < 2 ^ 32 }
    ensures { FindsUnread from links.now result }
{
    for at in from..links.len() as u32 {
        if !links[at as usize].is_empty() {
            return Some(at);
        }
    }
    None
}

/// So many links, none of which has ended, with empty inboxes.
pub fn links_in<const CAP: usize>(alloc: Global, count: u32) -> Result<Vec<InLink<CAP>>, NoMemory>
    requires cap { IsCap CAP }
    ensures { IfOk result (λ links. links.items ≡ replicate count no_in) }
{
    let mut links = Vec::with_capacity(alloc, count as usize)?;
    for _made in 0..count {
        links.push(InLink::new(alloc)?)?;
    }
    Ok(links)
}

/// A new epoch begins on every link.
pub fn resume_all<const CAP: usize>(links: &mut Vec<InLink<CAP>>)
    ensures { links.new.items ≡ map in_in_new_epoch links.old.items }
{
    let all = links.as_mut_slice();
    for i in 0..all.len() {
        all[i].resume();
    }
}
