//! One link out of a rank: the parcel that is being filled for it.

ghost use Rattle.std.specs.Prelude.{◌≡◌, ◌<◌, ◌&&◌, length, map, true, false, IfOk};
ghost use Rattle.hop_core.specs.State.{out_in_new_epoch};
ghost use Rattle.std.specs.Prelude.{replicate};
ghost use Rattle.item_buffer.specs.Capacity.{IsCap};
ghost use Rattle.hop_core.specs.Link.{no_out, is_due, with_entry};

use bale_items::{Entry, NoMemory};
use item_buffer::Parcel;
use std::alloc::Global;
use std::marker::Model;
use std::mem;

/// A link out.
#[derive(Drop)]
pub struct OutLink<const CAP: usize> {
    parcel: Parcel<CAP>,
    /// Whether the last parcel of this epoch was sent.
    closed: bool,
}

impl<const CAP: usize> Model for OutLink<CAP> {
    ghost use Rattle.hop_core.specs.Link.{Out};

    ghost Value = { Out };

    ghost view = { λ o. record { parcel = o.parcel; closed = o.closed } };
}

impl<const CAP: usize> OutLink<CAP> {
    /// A link that is not closed, with an empty parcel.
    pub fn new(alloc: Global) -> Result<Self, NoMemory>
        requires cap { IsCap CAP }
        ensures { IfOk result (λ o. o ≡ no_out) }
    {
        Ok(OutLink {
            parcel: Parcel::new(alloc)?,
            closed: false,
        })
    }

    /// Appends `entry`, or answers `false` if the parcel is full.
    #[inline]
    pub fn push(&mut self, entry: Entry) -> bool
        requires { self.old.parcel.taken ≡ 0 }
        ensures appended { result ≡ true → self.new ≡ record self.old { parcel = with_entry self.old.parcel entry } }
        ensures room { result ≡ true → length self.old.parcel.untaken < CAP }
        ensures unchanged { result ≡ false → self.new ≡ self.old }
        ensures full { result ≡ false → length self.old.parcel.untaken ≡ CAP }
    {
        self.parcel.try_push(entry)
    }

    /// Whether the parcel is to be sent now, where `at_end` says whether the link's hop has reached
    /// its end.
    #[inline]
    pub fn is_due(&self, steady: bool, at_end: bool) -> bool
        ensures { result ≡ is_due CAP steady at_end self.now }
    {
        self.parcel.known();
        if at_end && !self.closed {
            return true;
        }
        let least = if steady { 1 } else { CAP as u32 };
        self.parcel.len() >= least
    }

    /// Exchanges the parcel at hand for the link's.
    #[inline]
    pub fn exchange(&mut self, parcel: &mut Parcel<CAP>)
        ensures parcel { parcel.new ≡ self.old.parcel }
        ensures state { self.new ≡ record self.old { parcel = parcel.old } }
    {
        mem::swap(&mut self.parcel, parcel);
    }

    /// The last parcel of this epoch was sent.
    #[inline]
    pub fn close(&mut self)
        ensures { self.new ≡ record self.old { closed = true } }
    {
        self.closed = true;
    }

    /// A new epoch begins.
    pub fn reopen(&mut self)
        ensures { self.new ≡ record self.old { closed = false } }
    {
        self.closed = false;
    }
}

/// So many links, none of them closed, with empty parcels.
pub fn links_out<const CAP: usize>(alloc: Global, count: u32) -> Result<Vec<OutLink<CAP>>, NoMemory>
    requires cap { IsCap CAP }
    ensures { IfOk result (λ links. links.items ≡ replicate count no_out) }
{
    let mut links = Vec::with_capacity(alloc, count as usize)?;
    for _made in 0..count {
        links.push(OutLink::new(alloc)?)?;
    }
    Ok(links)
}

/// A new epoch begins on every link.
pub fn reopen_all<const CAP: usize>(links: &mut Vec<OutLink<CAP>>)
    ensures { links.new.items ≡ map out_in_new_epoch links.old.items }
{
    let all = links.as_mut_slice();
    for i in 0..all.len() {
        all[i].reopen();
    }
}
