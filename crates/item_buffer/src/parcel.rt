//! The parcel, for whoever fills, carries or empties one: ports, inboxes and open parcels.
ghost use Rattle.std.specs.Prelude.{◌≡◌, ◌+◌, ◌-◌, ◌<◌, ◌≤◌, ◌==◌, [], ◌∷◌, ◌++◌, length, slice_get, IsSome, IfSome, IfNone, OnSome, IfOk, true, false};
ghost use Rattle.item_buffer.specs.Capacity.{IsCap};
ghost use Rattle.item_buffer.specs.Contents.{Contents, blank, after_skip};

use arrayvec::ArrayVec;
use bale_items::{Entry, NoMemory};
use std::alloc::Global;
use std::marker::Model;

/// At most `CAP` entries in the order in which they were pushed, of which the first ones may be
/// taken, with two marks for their reader: whether the parcel is the last of its epoch, and the
/// epoch.
#[derive(Drop)]
pub struct Parcel<const CAP: usize> {
    held: Box<Held<CAP>>,
    /// Counts from 0. It is besides the counts so that a reader of the entries writes none of their
    /// memory.
    epoch: u64,
    /// How many of the places, from the first one on, hold an entry pushed since the last clear.
    pushed: u16,
    /// How many of those entries are taken.
    taken: u16,
    /// Whether the last entry that was taken may be put back.
    can_untake: bool,
    /// Whether no parcel of the same epoch follows on the link.
    last: bool,
}

/// What a move of the parcel leaves if it is.
#[derive(Drop)]
struct Held<const CAP: usize> {
    /// With the bytes of `after`, these keep other values off the cache lines of the entries.
    before: [u64; 8],
    /// `CAP` places, always full, so that a clear writes no place.
    places: ArrayVec<Entry, CAP>,
    after: [u64; 8],
}

impl<const CAP: usize> Model for Parcel<CAP> {
    ghost use Rattle.std.specs.Prelude.{◌≡◌, ◌-◌, ◌<◌, ◌≤◌, if◌then◌else◌, take, drop, length, slice_get, None, true};
    ghost use Rattle.item_buffer.specs.Capacity.{IsCap};
    ghost use Rattle.item_buffer.specs.Contents.{Contents};

    ghost Value = { Contents };

    ghost view = { λ p. record {
      untaken = drop p.taken (take p.pushed p.held.value.places.items);
      last = p.last;
      epoch = p.epoch;
      back = (if p.can_untake then slice_get (take p.pushed p.held.value.places.items) (p.taken - 1) else None);
      taken = p.taken;
    } };

    ghost invariant = { λ p. IsCap CAP × (length p.held.value.places.items ≡ CAP) × (p.pushed ≤ CAP)
        × (p.taken ≤ p.pushed)
        × (p.can_untake ≡ true → 0 < p.taken) };
}

impl<const CAP: usize> Parcel<CAP> {
    /// An empty parcel of epoch 0, not marked last. It takes the memory for all its entries, once.
    pub fn new(alloc: Global) -> Result<Self, NoMemory>
        requires cap { IsCap CAP }
        ensures { IfOk result (λ p. p ≡ blank 0) }
    {
        let places = ArrayVec::from_array_in((), [Entry::default(); CAP]);
        let held = Held {
            before: [0; 8],
            places,
            after: [0; 8],
        };
        Ok(Parcel {
            held: Box::new(alloc, held)?,
            epoch: 0,
            pushed: 0,
            taken: 0,
            can_untake: false,
            last: false,
        })
    }

    /// Appends `entry`, or answers `false` if the parcel is full. None of its entries may be
    /// taken.
    #[inline]
    pub fn try_push(&mut self, entry: Entry) -> bool
        requires fresh { self.old.taken ≡ 0 }
        ensures appended { result ≡ true → self.new ≡ record self.old { untaken = self.old.untaken ++ entry ∷ [] } }
        ensures room { result ≡ true → length self.old.untaken < CAP }
        ensures unchanged { result ≡ false → self.new ≡ self.old }
        ensures full { result ≡ false → length self.old.untaken ≡ CAP }
    {
        if self.pushed as usize == CAP {
            return false;
        }
        self.held.places.as_mut_slice()[self.pushed as usize] = entry;
        self.pushed += 1;
        true
    }

    /// The first untaken entry.
    #[inline]
    pub fn head(&self) -> Option<Entry>
        ensures { result ≡ slice_get self.now.untaken 0 }
    {
        if self.taken == self.pushed {
            return None;
        }
        Some(self.held.places.as_slice()[self.taken as usize])
    }

    /// Takes the first untaken entry.
    #[inline]
    pub fn take(&mut self) -> Option<Entry>
        ensures first { IfSome result (λ e. self.old.untaken ≡ e ∷ self.new.untaken) }
        ensures counted { OnSome result
            (self.new ≡ record self.old { untaken = self.new.untaken; back = result; taken = self.old.taken + 1 }) }
        ensures none { IfNone result (self.old.untaken ≡ []) }
        ensures unchanged { IfNone result (self.new ≡ self.old) }
    {
        match self.head() {
            Some(entry) => {
                self.taken += 1;
                self.can_untake = true;
                Some(entry)
            }
            None => None,
        }
    }

    /// The untaken entries, in order.
    #[inline]
    pub fn untaken(&self) -> &[Entry]
        ensures { result.now ≡ self.now.untaken }
    {
        &self.held.places.as_slice()[self.taken as usize..self.pushed as usize]
    }

    /// Takes the first `count` untaken entries, as so many calls of `take` would.
    #[inline]
    pub fn skip(&mut self, count: usize)
        requires { count ≤ length self.old.untaken }
        ensures { self.new ≡ after_skip count self.old }
    {
        if count > 0 {
            self.taken += count as u16;
            self.can_untake = true;
        }
    }

    /// Puts the entry that the latest `take` or `skip` took last back in front of the untaken ones.
    pub fn untake(&mut self)
        requires { IsSome self.old.back }
        ensures { (e : _) → self.old.back ≡ Some e → self.new ≡ record self.old {
          untaken = e ∷ self.old.untaken;
          back = None;
          taken = self.old.taken - 1;
        } }
    {
        self.taken -= 1;
        self.can_untake = false;
    }

    /// Removes all entries, taken ones too, and the mark `last`. The epoch stays.
    pub fn clear(&mut self)
        ensures { self.new ≡ blank self.old.epoch }
    {
        self.pushed = 0;
        self.taken = 0;
        self.can_untake = false;
        self.last = false;
    }

    /// The number of untaken entries.
    #[inline]
    pub fn len(&self) -> u32
        ensures value { result ≡ length self.now.untaken }
        ensures within { length self.now.untaken + self.now.taken ≤ CAP }
        ensures fresh { self.now.taken ≡ 0 → self.now.back ≡ None }
    {
        u32::from(self.pushed - self.taken)
    }

    /// Whether `CAP` entries are untaken.
    #[inline]
    pub fn is_full(&self) -> bool
        ensures { result ≡ (length self.now.untaken == CAP) }
    {
        (self.pushed - self.taken) as usize == CAP
    }

    /// Does nothing, and states what holds of a parcel at every moment.
    #[inline]
    pub fn known(&self)
        ensures cap { IsCap CAP }
        ensures within { length self.now.untaken + self.now.taken ≤ CAP }
        ensures fresh { self.now.taken ≡ 0 → self.now.back ≡ None }
    {
        let _taken = self.taken;
    }

    /// The most entries that the parcel can hold.
    #[inline]
    pub fn cap(&self) -> u32
        ensures value { result ≡ CAP }
        ensures cap { IsCap CAP }
    {
        let _taken = self.taken;
        CAP as u32
    }

    /// Whether the parcel is marked as the last of its epoch.
    #[inline]
    pub fn last(&self) -> bool
        ensures { result ≡ self.now.last }
    {
        self.last
    }

    /// Marks the parcel as the last of its epoch, or takes that mark away.
    #[inline]
    pub fn set_last(&mut self, on: bool)
        ensures { self.new ≡ record self.old { last = on } }
    {
        self.last = on;
    }

    /// The epoch, which counts from 0.
    #[inline]
    pub fn epoch(&self) -> u64
        ensures { result ≡ self.now.epoch }
    {
        self.epoch
    }

    /// Sets the epoch.
    #[inline]
    pub fn set_epoch(&mut self, epoch: u64)
        ensures { self.new ≡ record self.old { epoch = epoch } }
    {
        self.epoch = epoch;
    }
}
