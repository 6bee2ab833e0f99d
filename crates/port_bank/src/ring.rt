//! The places of a link: each has a parcel, which is in transit or empty.
ghost use Rattle.std.specs.Prelude.{◌≡◌, ◌+◌, ◌<◌, ◌≤◌, ◌⊎◌, ◌++◌, [], ◌∷◌, length, IfOk, OnOk, OnErr};
ghost use Rattle.item_buffer.specs.Capacity.{IsCap};
ghost use Rattle.item_buffer.specs.Contents.{as_shipped, as_arrived, blank};
ghost use Rattle.port_bank.specs.Ring.{in_transit, IsRing};

use bale_items::NoMemory;
use item_buffer::Parcel;
use std::alloc::Global;
use std::marker::Model;
use std::mem;

/// The parcels in transit, in the order in which they were posted. Contracts see their list.
///
/// A parcel that is posted, or collected, is exchanged for an empty one; none is copied.
#[derive(Drop)]
pub(crate) struct Ring<const CAP: usize> {
    /// As many as parcels were ever in transit at once.
    places: Vec<Parcel<CAP>>,
    /// The place of the next collect. The places of the parcels after it follow, round the list.
    first: usize,
    /// How many parcels are in transit.
    waiting: usize,
}

impl<const CAP: usize> Model for Ring<CAP> {
    ghost use Rattle.std.specs.Prelude.{List};
    ghost use Rattle.item_buffer.specs.Contents.{Shipped};
    ghost use Rattle.port_bank.specs.Ring.{in_transit, IsRing};

    ghost Value = { List Shipped };

    ghost view = { λ r. in_transit r.first r.waiting r.places.items };

    ghost invariant = { λ r. IsRing CAP r.first r.waiting r.places.items };
}

impl<const CAP: usize> Ring<CAP> {
    /// No place yet.
    pub(crate) fn new(alloc: Global) -> Self
        requires cap { IsCap CAP }
        ensures { result ≡ [] }
    {
        Ring {
            places: Vec::new(alloc),
            first: 0,
            waiting: 0,
        }
    }

    /// The number of parcels in transit.
    pub(crate) fn len(&self) -> usize
        ensures { result ≡ length self.now }
    {
        self.waiting
    }

    /// Sends the parcel, and leaves an empty one of the same epoch at hand.
    ///
    /// # Errors
    /// `NoMemory` changes nothing.
    pub(crate) fn send(&mut self, p: &mut Parcel<CAP>) -> Result<(), NoMemory>
        requires fresh { p.old ≡ as_arrived (as_shipped p.old) }
        ensures sent { OnOk result (self.new ≡ self.old ++ as_shipped p.old ∷ []) }
        ensures emptied { OnOk result (p.new ≡ blank p.old.epoch) }
        ensures unchanged { OnErr result (self.new ≡ self.old) }
        ensures kept { OnErr result (p.new ≡ p.old) }
    {
        self.first = make_room(&mut self.places, self.first, self.waiting)?;
        let place = place_after(self.first, self.waiting, self.places.len());
        let epoch = p.epoch();
        mem::swap(&mut self.places[place], p);
        p.set_epoch(epoch);
        self.waiting += 1;
        Ok(())
    }

    /// Takes the next parcel, and leaves the empty one at hand in its place.
    pub(crate) fn receive(&mut self, p: &mut Parcel<CAP>)
        requires some { 0 < length self.old }
        requires empty { p.old ≡ blank p.old.epoch }
        ensures next { self.old ≡ as_shipped p.new ∷ self.new }
        ensures arrived { p.new ≡ as_arrived (as_shipped p.new) }
    {
        mem::swap(&mut self.places[self.first], p);
        self.first = place_after(self.first, 1, self.places.len());
        self.waiting -= 1;
    }
}

/// Adds a place if every place has a parcel in transit. Answers the place of the next collect.
///
/// # Errors
/// `NoMemory` changes nothing.
#[inline]
fn make_room<const CAP: usize>(
    places: &mut Vec<Parcel<CAP>>,
    first: usize,
    waiting: usize,
) -> Result<usize, NoMemory>
    requires ring { IsRing CAP first waiting places.old.items }
    ensures ring { IfOk result (λ f. IsRing CAP f waiting places.new.items) }
    ensures room { OnOk result (waiting < length places.new.items) }
    ensures same { IfOk result (λ f. in_transit f waiting places.new.items
        ≡ in_transit first waiting places.old.items) }
    ensures unchanged { OnErr result (places.new.items ≡ places.old.items) }
{
    if waiting < places.len() {
        return Ok(first);
    }
    add_place(places, first, waiting)
}

/// Turns the places, each of which has a parcel in transit, until the next one to collect is in
/// front, and adds one behind them. It is rarely called, so it is kept out of line.
///
/// # Errors
/// `NoMemory` changes nothing.
#[cold]
#[inline(never)]
fn add_place<const CAP: usize>(
    places: &mut Vec<Parcel<CAP>>,
    first: usize,
    waiting: usize,
) -> Result<usize, NoMemory>
    requires ring { IsRing CAP first waiting places.old.items }
    requires full { length places.old.items ≤ waiting }
    ensures ring { IfOk result (λ f. IsRing CAP f waiting places.new.items) }
    ensures room { OnOk result (waiting < length places.new.items) }
    ensures same { IfOk result (λ f. in_transit f waiting places.new.items
        ≡ in_transit first waiting places.old.items) }
    ensures unchanged { OnErr result (places.new.items ≡ places.old.items) }
{
    places.reserve(1)?;
    let place = Parcel::new(*places.allocator())?;
    places.rotate_left(first);
    let Ok(()) = places.push(place) else {
        unreachable!()
    };
    Ok(0)
}

/// The place so many steps after one, of `count` places that go round.
fn place_after(place: usize, steps: usize, count: usize) -> usize
    requires place { place < count }
    requires steps { steps ≤ count }
    ensures within { result < count }
    ensures round { (result ≡ place + steps) ⊎ (result + count ≡ place + steps) }
{
    let until_end = count - place;
    if steps < until_end {
        place + steps
    } else {
        steps - until_end
    }
}
