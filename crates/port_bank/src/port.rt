//! What a rank can do on its own links, whatever carries the parcels.
ghost use Rattle.std.specs.Prelude.{◌≡◌, false, IsOk, IsErr};
ghost use Rattle.port_bank.specs.Port.{PortView, IsSlots, PostDoes, CollectDoes};
ghost use Rattle.port_bank.specs.PortCalls.{MayPost, Posts, MayCollect, Collects};

use crate::memory::Memory;
use bale_items::NoMemory;
use item_buffer::Parcel;

/// What became of a parcel that was posted.
#[derive(Clone, Copy, PartialEq, Eq, Debug)]
pub enum Posted {
    /// It is in transit, and the parcel at hand is empty.
    Sent,
    /// As many parcels as the link has slots were not collected yet.
    NoRoom,
}

/// What a collect found.
#[derive(Clone, Copy, PartialEq, Eq, Debug)]
pub enum Collected {
    /// The link's next parcel, which is now at hand.
    Got,
    /// Every parcel that the port heard of was collected before.
    Nothing,
}

/// One rank's end of a bank: its links out, on which it posts, and its links in, from which it
/// collects.
///
/// Contracts see `view`, what the port has (`specs/Port.antt`), and `post_does` and `collect_does`,
/// what a port says of its calls beyond what holds of all ports (`specs/PortCalls.antt`). No call
/// changes the port's rank, grid or number of slots, nor what belongs to others.
pub trait Port<const CAP: usize>: Drop {
    /// What `post` needs of memory.
    type Memory: Memory;

    ghost view: { Self → PortView };

    ghost post_does: { PostDoes Self };

    ghost collect_does: { CollectDoes Self };

    /// The rank whose port this is.
    fn rank(&self) -> u32
        ensures value { result ≡ (view self.now).rank }
        ensures slots { IsSlots (view self.now).slots };

    /// Posts the parcel on a link out, and leaves an empty one of the same epoch in its place.
    ///
    /// The parcel is fresh, is of the epoch that the link is in, and, with the parcels posted
    /// before, keeps the relay law: it passes on only what the rank got, and is marked last only
    /// if that is all.
    ///
    /// # Errors
    /// `NoMemory` changes nothing, and never comes if `Memory::GROWS` is false.
    fn post(&mut self, link: u32, p: &mut Parcel<CAP>) -> Result<Posted, NoMemory>
        requires may { MayPost (view self.old) link p.old }
        ensures posts { Posts (view self.old) link p.old result (view self.new) p.new }
        ensures no_memory { IsErr result → self.new ≡ self.old }
        ensures memory { Self.Memory.GROWS ≡ false → IsOk result }
        ensures does { post_does self.old link p.old result self.new };

    /// Collects the next parcel of a link in, in place of the empty one at hand, which is of the
    /// epoch that the link is in.
    fn collect(&mut self, link: u32, p: &mut Parcel<CAP>) -> Collected
        requires may { MayCollect (view self.old) link p.old }
        ensures collects { Collects CAP (view self.old) link p.old result (view self.new) p.new }
        ensures does { collect_does self.old link p.new result self.new };
}
