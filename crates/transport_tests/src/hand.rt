//! A rank at its port in a test: it posts and collects by hand, one item in each parcel.
ghost use Rattle.item_buffer.specs.Contents.{blank};
ghost use Rattle.transport_tests.specs.ByHand.{InFirstEpoch};

use bale_items::{Entry, Item, NoMemory, Tag};
use item_buffer::Parcel;
use port_bank::{Collected, Port, Posted};
use route_tensor::Grid;
use std::alloc::Global;
use std::marker::Model;

/// A call on the port.
#[derive(Clone, Copy)]
pub(crate) enum Call {
    /// Post, on this link, this item.
    Post(u32, u64),
    /// Collect from this link.
    Collect(u32),
}

/// What a call answered.
#[derive(Clone, Copy, PartialEq, Eq, Debug)]
pub(crate) enum Answer {
    Sent,
    NoRoom,
    Got(u64),
    Nothing,
}

/// A rank's port, in the first epoch, and an empty parcel to post and one to collect. Contracts see
/// its rank.
#[derive(Drop)]
pub(crate) struct Hand<P: Port<1>> {
    port: P,
    grid: Grid,
    out: Parcel<1>,
    into: Parcel<1>,
}

impl<P: Port<1>> Model for Hand<P> {
    ghost use Rattle.std.specs.Prelude.{ℕ};
    ghost use Rattle.transport_tests.specs.ByHand.{InFirstEpoch};

    ghost Value = { ℕ };

    ghost view = { λ h. (P.view h.port).rank };

    ghost invariant = { λ h. InFirstEpoch (P.view h.port) h.grid h.out h.into };
}

impl<P: Port<1>> Hand<P> {
    pub(crate) fn new(alloc: Global, grid: &Grid, port: P) -> Result<Self, NoMemory>
        requires new { InFirstEpoch (P.view port) grid.now (blank 0) (blank 0) }
    {
        Ok(Hand {
            port,
            grid: *grid,
            out: Parcel::new(alloc)?,
            into: Parcel::new(alloc)?,
        })
    }

    /// Makes a call. One that its contract does not allow, and one that ends the epoch, counts as
    /// no memory.
    pub(crate) fn make(self, call: Call) -> Result<(Self, Answer), NoMemory> {
        match call {
            Call::Post(link, a) => self.post(link, a),
            Call::Collect(link) => self.collect(link),
        }
    }

    fn post(self, link: u32, a: u64) -> Result<(Self, Answer), NoMemory> {
        let Hand {
            mut port,
            grid,
            mut out,
            into,
        } = self;
        if link >= grid.links() {
            return Err(NoMemory);
        }
        let (hop, sender, _reader) = grid.ends(link);
        if hop != 1 || sender != port.rank() {
            return Err(NoMemory);
        }
        let _accepted = out.try_push(Entry {
            tag: Tag {
                d1: 0,
                d2: 0,
                d3: 0,
            },
            item: Item { a, b: 0, c: 0 },
        });
        let posted = port.post(link, &mut out)?;
        out.clear();
        match posted {
            Posted::Sent => {
                let hand = Hand {
                    port,
                    grid,
                    out,
                    into,
                };
                Ok((hand, Answer::Sent))
            }
            Posted::NoRoom => {
                let hand = Hand {
                    port,
                    grid,
                    out,
                    into,
                };
                Ok((hand, Answer::NoRoom))
            }
        }
    }

    fn collect(self, link: u32) -> Result<(Self, Answer), NoMemory> {
        let Hand {
            mut port,
            grid,
            out,
            mut into,
        } = self;
        if link >= grid.links() {
            return Err(NoMemory);
        }
        let (_hop, _sender, reader) = grid.ends(link);
        if reader != port.rank() {
            return Err(NoMemory);
        }
        match port.collect(link, &mut into) {
            Collected::Got => {
                let first = into.head();
                if into.last() {
                    return Err(NoMemory);
                }
                into.clear();
                let hand = Hand {
                    port,
                    grid,
                    out,
                    into,
                };
                match first {
                    Some(entry) => Ok((hand, Answer::Got(entry.item.a))),
                    None => Err(NoMemory),
                }
            }
            Collected::Nothing => {
                let hand = Hand {
                    port,
                    grid,
                    out,
                    into,
                };
                Ok((hand, Answer::Nothing))
            }
        }
    }
}
