//! The table of a bank, and its rule.
use crate::table::plan::Plan;
use crate::table::slot::Slot;
use crate::table::view::Knows;
use atomic_table::{Seat, Shared, Table, TableRule};
use std::alloc::Global;

/// The rule of the table: between any two steps the bank is lawful.
pub struct Links<const CAP: usize>;

impl<const CAP: usize> TableRule<Slot<CAP>, Knows, Plan> for Links<CAP> {
    ghost use Rattle.route_tensor.specs.Grid.{ranks};
    ghost use Rattle.route_tensor.specs.Link.{links};
    ghost use Rattle.link_slots.specs.View.{first_view};
    ghost use Rattle.link_slots.specs.WordSteps.{IsLawful};

    ghost holds = { λ shape. IsLawful CAP shape };

    ghost first = { λ shape. first_view shape (ranks shape.dims) (links shape.dims) };
}

/// Word `2 * link` counts the parcels posted on a link, word `2 * link + 1` those released by its
/// reader, and the doorbells come after these words. Word number `n` is at word `16 * n` of the
/// table, on cache lines of its own. Parcel number n of a link goes through slot
/// `slots * link + n % slots`.
pub(crate) type Board<const CAP: usize> = Table<Slot<CAP>, Knows, Plan, Links<CAP>, Global>;

pub(crate) type Top<const CAP: usize> = Shared<Slot<CAP>, Knows, Plan, Links<CAP>>;

pub(crate) type Place<const CAP: usize> = Seat<Slot<CAP>, Knows>;
