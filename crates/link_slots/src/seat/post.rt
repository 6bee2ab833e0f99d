//! A post: a look for room if no empty slot is at hand, the exchange, and the ring.
ghost use Rattle.std.specs.Prelude.{◌≡◌, ◌≢◌, suc, ◌≤◌};
ghost use Rattle.link_slots.specs.Logs.{out_of, with_out, sent_of, got_of, sent_more, found_full};
ghost use Rattle.link_slots.specs.View.{own_logs};
ghost use Rattle.link_slots.specs.Shape.{IsBlank, MayFollow, KeepsLaw};
ghost use Rattle.link_slots.specs.Writing.{WritesLink, HasWrittenLink};
ghost use Rattle.link_slots.specs.Counts.{IsWire, HasPosted};

use crate::seat::ends::{OutEnd, slot_of};
use crate::table::rule::{Place, Top};
use crate::table::steps::{look_for_room, ring, send};
use crate::table::wire::Wire;
use item_buffer::Parcel;
use port_bank::Posted;

/// Looks for room if no empty slot of the link is at hand.
fn make_room<const CAP: usize>(
    top: &Top<CAP>,
    place: &mut Place<CAP>,
    end: &mut OutEnd,
    slots: u32,
    link: u32,
)
    requires writes { WritesLink top.now.key top.now.table_id place.old.table_id place.old.me link slots end.old }
    ensures left { HasWrittenLink top.now.key place.old.table_id place.new.table_id place.old.me place.new.me link
        end.new }
    ensures sent { (out_of (own_logs place.new.me.0) link).sent ≡ (out_of (own_logs place.old.me.0) link).sent }
    ensures looks { (out_of (own_logs place.old.me.0) link).looks ≤ (out_of (own_logs place.new.me.0) link).looks }
    ensures once { (out_of (own_logs place.new.me.0) link).looks ≤ suc (out_of (own_logs place.old.me.0) link).looks }
    ensures ready { end.old.spare ≢ 0 → place.new ≡ place.old }
    ensures found { end.new.spare ≡ 0 → out_of (own_logs place.new.me.0) link
        ≡ found_full (out_of (own_logs place.old.me.0) link) }
    ensures looked { end.new.spare ≡ 0 → (out_of (own_logs place.new.me.0) link).looks
        ≡ suc (out_of (own_logs place.old.me.0) link).looks }
    ensures all_room { end.new.spare ≡ 0 → top.now.key.slots ≤ (out_of (own_logs place.new.me.0) link).room }
{
    if end.spare == 0 {
        let found = look_for_room(top, place, link);
        end.spare = slots - end.sent.wrapping_sub(found) as u32;
    }
}

/// Posts the parcel on the link and rings for it, or finds in a look that every slot is taken.
pub(crate) fn post_on<const CAP: usize>(
    top: &Top<CAP>,
    place: &mut Place<CAP>,
    end: &mut OutEnd,
    wire: &Wire,
    slots: u32,
    link: u32,
    parcel: &mut Parcel<CAP>,
) -> Posted
    requires writes { WritesLink top.now.key top.now.table_id place.old.table_id place.old.me link slots end.old }
    requires wire { IsWire top.now.key.dims link wire.now.bell wire.now.mask wire.now.hop }
    requires parcel { MayFollow top.now.key.dims CAP link (out_of (own_logs place.old.me.0) link).sent parcel.old }
    requires law { KeepsLaw top.now.key.dims place.old.me.0.pick
        (sent_of (with_out (own_logs place.old.me.0) link
        (sent_more (out_of (own_logs place.old.me.0) link) parcel.old))) (got_of (own_logs place.old.me.0)) }
    ensures left { HasWrittenLink top.now.key place.old.table_id place.new.table_id place.old.me place.new.me link
        end.new }
    ensures emptied { result ≡ Posted.Sent → IsBlank parcel.new }
    ensures link { HasPosted top.now.key.slots (out_of (own_logs place.old.me.0) link)
        (out_of (own_logs place.new.me.0) link) parcel.old result }
    ensures kept { result ≡ Posted.NoRoom → parcel.new ≡ parcel.old }
{
    make_room(top, place, end, slots, link);
    if end.spare == 0 {
        return Posted::NoRoom;
    }
    let slot = slot_of(slots, link, end.sent);
    send(top, place, link, slot, parcel);
    ring(top, place, link, wire.bell, wire.mask);
    end.sent = end.sent.wrapping_add(1);
    end.spare -= 1;
    Posted::Sent
}
