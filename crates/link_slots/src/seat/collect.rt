//! A collect: a hear if it is due, a look into the marked link, and the exchange.
ghost use Rattle.std.specs.Prelude.{◌≡◌, ◌≢◌, ℕ, ◌^◌, ◌<◌, ◌≤◌, false, take, length};
ghost use Rattle.bale_items.specs.Counters.{RoseOrFull};
ghost use Rattle.route_tensor.specs.Link.{links};
ghost use Rattle.route_tensor.specs.Ends.{hop_at, reader_at};
ghost use Rattle.link_slots.specs.Logs.{in_of, with_in, listens};
ghost use Rattle.link_slots.specs.View.{own_logs};
ghost use Rattle.link_slots.specs.Shape.{IsBlank};
ghost use Rattle.link_slots.specs.Reading.{ReadsLink, HasRead, CollectsOn};
ghost use Rattle.list_laws.specs.Counts.{saturated_count};
ghost use Rattle.link_slots.specs.Counts.{AreGood, noted_by};
ghost use Rattle.link_slots.specs.Doorbell.{is_due, HeardWhere, looked_where_marked, LookedFor};

use crate::seat::ear::Ear;
use crate::seat::ends::{InEnd, slot_of};
use crate::table::rule::{Place, Top};
use crate::table::steps::{hear, look_in, receive};
use crate::table::wire::Wire;
use item_buffer::Parcel;
use port_bank::Collected;

/// Hears the doorbell of the link's hop, unless the link is marked, or the doorbell was heard since
/// its latest collect.
fn hear_if_due<const CAP: usize>(
    top: &Top<CAP>,
    place: &mut Place<CAP>,
    end: &InEnd,
    ear: &mut Ear,
    wire: &Wire,
    link: u32,
)
    requires reads { ReadsLink top.now.key top.now.table_id place.old.table_id place.old.me link end.now wire.now
        ear.old }
    ensures left { HasRead top.now.key place.old.table_id place.new.table_id place.old.me place.new.me link end.now
        ear.new }
    ensures seen { (in_of (own_logs place.new.me.0) link).seen ≡ (in_of (own_logs place.old.me.0) link).seen }
    ensures taken { (in_of (own_logs place.new.me.0) link).taken ≡ (in_of (own_logs place.old.me.0) link).taken }
    ensures look_ins { (in_of (own_logs place.new.me.0) link).look_ins
        ≡ (in_of (own_logs place.old.me.0) link).look_ins }
    ensures more { (in_of (own_logs place.old.me.0) link).hears ≤ (in_of (own_logs place.new.me.0) link).hears }
    ensures due { (in_of (own_logs place.new.me.0) link).marked ≡ false
        → RoseOrFull (noted_by end.now.noted (in_of (own_logs place.old.me.0) link))
        (saturated_count (listens (in_of (own_logs place.new.me.0) link))) }
    ensures heard { (m : ℕ) → m < links top.now.key.dims → reader_at top.now.key.dims m ≡ place.old.me.0.pick
        → hop_at top.now.key.dims m ≡ hop_at top.now.key.dims link
        → HeardWhere (is_due end.now.noted (in_of (own_logs place.old.me.0) link)) (in_of (own_logs place.old.me.0) m)
        (in_of (own_logs place.new.me.0) m) }
{
    if ear.marks & wire.mask == 0 && ear.hears <= end.noted {
        ear.marks |= hear(top, place, link, wire.bell);
        ear.hears = ear.hears.saturating_add(1);
    }
}

/// Looks into the link if it is marked, and takes its mark away. Answers how many parcels are at
/// hand then.
fn look_if_marked<const CAP: usize>(
    top: &Top<CAP>,
    place: &mut Place<CAP>,
    end: &mut InEnd,
    ear: &mut Ear,
    wire: &Wire,
    link: u32,
) -> u32
    requires reads { ReadsLink top.now.key top.now.table_id place.old.table_id place.old.me link end.old wire.now
        ear.old }
    requires none { end.old.waiting ≡ 0 }
    requires good { AreGood CAP top.now.key link (in_of (own_logs place.old.me.0) link) }
    ensures left { HasRead top.now.key place.old.table_id place.new.table_id place.old.me place.new.me link end.new
        ear.new }
    ensures good { AreGood CAP top.now.key link (in_of (own_logs place.new.me.0) link) }
    ensures seen { take (length (in_of (own_logs place.old.me.0) link).seen) (in_of (own_logs place.new.me.0) link).seen
        ≡ (in_of (own_logs place.old.me.0) link).seen }
    ensures taken { (in_of (own_logs place.new.me.0) link).taken ≡ (in_of (own_logs place.old.me.0) link).taken }
    ensures waiting { result ≡ end.new.waiting }
    ensures noted { end.new.noted ≡ end.old.noted }
    ensures unmarked { (in_of (own_logs place.new.me.0) link).marked ≡ false }
    ensures more { listens (in_of (own_logs place.old.me.0) link) ≤ listens (in_of (own_logs place.new.me.0) link) }
    ensures looked { own_logs place.new.me.0 ≡ with_in (own_logs place.old.me.0) link
        (looked_where_marked (in_of (own_logs place.new.me.0) link).seen (in_of (own_logs place.old.me.0) link)) }
{
    let mask = wire.mask;
    if ear.marks & mask != 0 {
        let found = look_in(top, place, link);
        let waiting = found.wrapping_sub(end.taken) as u32;
        end.waiting = waiting;
        ear.marks ^= mask;
        waiting
    } else {
        0
    }
}

/// Finds how many parcels of the link are at hand: if none is, it hears the doorbell if that is
/// due, and looks into the link if it is marked. It makes no other step.
fn find_parcel<const CAP: usize>(
    top: &Top<CAP>,
    place: &mut Place<CAP>,
    end: &mut InEnd,
    ear: &mut Ear,
    wire: &Wire,
    link: u32,
) -> u32
    requires reads { ReadsLink top.now.key top.now.table_id place.old.table_id place.old.me link end.old wire.now
        ear.old }
    requires good { AreGood CAP top.now.key link (in_of (own_logs place.old.me.0) link) }
    ensures left { HasRead top.now.key place.old.table_id place.new.table_id place.old.me place.new.me link end.new
        ear.new }
    ensures good { AreGood CAP top.now.key link (in_of (own_logs place.new.me.0) link) }
    ensures seen { take (length (in_of (own_logs place.old.me.0) link).seen) (in_of (own_logs place.new.me.0) link).seen
        ≡ (in_of (own_logs place.old.me.0) link).seen }
    ensures taken { (in_of (own_logs place.new.me.0) link).taken ≡ (in_of (own_logs place.old.me.0) link).taken }
    ensures waiting { result ≡ end.new.waiting }
    ensures noted { end.new.noted ≡ end.old.noted }
    ensures more { listens (in_of (own_logs place.old.me.0) link) ≤ listens (in_of (own_logs place.new.me.0) link) }
    ensures unmarked { end.new.waiting ≡ 0 → (in_of (own_logs place.new.me.0) link).marked ≡ false }
    ensures listened { end.new.waiting ≡ 0 → RoseOrFull (noted_by end.old.noted (in_of (own_logs place.old.me.0) link))
        (saturated_count (listens (in_of (own_logs place.new.me.0) link))) }
    // A parcel that is at hand costs no step.
    ensures at_hand { end.old.waiting ≢ 0 → place.new.me.0 ≡ place.old.me.0 }
    // Else the doorbell is heard if a hear is due, and the link is looked in if it is then
    // marked.
    ensures heard { end.old.waiting ≡ 0 → (m : ℕ) → m < links top.now.key.dims
        → reader_at top.now.key.dims m ≡ place.old.me.0.pick → hop_at top.now.key.dims m ≡ hop_at top.now.key.dims link
        → m ≢ link
        → HeardWhere (is_due end.old.noted (in_of (own_logs place.old.me.0) link)) (in_of (own_logs place.old.me.0) m)
        (in_of (own_logs place.new.me.0) m) }
    ensures looked { end.old.waiting ≡ 0 → LookedFor end.old.noted (in_of (own_logs place.old.me.0) link)
        (in_of (own_logs place.new.me.0) link) }
{
    if end.waiting == 0 {
        hear_if_due(top, place, end, ear, wire, link);
        look_if_marked(top, place, end, ear, wire, link)
    } else {
        end.waiting
    }
}

/// Collects the link's next parcel for the empty one at hand, if one is found.
///
/// Most collects that find nothing are of a link that isn't marked and for which no hear is due.
/// The seat's counts show that here; anything else is a call.
#[inline]
pub(crate) fn collect_on<const CAP: usize>(
    top: &Top<CAP>,
    place: &mut Place<CAP>,
    end: &mut InEnd,
    ear: &mut Ear,
    wire: &Wire,
    slots: u32,
    link: u32,
    parcel: &mut Parcel<CAP>,
) -> Collected
    requires reads { ReadsLink top.now.key top.now.table_id place.old.table_id place.old.me link end.old wire.now
        ear.old }
    requires slots { slots ≡ top.now.key.slots }
    requires good { AreGood CAP top.now.key link (in_of (own_logs place.old.me.0) link) }
    requires empty { IsBlank parcel.old }
    ensures left { HasRead top.now.key place.old.table_id place.new.table_id place.old.me place.new.me link end.new
        ear.new }
    ensures collects { CollectsOn CAP top.now.key place.old.me.0.pick link end.old end.new (own_logs place.old.me.0)
        (own_logs place.new.me.0) parcel.old result parcel.new }
{
    if end.waiting == 0 && ear.marks & wire.mask == 0 && ear.hears > end.noted {
        end.noted = ear.hears;
        return Collected::Nothing;
    }
    collect_now(top, place, end, ear, wire, slots, link, parcel)
}

/// Collects if the counts of the seat do not answer already: hears and looks in as far as is
/// due.
fn collect_now<const CAP: usize>(
    top: &Top<CAP>,
    place: &mut Place<CAP>,
    end: &mut InEnd,
    ear: &mut Ear,
    wire: &Wire,
    slots: u32,
    link: u32,
    parcel: &mut Parcel<CAP>,
) -> Collected
    requires reads { ReadsLink top.now.key top.now.table_id place.old.table_id place.old.me link end.old wire.now
        ear.old }
    requires slots { slots ≡ top.now.key.slots }
    requires good { AreGood CAP top.now.key link (in_of (own_logs place.old.me.0) link) }
    requires empty { IsBlank parcel.old }
    ensures left { HasRead top.now.key place.old.table_id place.new.table_id place.old.me place.new.me link end.new
        ear.new }
    ensures collects { CollectsOn CAP top.now.key place.old.me.0.pick link end.old end.new (own_logs place.old.me.0)
        (own_logs place.new.me.0) parcel.old result parcel.new }
{
    if find_parcel(top, place, end, ear, wire, link) == 0 {
        end.noted = ear.hears;
        return Collected::Nothing;
    }
    let slot = slot_of(slots, link, end.taken);
    receive(top, place, link, slot, parcel);
    end.taken = end.taken.wrapping_add(1);
    end.waiting -= 1;
    end.noted = ear.hears;
    Collected::Got
}
