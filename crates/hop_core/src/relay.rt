//! The relay: entries that have come over one hop go on to the open parcels of the next.

ghost use Rattle.std.specs.Prelude.{◌≡◌, ℕ, ◌+◌, ◌-◌, ◌<◌, ◌≤◌, length, sum, drop, slice_index_or, false};
ghost use Rattle.item_buffer.specs.declared.capacity.TheConstants.{MOST_ENTRIES};
ghost use Rattle.list_laws.specs.Lists.{EachAt};
ghost use Rattle.route_tensor.specs.Neighbour.{hop_to};
ghost use Rattle.hop_core.specs.Link.{no_out, no_in, is_finished, read_on};
ghost use Rattle.hop_core.specs.Standing.{IsOut, IsIn};
ghost use Rattle.hop_core.specs.Relay.{MayPassOn, PassesOn, RelaysHop, AddsToHop, IsStopped, outs_after_relay, passed_count};
ghost use Rattle.hop_core.specs.State.{ins_of_hop};
ghost use Rattle.std.specs.List.{list_all};

use crate::in_links::InLink;
use crate::out_links::OutLink;
use bale_items::{Entry, Item};
use route_tensor::Routes;

/// Passes the entries of link in number `i` on, in order, until none is left or the open parcel of
/// the first one is full. Answers how many it passed on.
pub fn relay_link<const CAP: usize>(
    routes: &Routes,
    outs: &mut Vec<OutLink<CAP>>,
    link: &mut InLink<CAP>,
    i: u32,
) -> u64
    requires may { MayPassOn routes.now.dims CAP i outs.old.items }
    requires link { IsIn routes.now.dims CAP (hop_to routes.now.dims i) link.old }
    requires not_closed { (o : ℕ) → hop_to routes.now.dims o ≡ hop_to routes.now.dims i + 1
        → 0 < length link.old.parcel.untaken → (slice_index_or outs.old.items o no_out).closed ≡ false }
    ensures each { EachAt (λ o out. IsOut routes.now.dims CAP (hop_to routes.now.dims o) out) outs.new.items }
    ensures link { IsIn routes.now.dims CAP (hop_to routes.now.dims i) link.new }
    ensures passes_on { PassesOn routes.now.dims routes.now.rank
        (hop_to routes.now.dims i) i outs.old.items outs.new.items link.old link.new }
    ensures adds { AddsToHop routes.now.dims (hop_to routes.now.dims i + 1) outs.old.items outs.new.items }
    ensures rest { link.new.parcel.untaken ≡ drop result link.old.parcel.untaken }
    ensures count { result + length link.new.parcel.untaken ≡ length link.old.parcel.untaken }
    ensures ended { link.new.ended ≡ link.old.ended }
    ensures stopped { IsStopped routes.now.dims CAP (hop_to routes.now.dims i) outs.new.items link.new }
    ensures outs { outs.new.items ≡ outs_after_relay routes.now.dims routes.now.rank CAP i outs.old.items
        link.old.parcel.untaken }
    ensures ins { link.new ≡ read_on (passed_count routes.now.dims routes.now.rank CAP i outs.old.items
        link.old.parcel.untaken) link.old }
{
    let count = pass_on(routes, outs, link, i);
    link.skip(count);
    count as u64
}

/// Appends the entries of link in number `i` to the open parcels of their next links, in order,
/// until all are there or the open parcel of the next one is full. Answers how many it appended;
/// they are still to be taken.
fn pass_on<const CAP: usize>(
    routes: &Routes,
    outs: &mut Vec<OutLink<CAP>>,
    link: &InLink<CAP>,
    i: u32,
) -> usize
    requires may { MayPassOn routes.now.dims CAP i outs.old.items }
    requires link { IsIn routes.now.dims CAP (hop_to routes.now.dims i) link.now }
    requires not_closed { (o : ℕ) → hop_to routes.now.dims o ≡ hop_to routes.now.dims i + 1
        → 0 < length link.now.parcel.untaken → (slice_index_or outs.old.items o no_out).closed ≡ false }
    ensures each { EachAt (λ o out. IsOut routes.now.dims CAP (hop_to routes.now.dims o) out) outs.new.items }
    ensures link { IsIn routes.now.dims CAP (hop_to routes.now.dims i) (read_on result link.now) }
    ensures passes_on { PassesOn routes.now.dims routes.now.rank
        (hop_to routes.now.dims i) i outs.old.items outs.new.items link.now (read_on result link.now) }
    ensures adds { AddsToHop routes.now.dims (hop_to routes.now.dims i + 1) outs.old.items outs.new.items }
    ensures within { result ≤ length link.now.parcel.untaken }
    ensures stopped { IsStopped routes.now.dims CAP (hop_to routes.now.dims i) outs.new.items
        (read_on result link.now) }
    ensures outs { outs.new.items ≡ outs_after_relay routes.now.dims routes.now.rank CAP i outs.old.items
        link.now.parcel.untaken }
    ensures passes { result ≡ passed_count routes.now.dims routes.now.rank CAP i outs.old.items
        link.now.parcel.untaken }
{
    routes.known();
    let from = routes.neighbour(i);
    let mut count = 0;
    for entry in link.unread() {
        let step = from.passed_on(entry.tag);
        let Item { a, b, c } = entry.item;
        let passed = Entry {
            tag: step.tag,
            item: Item { a, b, c },
        };
        if !outs[step.out as usize].push(passed) {
            return count;
        }
        count += 1;
    }
    count
}

/// Relays the entries of each link in of hop `h`, in ascending order. Answers how many were passed
/// on.
pub fn relay_hop<const CAP: usize>(
    routes: &Routes,
    outs: &mut Vec<OutLink<CAP>>,
    ins: &mut Vec<InLink<CAP>>,
    h: u32,
) -> u64
    requires first { 1 ≤ h }
    requires last { h < length routes.now.dims }
    requires small { CAP ≤ MOST_ENTRIES }
    requires all_outs { length outs.old.items ≡ sum routes.now.dims }
    requires all_ins { length ins.old.items ≡ sum routes.now.dims }
    requires each_out { EachAt (λ o out. IsOut routes.now.dims CAP (hop_to routes.now.dims o) out) outs.old.items }
    requires each_in { EachAt (λ i x. IsIn routes.now.dims CAP (hop_to routes.now.dims i) x) ins.old.items }
    requires not_closed { (o : ℕ) → hop_to routes.now.dims o ≡ h + 1
        → list_all is_finished (ins_of_hop routes.now.dims ins.old.items h) ≡ false
        → (slice_index_or outs.old.items o no_out).closed ≡ false }
    ensures each_out { EachAt (λ o out. IsOut routes.now.dims CAP (hop_to routes.now.dims o) out) outs.new.items }
    ensures each_in { EachAt (λ i x. IsIn routes.now.dims CAP (hop_to routes.now.dims i) x) ins.new.items }
    ensures relays { RelaysHop routes.now.dims routes.now.rank CAP h
        (record { outs = outs.old.items; ins = ins.old.items })
        (record { outs = outs.new.items; ins = ins.new.items }) result }
{
    let mut count = 0;
    let from = routes.first_of(h);
    for i in from..routes.first_of(h + 1) {
        count += relay_link(routes, outs, &mut ins[i as usize], i);
    }
    count
}
