//! Collects on the links in that want a parcel.
ghost use Rattle.std.specs.Prelude.{◌≡◌, ◌≢◌, ℕ, ◌<◌, ◌++◌, List};
ghost use Rattle.std.specs.List.{flat_map};
ghost use Rattle.item_buffer.specs.Contents.{Shipped, blank};
ghost use Rattle.route_tensor.specs.Link.{links};
ghost use Rattle.route_tensor.specs.Ends.{reader_at};
ghost use Rattle.route_tensor.specs.Neighbour.{in_index};
ghost use Rattle.port_bank.specs.Port.{is_idle};
ghost use Rattle.port_bank.specs.Calls.{once_if};
ghost use Rattle.port_bank.specs.Calls.Call.{Collect};
ghost use Rattle.port_bank.specs.Frames.{InsElsewhere};
ghost use Rattle.convey.specs.Buffers.{in_of};
ghost use Rattle.hop_core.specs.Link.{is_wanted};
ghost use Rattle.convey.specs.Due.{collects_of};
ghost use Rattle.convey.specs.AdvanceSteps.{IsReady, WasAsked, LeftByCollects};

use hop_core::RankState;
use item_buffer::Parcel;
use port_bank::{Collected, Port};

/// Collects once on each link in that wants a parcel, in ascending order. The spare parcel, which
/// is empty, goes round.
pub(crate) fn collect_all<const CAP: usize, const HOPS: usize, P: Port<CAP>>(
    state: &mut RankState<CAP, HOPS>,
    spare: &mut Parcel<CAP>,
    port: &mut P,
)
    requires empty { spare.old ≡ blank state.old.epoch }
    requires ready { IsReady (P.view port.old).dims (P.view port.old).rank state.old (P.view port.old).sent
        (P.view port.old).got }
    ensures empty { spare.new ≡ blank state.new.epoch }
    ensures asked { (l : ℕ) → l < links (P.view port.old).dims → reader_at (P.view port.old).dims l
        ≡ (P.view port.old).rank
        → WasAsked state.old l ((P.view port.old).got l) ((P.view port.new).got l) ((P.view port.old).noted l)
        ((P.view port.new).noted l)
        (is_idle (P.view port.new) l) }
    ensures calls { (P.view port.new).calls ≡ (P.view port.old).calls ++ collects_of state.old }
    ensures lies { (l : ℕ) (more : List Shipped) → l < links (P.view port.old).dims
        → reader_at (P.view port.old).dims l ≡ (P.view port.old).rank → (P.view port.new).got l
        ≡ (P.view port.old).got l ++ more
        → (in_of state.new l).parcel.untaken ≡ (in_of state.old l).parcel.untaken ++ flat_map (λ p. p.entries) more }
    ensures leaves { LeftByCollects state.old state.new (P.view port.old) (P.view port.new) }
{
    let count = state.routes().neighbours();
    for i in 0..count {
        let link = state.routes().neighbour(i).link_from;
        collect_one(state, spare, port, i, link);
    }
}

/// Collects once on the link in from this neighbour, if it wants a parcel: into the spare
/// parcel, which the inbox is then exchanged for.
pub(crate) fn collect_one<const CAP: usize, const HOPS: usize, P: Port<CAP>>(
    state: &mut RankState<CAP, HOPS>,
    spare: &mut Parcel<CAP>,
    port: &mut P,
    number: u32,
    link: u32,
)
    requires link { link < links (P.view port.old).dims }
    requires ends_here { reader_at (P.view port.old).dims link ≡ (P.view port.old).rank }
    requires number { number ≡ in_index (P.view port.old).dims link }
    requires empty { spare.old ≡ blank state.old.epoch }
    requires ready { IsReady (P.view port.old).dims (P.view port.old).rank state.old (P.view port.old).sent
        (P.view port.old).got }
    ensures empty { spare.new ≡ blank state.new.epoch }
    ensures asked { WasAsked state.old link ((P.view port.old).got link) ((P.view port.new).got link)
        ((P.view port.old).noted link)
        ((P.view port.new).noted link) (is_idle (P.view port.new) link) }
    ensures calls { (P.view port.new).calls
        ≡ (P.view port.old).calls ++ once_if (is_wanted (in_of state.old link)) (Collect link) }
    ensures lies { (more : List Shipped) → (P.view port.new).got link ≡ (P.view port.old).got link ++ more
        → (in_of state.new link).parcel.untaken ≡ (in_of state.old link).parcel.untaken ++ flat_map
        (λ p. p.entries) more }
    ensures inbox { (m : ℕ) → m < links (P.view port.old).dims → reader_at (P.view port.old).dims m
        ≡ (P.view port.old).rank → m ≢ link
        → in_of state.new m ≡ in_of state.old m }
    ensures elsewhere { InsElsewhere link (P.view port.old) (P.view port.new) }
    ensures leaves { LeftByCollects state.old state.new (P.view port.old) (P.view port.new) }
{
    state.known();
    if !state.wants_from(number) {
        return;
    }
    match port.collect(link, spare) {
        Collected::Got => state.take_in(number, spare),
        Collected::Nothing => {}
    }
}
