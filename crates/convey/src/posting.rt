//! Posts on the links out that are due.
ghost use Rattle.std.specs.Prelude.{◌≡◌, ◌≢◌, ℕ, ◌<◌, ◌++◌, false, None, IsOk, IsErr, OnOk};
ghost use Rattle.item_buffer.specs.Contents.{blank};
ghost use Rattle.route_tensor.specs.Link.{links};
ghost use Rattle.route_tensor.specs.Ends.{sender_at};
ghost use Rattle.route_tensor.specs.Neighbour.{out_index};
ghost use Rattle.port_bank.specs.Port.{is_crowded};
ghost use Rattle.port_bank.specs.Calls.{once_if};
ghost use Rattle.port_bank.specs.Calls.Call.{Post};
ghost use Rattle.port_bank.specs.Frames.{OutsElsewhere};
ghost use Rattle.convey.specs.Buffers.{out_of};
ghost use Rattle.convey.specs.Due.{IsDue, WasServed, StopsAt, was_served, posts_below};
ghost use Rattle.convey.specs.AdvanceSteps.{IsReady, WasPosted, LeftByPosts};

use bale_items::NoMemory;
use hop_core::RankState;
use item_buffer::Parcel;
use port_bank::{Port, Posted};

/// Posts once on each link out that is due, in ascending order. The spare parcel, which is empty,
/// goes round.
///
/// # Errors
/// `NoMemory` comes only from the port's post. What was posted before it stays posted.
pub(crate) fn post_all<const CAP: usize, const HOPS: usize, P: Port<CAP>>(
    state: &mut RankState<CAP, HOPS>,
    spare: &mut Parcel<CAP>,
    port: &mut P,
) -> Result<(), NoMemory>
    requires empty { spare.old ≡ blank state.old.epoch }
    requires ready { IsReady (P.view port.old).dims (P.view port.old).rank state.old (P.view port.old).sent
        (P.view port.old).got }
    ensures empty { spare.new ≡ blank state.new.epoch }
    ensures served { OnOk result ((l : ℕ) → l < links (P.view port.old).dims
        → sender_at (P.view port.old).dims l ≡ (P.view port.old).rank
        → WasServed state.new l ((P.view port.old).looks_out l) ((P.view port.new).looks_out l)
        (is_crowded (P.view port.new) l)) }
    ensures calls { OnOk result ((P.view port.new).calls
        ≡ (P.view port.old).calls ++ posts_below state.new (P.view port.old).sent (P.view port.new).sent
        (links state.new.dims)) }
    ensures stops { IsErr result
        → StopsAt state.new (P.view port.old).sent (P.view port.new).sent (P.view port.old).calls
        (P.view port.new).calls }
    ensures memory { P.Memory.GROWS ≡ false → IsOk result }
    ensures forgotten { IsErr result → state.new.pulled ≡ None }
    ensures waits { (l : ℕ) → l < links (P.view port.old).dims → sender_at (P.view port.old).dims l
        ≡ (P.view port.old).rank
        → (P.view port.new).sent l ≡ (P.view port.old).sent l
        → (out_of state.new l).parcel.untaken ≡ (out_of state.old l).parcel.untaken }
    ensures posted { (l : ℕ) → l < links (P.view port.old).dims → sender_at (P.view port.old).dims l
        ≡ (P.view port.old).rank
        → WasPosted (out_of state.old l).parcel.untaken ((P.view port.old).sent l) ((P.view port.new).sent l) }
    ensures leaves { LeftByPosts state.old state.new (P.view port.old) (P.view port.new) }
{
    for i in 0..state.routes().neighbours() {
        let link = state.routes().neighbour(i).link_to;
        post_one(state, spare, port, i, link)?;
    }
    Ok(())
}

/// Posts once on the link out to this neighbour, if it is due: the open parcel is exchanged for
/// the spare one, and back if it could not be sent.
pub(crate) fn post_one<const CAP: usize, const HOPS: usize, P: Port<CAP>>(
    state: &mut RankState<CAP, HOPS>,
    spare: &mut Parcel<CAP>,
    port: &mut P,
    number: u32,
    link: u32,
) -> Result<(), NoMemory>
    requires link { link < links (P.view port.old).dims }
    requires starts_here { sender_at (P.view port.old).dims link ≡ (P.view port.old).rank }
    requires number { number ≡ out_index (P.view port.old).dims link }
    requires empty { spare.old ≡ blank state.old.epoch }
    requires ready { IsReady (P.view port.old).dims (P.view port.old).rank state.old (P.view port.old).sent
        (P.view port.old).got }
    ensures empty { spare.new ≡ blank state.new.epoch }
    ensures served { OnOk result (WasServed state.new link ((P.view port.old).looks_out link)
        ((P.view port.new).looks_out link)
        (is_crowded (P.view port.new) link)) }
    ensures calls { OnOk result ((P.view port.new).calls ≡ (P.view port.old).calls
        ++ once_if (was_served state.new link ((P.view port.old).sent link) ((P.view port.new).sent link)) (Post link)) }
    ensures no_post { IsErr result → (P.view port.new).calls ≡ (P.view port.old).calls }
    ensures still_due { IsErr result → IsDue state.new link }
    ensures memory { P.Memory.GROWS ≡ false → IsOk result }
    ensures forgotten { IsErr result → state.new.pulled ≡ None }
    ensures out { (m : ℕ) → m < links (P.view port.old).dims → sender_at (P.view port.old).dims m
        ≡ (P.view port.old).rank → m ≢ link
        → out_of state.new m ≡ out_of state.old m }
    ensures posted { WasPosted (out_of state.old link).parcel.untaken ((P.view port.old).sent link)
        ((P.view port.new).sent link) }
    ensures waits { (P.view port.new).sent link ≡ (P.view port.old).sent link → (out_of state.new link).parcel.untaken
        ≡ (out_of state.old link).parcel.untaken }
    ensures elsewhere { OutsElsewhere link (P.view port.old) (P.view port.new) }
    ensures leaves { LeftByPosts state.old state.new (P.view port.old) (P.view port.new) }
{
    state.known();
    if !state.due_to(number) {
        return Ok(());
    }
    let outgoing = state.take_out(number, spare);
    match port.post(link, spare) {
        Ok(Posted::Sent) => {
            outgoing.sent();
            Ok(())
        }
        Ok(Posted::NoRoom) => {
            outgoing.put_back(spare);
            Ok(())
        }
        Err(fault) => {
            outgoing.put_back(spare);
            Err(fault)
        }
    }
}
