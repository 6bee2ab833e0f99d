//! The ranks of an exchange get their seats at two slot banks and go to their ports, and leave
//! them.

ghost use Rattle.std.specs.Prelude.{◌≡◌, Bool, List, map, slice_index_or, Some, None, IfOk, OnOk};
ghost use Rattle.list_laws.specs.Lists.{EachAt};
ghost use Rattle.biconvey.specs.Drives.{AreFreshBiRanks};
ghost use Rattle.biconvey.specs.Seats.{MaySeatAll, AreAtSeats, AreSeatedBiRanks};

use crate::at_ports::AtPorts;
use bale_items::NoMemory;
use link_slots::{GatherSeat, SlotBank};
use query_node::BiNode;
use rank_group::{NotingPort, one_by_one};
use round_program::Asker;
use std::alloc::Global;

/// Gives each rank its two seats, with which it goes to its ports.
pub(crate) fn seat_all<'a, const CAP: usize, const HOPS: usize, A: Asker>(
    alloc: Global,
    queries: &'a SlotBank<CAP>,
    of_queries: &mut GatherSeat<CAP>,
    replies: &'a SlotBank<CAP>,
    of_replies: &mut GatherSeat<CAP>,
    all: Vec<BiNode<A, CAP, HOPS>>,
) -> Result<Vec<AtPorts<'a, A, CAP, HOPS>>, NoMemory>
    requires seats { MaySeatAll A.talk queries.now replies.now of_queries.old of_replies.old all.items }
    ensures queries { (of_queries.new.id ≡ queries.now.id) × (of_queries.new.shape ≡ queries.now.shape) }
    ensures replies { (of_replies.new.id ≡ replies.now.id) × (of_replies.new.shape ≡ replies.now.shape) }
    ensures nodes { IfOk result (λ xs. map (λ x. x.node) xs.items ≡ all.items) }
    ensures seated { (steady : Bool) (askers : List A) → AreFreshBiRanks A.talk queries.now.shape.dims steady askers
        all.items
        → IfOk result (λ xs. AreSeatedBiRanks A.talk CAP steady queries.now replies.now xs.items) }
{
    let Ok(mut seated) = Vec::with_capacity(alloc, all.len()) else {
        return Err(NoMemory);
    };
    let mut number = 0;
    let Ok(all) = one_by_one(alloc, all) else {
        return Err(NoMemory);
    };
    for node in all {
        let asking = queries.seat(of_queries, number);
        let replying = replies.seat(of_replies, number);
        let asking = NotingPort::new(queries.port(asking));
        let replying = NotingPort::new(replies.port(replying));
        seated.push_reserved(AtPorts {
            _before: [0; 8],
            node,
            queries: asking,
            replies: replying,
            turns: 0,
            _after: [0; 8],
        });
        number += 1;
    }
    Ok(seated)
}

/// Gathers the seats of ranks whose ways are complete.
///
/// # Errors
/// `NoMemory` if there was none for a list.
pub(crate) fn gather_all<'a, const CAP: usize, const HOPS: usize, A: Asker>(
    alloc: Global,
    queries: &SlotBank<CAP>,
    of_queries: &mut GatherSeat<CAP>,
    replies: &SlotBank<CAP>,
    of_replies: &mut GatherSeat<CAP>,
    ended: Vec<AtPorts<'a, A, CAP, HOPS>>,
) -> Result<Vec<BiNode<A, CAP, HOPS>>, NoMemory>
    requires queries { (of_queries.old.id ≡ queries.now.id) × (of_queries.old.shape ≡ queries.now.shape) }
    requires replies { (of_replies.old.id ≡ replies.now.id) × (of_replies.old.shape ≡ replies.now.shape) }
    requires ended { AreAtSeats queries.now replies.now ended.items }
    ensures queries { (of_queries.new.id ≡ queries.now.id) × (of_queries.new.shape ≡ queries.now.shape) }
    ensures replies { (of_replies.new.id ≡ replies.now.id) × (of_replies.new.shape ≡ replies.now.shape) }
    ensures nodes { IfOk result (λ ns. ns.items ≡ map (λ y. y.node) ended.entry.items) }
    ensures queries_there { OnOk result
        (EachAt (λ r y. slice_index_or of_queries.new.lists r None ≡ Some y.queries.lists) ended.entry.items) }
    ensures replies_there { OnOk result
        (EachAt (λ r y. slice_index_or of_replies.new.lists r None ≡ Some y.replies.lists) ended.entry.items) }
{
    let Ok(mut nodes) = Vec::with_capacity(alloc, ended.len()) else {
        return Err(NoMemory);
    };
    let Ok(ended) = one_by_one(alloc, ended) else {
        return Err(NoMemory);
    };
    for seated in ended {
        let AtPorts {
            _before: _,
            node,
            queries: asking,
            replies: replying,
            turns: _,
            _after: _,
        } = seated;
        queries.gather(of_queries, asking.into_seat());
        replies.gather(of_replies, replying.into_seat());
        nodes.push_reserved(node);
    }
    Ok(nodes)
}
