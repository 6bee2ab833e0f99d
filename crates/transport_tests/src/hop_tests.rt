//! Rank states by hand, whose parcels are lent: a route of three hops, and the course of an epoch.
ghost use Rattle.std.specs.Prelude.{◌≡◌, ◌≢◌, ◌<◌, length, false, Some, IfOk};
ghost use Rattle.std.specs.List.{All};
ghost use Rattle.item_buffer.specs.Capacity.{IsCap};
ghost use Rattle.item_buffer.specs.Contents.{IsFresh};
ghost use Rattle.route_tensor.specs.Grid.{ranks};
ghost use Rattle.route_tensor.specs.Link.{links};
ghost use Rattle.route_tensor.specs.Ends.{hop_at, sender_at, reader_at};
ghost use Rattle.route_tensor.specs.Tag.{IsFair};
ghost use Rattle.hop_core.specs.Lent.Lent.{Nothing};

use bale_items::{Entry, Item, NoMemory, Tag};
use hop_core::{Phase, Pushed, RankState};
use item_buffer::Parcel;
use route_tensor::Grid;
use std::alloc::Global;
use std::process::Abort;
use std::test::Fail;

const ITEM: Item = Item { a: 7, b: 8, c: 9 };

/// The item with this tag.
fn entry(d1: u8, d2: u8, d3: u8) -> Entry {
    Entry {
        tag: Tag { d1, d2, d3 },
        item: ITEM,
    }
}

/// The state of a rank whose first epoch has begun.
fn begun<const HOPS: usize>(
    alloc: Global,
    grid: &Grid,
    rank: u32,
) -> Result<RankState<1, HOPS>, NoMemory>
    requires cap { IsCap 1 }
    requires hops { length grid.now ≡ HOPS }
    requires rank { rank < ranks grid.now }
    ensures dims { IfOk result (λ st. st.dims ≡ grid.now) }
    ensures rank { IfOk result (λ st. st.rank ≡ rank) }
    ensures none_lent { IfOk result (λ st. st.lent ≡ Nothing) }
    ensures epoch { IfOk result (λ st. st.epoch ≡ 0) }
    ensures working { IfOk result (λ st. st.phase ≡ Phase.Working) }
    ensures not_done { IfOk result (λ st. st.done ≡ false) }
{
    let mut state = RankState::new(alloc, grid, rank, false)?;
    state.begin();
    Ok(state)
}

/// The state of a rank whose first epoch has begun, with an item pushed toward a rank.
fn begun_and_pushed<const HOPS: usize>(
    rt: &impl Abort,
    alloc: Global,
    grid: &Grid,
    rank: u32,
    to: u32,
) -> Result<RankState<1, HOPS>, NoMemory>
    requires cap { IsCap 1 }
    requires hops { length grid.now ≡ HOPS }
    requires rank { rank < ranks grid.now }
    requires to { to < ranks grid.now }
    ensures dims { IfOk result (λ st. st.dims ≡ grid.now) }
    ensures rank { IfOk result (λ st. st.rank ≡ rank) }
    ensures none_lent { IfOk result (λ st. st.lent ≡ Nothing) }
    ensures epoch { IfOk result (λ st. st.epoch ≡ 0) }
{
    let mut state = begun(alloc, grid, rank)?;
    assert_eq!(rt; state.push(ITEM, to), Pushed::Accepted);
    Ok(state)
}

/// The parcel of a link goes from its sender to its reader, whose empty inbox comes back for it.
/// Answers its first entry.
fn carry<const HOPS: usize>(
    rt: &impl Abort,
    link: u32,
    from: &mut RankState<1, HOPS>,
    to: &mut RankState<1, HOPS>,
) -> Option<Entry>
    requires same_grid { to.old.dims ≡ from.old.dims }
    requires same_epoch { to.old.epoch ≡ from.old.epoch }
    requires from_none_lent { from.old.lent ≡ Nothing }
    requires to_none_lent { to.old.lent ≡ Nothing }
    requires link { link < links from.old.dims }
    requires starts_here { sender_at from.old.dims link ≡ from.old.rank }
    requires ends_here { reader_at from.old.dims link ≡ to.old.rank }
    ensures rest { to.new ≡ record to.old { ins = to.new.ins; pulled = to.new.pulled } }
    ensures fair { (e : _) → result ≡ Some e → IsFair from.old.dims (hop_at from.old.dims link) e.tag }
{
    assert!(rt; from.due(link));
    assert!(rt; to.wants(link));
    let parcel = from.lend_out(link);
    let first = parcel.head();
    let inbox = to.lend_in(link);
    from.note_sent(link, inbox, true);
    to.note_got(link, parcel, true);
    assert!(rt; !from.due(link));
    assert!(rt; !to.wants(link));
    first
}

/// The parcel of a link that has this number, hop, sender and reader is carried. Answers its first
/// entry, and the pair of ranks to which that belongs.
fn hop<const HOPS: usize>(
    rt: &impl Abort,
    grid: &Grid,
    link: (u32, u32, u32, u32),
    from: &mut RankState<1, HOPS>,
    to: &mut RankState<1, HOPS>,
) -> Option<(Entry, (u32, u32))>
    requires link { link.0 < links grid.now }
    requires from_grid { from.old.dims ≡ grid.now }
    requires to_grid { to.old.dims ≡ grid.now }
    requires same_epoch { to.old.epoch ≡ from.old.epoch }
    requires from_none_lent { from.old.lent ≡ Nothing }
    requires to_none_lent { to.old.lent ≡ Nothing }
    requires starts_here { from.old.rank ≡ link.2 }
    requires ends_here { to.old.rank ≡ link.3 }
    ensures rest { to.new ≡ record to.old { ins = to.new.ins; pulled = to.new.pulled } }
{
    let (h, a, b) = grid.ends(link.0);
    assert_eq!(rt; (h, a, b), (link.1, link.2, link.3));
    match carry(rt, link.0, from, to) {
        Some(first) => Some((first, grid.pair_of(first.tag, h, a, b))),
        None => None,
    }
}

#[test]
fn three_hops_by_lending(rt: HostRuntime) -> Result<(), Fail> {
    let grid = Grid::new(&[2, 2, 2])?;
    assert_eq!(rt; grid.ranks(), 8);
    assert_eq!(rt; grid.links(), 48);
    let mut one = begun_and_pushed::<3>(&rt, rt.alloc(), &grid, 1, 6)?;
    let mut zero = begun::<3>(rt.alloc(), &grid, 0)?;
    let mut two = begun::<3>(rt.alloc(), &grid, 2)?;
    let mut six = begun::<3>(rt.alloc(), &grid, 6)?;
    let first = hop(&rt, &grid, (2, 1, 1, 0), &mut one, &mut zero);
    assert_eq!(rt; first, Some((entry(0, 1, 1), (1, 6))));
    assert_eq!(rt; zero.relay(1), 1);
    let second = hop(&rt, &grid, (17, 2, 0, 2), &mut zero, &mut two);
    assert_eq!(rt; second, Some((entry(1, 0, 1), (1, 6))));
    assert_eq!(rt; two.relay(2), 1);
    let third = hop(&rt, &grid, (37, 3, 2, 6), &mut two, &mut six);
    assert_eq!(rt; third, Some((entry(1, 0, 0), (1, 6))));
    assert_eq!(rt; six.pull(), Some((1, ITEM)));
    Ok(())
}

/// The open parcel of the link from the rank to itself is lent twice: it comes back as it was, and
/// then it is sent.
fn send_to_itself(
    rt: &impl Abort,
    alloc: Global,
    state: &mut RankState<1, 1>,
) -> Result<Parcel<1>, NoMemory>
    requires none_lent { state.old.lent ≡ Nothing }
    requires epoch { state.old.epoch ≡ 0 }
    requires link { 0 < links state.old.dims }
    requires starts_here { sender_at state.old.dims 0 ≡ state.old.rank }
    ensures rest { state.new ≡ record state.old { outs = state.new.outs; pulled = state.new.pulled } }
    ensures fresh { IfOk result (λ p. IsFresh p) }
    ensures epoch { IfOk result (λ p. p.epoch ≡ 0) }
    ensures fair { IfOk result (λ p. All (λ e. IsFair state.old.dims (hop_at state.old.dims 0) e.tag) p.untaken) }
{
    let empty = Parcel::new(alloc)?;
    assert!(rt; state.due(0));
    let kept = state.lend_out(0);
    state.note_sent(0, kept, false);
    assert!(rt; state.due(0));
    let parcel = state.lend_out(0);
    state.note_sent(0, empty, true);
    assert!(rt; !state.due(0));
    Ok(parcel)
}

/// The inbox of that link is lent twice: it comes back empty, and then with this parcel.
fn get_from_itself(rt: &impl Abort, state: &mut RankState<1, 1>, parcel: Parcel<1>)
    requires none_lent { state.old.lent ≡ Nothing }
    requires link { 0 < links state.old.dims }
    requires ends_here { reader_at state.old.dims 0 ≡ state.old.rank }
    requires fresh { IsFresh parcel }
    requires epoch { parcel.epoch ≡ state.old.epoch }
    requires fair { All (λ e. IsFair state.old.dims (hop_at state.old.dims 0) e.tag) parcel.untaken }
    ensures rest { state.new ≡ record state.old { ins = state.new.ins; pulled = state.new.pulled } }
{
    assert!(rt; state.wants(0));
    let empty = state.lend_in(0);
    state.note_got(0, empty, false);
    assert!(rt; state.wants(0));
    let _inbox = state.lend_in(0);
    state.note_got(0, parcel, true);
    assert!(rt; !state.wants(0));
}

/// Sends one item to itself: the link is closed once its last parcel was sent, and not before.
#[test]
fn phases_by_lending(rt: HostRuntime) -> Result<(), Fail> {
    let grid = Grid::new(&[1])?;
    assert_eq!(rt; grid.ranks(), 1);
    assert!(rt; grid.links() > 0);
    assert_eq!(rt; grid.ends(0), (1, 0, 0));
    let mut state = begun::<1>(rt.alloc(), &grid, 0)?;
    assert_eq!(rt; state.push(ITEM, 0), Pushed::Accepted);
    state.set_done();
    assert_eq!(rt; state.settle(), Phase::Endgame);
    let parcel = send_to_itself(&rt, rt.alloc(), &mut state)?;
    assert!(rt; parcel.last());
    assert_eq!(rt; state.settle(), Phase::Cleanup);
    get_from_itself(&rt, &mut state, parcel);
    assert_eq!(rt; state.settle(), Phase::Cleanup);
    assert_eq!(rt; state.pull(), Some((0, ITEM)));
    assert_eq!(rt; state.settle(), Phase::Complete);
    Ok(())
}
