//! The order in which `drive_serial` turns the ranks: its clause says that a run in that order ends
//! as this one did, and any order does.
ghost use Rattle.std.specs.Prelude.{◌<◌};
ghost use Rattle.bale_items.specs.Ledgers.{IsBlankOf};

use crate::serial_tests::order_of;
use crate::watched::{Deed, Watch, Watched, progs_of};
use bale_items::NoMemory;
use rank_group::{Steps, Via, drive_serial};
use route_tensor::Grid;
use std::alloc::Global;
use std::marker::Brand;
use std::sync::ledger::{Blank, Ledger};
use std::test::Fail;

/// Which of three ranks were turned in the first two sweeps, if the sweeps go from rank 0 up, or
/// from rank 2 down.
fn turned_by<L: Ledger>(alloc: Global, reversed: bool, blank: Blank) -> Result<u64, NoMemory>
    requires blank { IsBlankOf L.name L.parts blank.name blank.parts }
{
    let Ok(grid) = Grid::new(&[3]) else {
        return Ok(0);
    };
    let watch = Watch::new();
    let all: &[u32] = &[0, 1, 2];
    let ranks = grid.ranks();
    let progs = progs_of(alloc, ranks, &[all; 3], &watch, Deed::Logs)?;
    let order = order_of(alloc, ranks, reversed)?;
    let mut steps = Steps::<L>::new(blank);
    let told = drive_serial::<1, 1, Watched<'_>, L>(
        alloc,
        &grid,
        Via::Convey,
        2,
        false,
        &order,
        progs,
        &mut steps,
    );
    if told.is_err() {
        return Ok(0);
    }
    Ok(watch.turns())
}

fn turned(alloc: Global, reversed: bool) -> Result<u64, NoMemory> {
    turned_by::<Brand>(alloc, reversed, Blank::new(1))
}

/// Each digit is one more than the number of a rank.
#[test]
fn sweeps_go_by_the_order(rt: HostRuntime) -> Result<(), Fail> {
    assert_eq!(rt; turned(rt.alloc(), false)?, 0x12_31_23);
    assert_eq!(rt; turned(rt.alloc(), true)?, 0x32_13_21);
    Ok(())
}
