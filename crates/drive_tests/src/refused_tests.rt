//! A rank that refuses each absorb: both drives answer that memory ran out, and every rank goes
//! on turning.
ghost use Rattle.std.specs.Prelude.{◌<◌};
ghost use Rattle.bale_items.specs.Ledgers.{IsBlankOf};

use crate::gates::TestGate;
use crate::serial_tests::order_of;
use crate::watched::{Deed, Hands, Watch, Watched, is_counted, progs_of};
use bale_items::NoMemory;
use rank_group::{Steps, Via, drive_serial};
use route_tensor::Grid;
use std::alloc::Global;
use std::marker::Brand;
use std::sync::ledger::{Blank, Ledger};
use std::test::Fail;

#[test]
fn refused_absorbs(rt: HostRuntime) -> Result<(), Fail> {
    let all: &[u32] = &[0, 1, 2, 3];
    let lists = [all; 4];
    for (hands, via) in [
        (Hands::Workers(1, 0), Via::Convey),
        (Hands::Workers(4, 2), Via::Exstack),
        (Hands::Workers(3, 3), Via::Convey),
        (Hands::Threads, Via::Convey),
        (Hands::Threads, Via::Exstack),
    ] {
        let watch = Watch::new();
        let gate = TestGate::counts(rt.alloc(), 4)?;
        let told = is_counted(
            &rt,
            rt.alloc(),
            &lists,
            &watch,
            Deed::Refuses,
            &gate,
            hands,
            via,
            &[],
        );
        assert!(rt; told.is_err());
        assert!(rt; gate.has_counted(2));
    }
    Ok(())
}

/// Whether `drive_serial` answers that memory ran out, if rank 2 of four refuses each
/// absorb.
fn is_refused_serially<L: Ledger>(alloc: Global, via: Via, blank: Blank) -> Result<bool, NoMemory>
    requires blank { IsBlankOf L.name L.parts blank.name blank.parts }
{
    let Ok(grid) = Grid::new(&[4]) else {
        return Ok(false);
    };
    let watch = Watch::new();
    let all: &[u32] = &[0, 1, 2, 3];
    let ranks = grid.ranks();
    let progs = progs_of(alloc, ranks, &[all; 4], &watch, Deed::Refuses)?;
    let order = order_of(alloc, ranks, false)?;
    let mut steps = Steps::<L>::new(blank);
    let told = drive_serial::<1, 1, Watched<'_>, L>(
        alloc, &grid, via, 2, false, &order, progs, &mut steps,
    );
    Ok(told.is_err())
}

fn refused_serially(alloc: Global, via: Via) -> Result<bool, NoMemory> {
    is_refused_serially::<Brand>(alloc, via, Blank::new(1))
}

#[test]
fn refused_absorbs_serially(rt: HostRuntime) -> Result<(), Fail> {
    assert!(rt; refused_serially(rt.alloc(), Via::Convey)?);
    assert!(rt; refused_serially(rt.alloc(), Via::Exstack)?);
    Ok(())
}
