//! A matrix worked by hand, on both drives.

use crate::drives::{skeleton_serial, skeleton_threads};
use bale_items::NoMemory;
use mtx_text::parse_matrix;
use route_tensor::Grid;
use std::alloc::Global;
use std::sync::Wait;
use std::test::Fail;
use std::thread::Threads;

const TEXT: &[u8] =
    b"%%MatrixMarket matrix coordinate pattern general\n4 3 4\n3 1\n2 1\n4 3\n2 3\n";

/// The least row of each column, 4 if there is none.
const FOUND: &[u64] = &[1, 4, 1];

/// Whether both drives find it on grids of up to five ranks.
fn both_find<R: Threads + Wait + Sync>(rt: &R, alloc: Global) -> Result<bool, NoMemory> {
    let Ok(m) = parse_matrix(alloc, TEXT) else {
        return Ok(false);
    };
    for ranks in 1..6 {
        let Ok(grid) = Grid::new(&[ranks]) else {
            return Ok(false);
        };
        if skeleton_serial(alloc, &m, &grid)?.as_slice() != FOUND
            || skeleton_threads(rt, alloc, &m, &grid)?.as_slice() != FOUND
        {
            return Ok(false);
        }
    }
    Ok(true)
}

#[test]
fn least_rows(rt: HostRuntime) -> Result<(), Fail> {
    assert!(rt; both_find(&rt, rt.alloc())?);
    Ok(())
}
