//! Worked graphs on grids of one to five ranks, in turn and on threads.

use crate::drives::{components_serial, components_threads};
use bale_items::NoMemory;
use mtx_text::parse_matrix;
use route_tensor::Grid;
use std::alloc::Global;
use std::sync::Wait;
use std::test::Fail;
use std::thread::Threads;

/// Joined are 1-6, 6-3, 3-5 and 2-7; vertex 4 has an entry to itself.
const TWO: &[u8] =
    b"%%MatrixMarket matrix coordinate pattern general\n7 7 5\n6 1\n3 6\n5 3\n2 7\n4 4\n";

/// A way through all vertices, whose least number is at one end.
const WAY: &[u8] = b"%%MatrixMarket matrix coordinate pattern general\n5 5 4\n5 4\n4 3\n3 2\n2 1\n";

/// Whether both drives find these labels, on all grids.
fn both_find<R: Threads + Wait + Sync>(
    rt: &R,
    alloc: Global,
    text: &[u8],
    labels: &[u64],
) -> Result<bool, NoMemory> {
    let Ok(m) = parse_matrix(alloc, text) else {
        return Ok(false);
    };
    if m.cols() != m.rows() {
        return Ok(false);
    }
    for ranks in 1..6 {
        let Ok(grid) = Grid::new(&[ranks]) else {
            return Ok(false);
        };
        let serial = components_serial(alloc, &m, &grid)?;
        let threads = components_threads(rt, alloc, &m, &grid)?;
        if serial.as_slice() != labels || threads.as_slice() != labels {
            return Ok(false);
        }
    }
    Ok(true)
}

#[test]
fn two_components_and_a_vertex(rt: HostRuntime) -> Result<(), Fail> {
    assert!(rt; both_find(&rt, rt.alloc(), TWO, &[0, 1, 0, 3, 0, 0, 1])?);
    Ok(())
}

#[test]
fn a_long_way(rt: HostRuntime) -> Result<(), Fail> {
    assert!(rt; both_find(&rt, rt.alloc(), WAY, &[0, 0, 0, 0, 0])?);
    Ok(())
}
