//! What is measured.
ghost use Rattle.std.specs.Prelude.{◌<◌};

use crate::plain::over_plain;
use crate::shape::Shape;
use crate::slots::over_slots;
use bale_items::NoMemory;
use route_tensor::Grid;
use std::alloc::Global;

/// A measurement.
#[derive(Clone, Copy)]
pub(crate) struct Job {
    /// 0 for the plain bank with one rank, 1 for slot links, 2 for the plain bank with all ranks.
    pub(crate) bank: u64,
    /// The number of hops, or the number of ranks of a grid of one number.
    pub(crate) hops: u64,
    pub(crate) buffer: u64,
    /// Of each rank and epoch.
    pub(crate) items: u64,
    pub(crate) epochs: u64,
}

/// Does the job, and answers the sum of what came.
pub(crate) fn measure(alloc: Global, job: Job) -> Result<u64, NoMemory> {
    match job.hops {
        1 => on_grid(alloc, job, [4], [1]),
        2 => on_grid(alloc, job, [2, 2], [1, 1]),
        3 => on_grid(alloc, job, [2, 2, 2], [1, 1, 1]),
        16 => on_grid(alloc, job, [16], [1]),
        _ => on_grid(alloc, job, [64], [1]),
    }
}

/// Does the job on a grid, or on one of one rank, and answers the sum of what came.
fn on_grid<const HOPS: usize>(
    alloc: Global,
    job: Job,
    dims: [u32; HOPS],
    ones: [u32; HOPS],
) -> Result<u64, NoMemory> {
    let dims = if job.bank == 0 { ones } else { dims };
    let Ok(grid) = Grid::new(&dims) else {
        return Ok(0);
    };
    match job.buffer {
        1 => over(alloc, job, &Shape::<1, HOPS> { grid }),
        64 => over(alloc, job, &Shape::<64, HOPS> { grid }),
        _ => over(alloc, job, &Shape::<1024, HOPS> { grid }),
    }
}

fn over<const CAP: usize, const HOPS: usize>(
    alloc: Global,
    job: Job,
    shape: &Shape<CAP, HOPS>,
) -> Result<u64, NoMemory> {
    if job.bank == 1 {
        over_slots(alloc, job, shape)
    } else {
        over_plain(alloc, job, shape)
    }
}
