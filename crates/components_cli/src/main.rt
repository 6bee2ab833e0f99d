//! The program `components_cli`: reads a square matrix in Matrix Market form from standard input,
//! and writes a line for each vertex, its number and the least number of its component, both from
//! 1. Eight ranks find them, on threads.
//!
//! That the labels are those is proved (`components_threads`); the streams no contract sees. The
//! statuses are those of `bale`:
//! 0, 3 and 4 if a read or a write failed, 5 and 6 if there is no matrix or no square one, 7
//! without memory.
#![tactic(auto)]

use bale_types::{Failed, Line, Out, Sink, StdinSource, StdoutSink};
use components::components_threads;
use mtx_text::{ReadFault, read_matrix};
use route_tensor::Grid;
use std::process::ExitCode;

fn main(rt: HostRuntime) -> ExitCode {
    let mut source = StdinSource::new(&rt);
    let m = match read_matrix(rt.alloc(), &mut source) {
        Ok(m) => m,
        Err(ReadFault::Source) => return ExitCode::from(3),
        Err(ReadFault::Bad(_)) => return ExitCode::from(5),
        Err(ReadFault::NoMemory) => return ExitCode::from(7),
    };
    if m.cols() != m.rows() {
        return ExitCode::from(6);
    }
    let Ok(grid) = Grid::new(&[8]) else {
        return ExitCode::from(7);
    };
    let Ok(labels) = components_threads(&rt, rt.alloc(), &m, &grid) else {
        return ExitCode::from(7);
    };
    let mut sink = StdoutSink::new(&rt);
    match write_labels(&labels, &mut sink) {
        Ok(()) => ExitCode::from(0),
        Err(Failed) => ExitCode::from(4),
    }
}

/// Writes a line for each vertex.
fn write_labels<K: Sink>(labels: &[u64], sink: &mut K) -> Result<(), Failed> {
    let mut out = Out::new(sink);
    for vertex in 0..labels.len() {
        let mut line = Line::new();
        line.number(vertex as u64 + 1);
        line.byte(b' ');
        line.number(labels[vertex].saturating_add(1));
        line.byte(b'\n');
        out.line(&line)?;
    }
    out.flush()
}
