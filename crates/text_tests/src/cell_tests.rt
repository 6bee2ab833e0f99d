//! Matrices made of cells and of seeds, and that calls succeed with ample memory.

use bale_items::{NoMemory, Triple};
use bale_types::{MemSink, Out};
use mtx_text::{Cells, Kind, Matrix, Words, gen_matrix, write_matrix};
use std::alloc::Global;
use std::test::Fail;

/// What is written of a matrix.
pub(crate) fn written(alloc: Global, m: &Matrix) -> Result<Vec<u8>, Fail> {
    let mut sink = MemSink::new(alloc, 4_096, 7, &[])?;
    let mut out = Out::new(&mut sink);
    write_matrix(m, &mut out)?;
    out.flush()?;
    Ok(Vec::from_slice(alloc, sink.taken())?)
}

const fn cell(i: u32, j: u32, v: i64) -> Triple {
    Triple { i, j, v }
}

/// Raises and puts cells; whether the puts answer as they should.
fn fill(cells: &mut Cells) -> Result<bool, NoMemory> {
    cells.raise(2, 0, -7)?;
    cells.raise(0, 1, 3)?;
    let put = [
        cells.put(0, 2, 1)?,
        cells.put(0, 1, 9)?,
        cells.put(1, 5, 2)?,
    ];
    cells.raise(0, 1, 4)?;
    cells.raise(0, 1, 2)?;
    Ok(put == [true, false, true])
}

/// Whether these are the cells, each found at or after the place that follows the one before.
fn are_found(cells: &Cells, wanted: &[Triple]) -> bool {
    let (mut i, mut j) = (0, 0);
    for c in wanted {
        if cells.at_or_after(i, j) != Some(*c) {
            return false;
        }
        (i, j) = (c.i, c.j.saturating_add(1));
    }
    cells.at_or_after(i, j) == None && cells.at_or_after(u32::MAX, u32::MAX) == None
}

#[test]
fn cells_by_hand(rt: HostRuntime) -> Result<(), Fail> {
    let mut cells = Cells::new(rt.alloc());
    assert!(rt; are_found(&cells, &[]));
    assert!(rt; fill(&mut cells)?);
    let wanted = [cell(0, 1, 4), cell(0, 2, 1), cell(1, 5, 2), cell(2, 0, -7)];
    assert!(rt; are_found(&cells, &wanted));
    cells.settle();
    assert!(rt; are_found(&cells, &wanted), "settled");
    assert!(rt; cells.into_entries().as_slice() == wanted.as_slice());
    Ok(())
}

#[test]
fn a_matrix_of_no_cells(rt: HostRuntime) -> Result<(), Fail> {
    let cells = Cells::new(rt.alloc());
    let m = Matrix::of_cells(rt.alloc(), 3, 2, Kind::Integer, &cells)?;
    let text = b"%%MatrixMarket matrix coordinate integer general\n3 2 0\n";
    assert!(rt; written(rt.alloc(), &m)?.as_slice() == text.as_slice());
    Ok(())
}

#[test]
fn words_of_seed_42(rt: HostRuntime) -> Result<(), Fail> {
    let mut words = Words::of_seed(42);
    for wanted in [0xa15c02b7, 0x7b47f409, 0xba1d3330, 0x83d2f293, 0xbfa4784b] {
        assert!(rt; words.draw() == wanted, "{wanted}");
    }
    Ok(())
}

#[test]
fn generated_matrices(rt: HostRuntime) -> Result<(), Fail> {
    let m = gen_matrix(rt.alloc(), 2, 3, 42)?;
    let text =
        b"%%MatrixMarket matrix coordinate integer general\n2 2 3\n1 1 825\n2 2 956\n1 2 956\n";
    assert!(rt; written(rt.alloc(), &m)?.as_slice() == text.as_slice());
    let one = gen_matrix(rt.alloc(), 1, 1, 42)?;
    let text = b"%%MatrixMarket matrix coordinate integer general\n1 1 1\n1 1 784\n";
    assert!(rt; written(rt.alloc(), &one)?.as_slice() == text.as_slice());
    Ok(())
}
