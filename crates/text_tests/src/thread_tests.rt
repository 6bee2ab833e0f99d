//! Texts that are long enough to be parsed on several threads.

use bale_types::{MemSink, Out};
use mtx_text::{OnThreads, gen_matrix, parse_matrix, parse_matrix_by, write_matrix};
use std::alloc::{AllocError, Global};
use std::test::Fail;
use std::thread::Threads;

/// The text of a generated matrix of 7,000 entries, which has some 75,000 bytes.
fn long_text(alloc: Global) -> Result<Vec<u8>, Fail> {
    let m = gen_matrix(alloc, 1_000, 7_000, 7)?;
    let mut sink = MemSink::new(alloc, 100_000, 65_536, &[])?;
    let mut out = Out::new(&mut sink);
    write_matrix(&m, &mut out)?;
    out.flush()?;
    Ok(Vec::from_slice(alloc, sink.taken())?)
}

/// A text with more bytes behind the line that has the byte at an index.
fn with_line(alloc: Global, text: &[u8], at: usize, line: &str) -> Result<Vec<u8>, AllocError> {
    let (front, back) = text.split_at(at.min(text.len()));
    let end = match back.iter().position(|b| *b == b'\n') {
        Some(k) => back.len().min(k.saturating_add(1)),
        None => back.len(),
    };
    let (rest_of_line, others) = back.split_at(end);
    let mut all = Vec::from_slice(alloc, front)?;
    all.extend_from_slice(rest_of_line)?;
    all.extend_from_slice(line.as_bytes())?;
    all.extend_from_slice(others)?;
    Ok(all)
}

/// Whether a text has the same answer on so many threads as on one.
fn is_same<R: Threads + Sync>(rt: &R, alloc: Global, text: &[u8], threads: u32) -> bool {
    let on = OnThreads::new(rt, threads);
    match (parse_matrix(alloc, text), parse_matrix_by(&on, alloc, text)) {
        (Ok(a), Ok(b)) => {
            a.rows() == b.rows() && a.cols() == b.cols() && a.entries() == b.entries()
        }
        (Err(a), Err(b)) => a == b,
        _ => false,
    }
}

/// What is put into a text: nothing, lines that count for nothing, an entry that is read the
/// general way, one that is there already, and no entry.
const PUT: [&str; 6] = ["", "% a\n", "\r\n", "+1 1 1\n", "1 1 1\n1 1 1\n", "x\n"];

#[test]
fn same_on_threads(rt: HostRuntime) -> Result<(), Fail> {
    let text = long_text(rt.alloc())?;
    assert!(rt; text.len() > 66_000);
    for at in [15_000, 60_000] {
        for line in &PUT {
            let text = with_line(rt.alloc(), &text, at, line)?;
            assert!(rt; is_same(&rt, rt.alloc(), &text, 4), "{at} {line}");
        }
    }
    Ok(())
}
