//! Texts cut into lines, and the fragments of lines.

use crate::rig::sent;
use app_tally::{Lines, LinesFault, read_lines, tally_start};
use bale_items::{Item, NoMemory};
use bale_types::MemSource;
use round_program::Program;
use std::alloc::Global;
use std::test::Fail;

/// The lines of a text in memory, read in pieces of so many bytes.
fn lines_in(alloc: Global, text: &[u8], piece: usize) -> Result<Lines, LinesFault> {
    if piece == 0 {
        return Err(LinesFault::NoMemory);
    }
    match MemSource::new(alloc, text, piece, &[]) {
        Ok(mut source) => read_lines(alloc, &mut source),
        Err(NoMemory) => Err(LinesFault::NoMemory),
    }
}

/// Whether lines are these.
fn are(lines: &Lines, wanted: &[&[u8]]) -> bool {
    let mut same = lines.len() == wanted.len();
    for i in 0..lines.len().min(wanted.len()) {
        same = same && lines.at(i) == wanted[i];
    }
    same
}

/// A program that a thread of its own may run.
fn may_cross<Q: Program + Send>(q: &Q) -> u32 {
    q.rank()
}

#[test]
fn texts_in_lines(rt: HostRuntime) -> Result<(), Fail> {
    let alloc = rt.alloc();
    let rows: [(&[u8], &[&[u8]]); 7] = [
        (b"b\na\nb\n\na b\n", &[b"b", b"a", b"b", b"", b"a b"]),
        (b"", &[]),
        (b"\n", &[b""]),
        (b"\n\n", &[b"", b""]),
        (b"no end", &[b"no end"]),
        (b"a\r\nb\r", &[b"a\r", b"b\r"]),
        (b"\xff\x00\n \t", &[b"\xff\x00", b" \t"]),
    ];
    for (text, wanted) in rows {
        for piece in [1, 3, 65_536] {
            match lines_in(alloc, text, piece) {
                Ok(lines) => assert!(rt; are(&lines, wanted), "{text:?} by {piece}"),
                Err(_) => assert!(rt; false, "{text:?}"),
            }
        }
    }
    Ok(())
}

#[test]
fn fragments_of_a_line(rt: HostRuntime) -> Result<(), Fail> {
    let alloc = rt.alloc();
    match lines_in(alloc, b"abcdefghijklmnopq", 64) {
        Ok(lines) => {
            let progs = tally_start(alloc, &lines, 2)?;
            let all = match progs.get(0) {
                Some(q) => {
                    assert!(rt; may_cross(q) == 0);
                    sent(alloc, q)?
                }
                None => Vec::new(alloc),
            };
            let first = Item {
                a: 17,
                b: 0x6867_6665_6463_6261,
                c: 0x706f_6e6d_6c6b_6a69,
            };
            let second = Item { a: 113, b: 0, c: 0 };
            assert!(rt; all.as_slice() == [(1, first), (1, second)].as_slice());
            assert!(rt;
                matches!(progs.get(1), Some(q) if q.count() == 0 && q.round() == 0 && q.ranks() == 2)
            );
        }
        Err(_) => assert!(rt; false),
    }
    Ok(())
}

#[test]
fn items_of_a_longest_line(rt: HostRuntime) -> Result<(), Fail> {
    let alloc = rt.alloc();
    let text = vec![in alloc; b'x'; 65_535]?;
    match lines_in(alloc, text.as_slice(), 65_536) {
        Ok(lines) => {
            let progs = tally_start(alloc, &lines, 4)?;
            assert!(rt; matches!(progs.get(0), Some(q) if q.count() == 2_731));
        }
        Err(_) => assert!(rt; false),
    }
    Ok(())
}
