//! Sources and sinks that fail.
use crate::rig::{Call, ONE, Watch, ample, make};
use std::alloc::Global;
use std::sync::Wait;
use std::test::Fail;
use std::thread::Threads;

const READ_FAULT: &str = "3 bale: read fault\n";

const ANSWER: &str = "0 1 1\n2 0\n3 3\n";

/// Five lines, of which two are equal and one is empty.
const LINES: &[u8] = b"b\na\nb\n\na b\n";

const TALLY: &str = "0 1 \n1 a\n1 a b\n2 b\n";

/// Two entries are promised, and one is there.
const FEW: &[u8] = b"%%MatrixMarket matrix coordinate pattern general\n3 3 2\n1 1\n";

/// An answer of three thousand lines, longer than the program's buffer.
const COLUMNS: &[u8] = b"%%MatrixMarket matrix coordinate pattern general\n3000 3000 0\n";

const BY_BICONVEY: &str = "ig --via biconvey --grid 2x2 --buffer 1";

/// Makes a call on both drives: whether its status, out and err are these.
fn tells<R: Threads + Wait + Sync>(
    rt: &R,
    alloc: Global,
    call: Call,
    gate: &Watch,
    want: &str,
) -> Result<bool, Fail> {
    let serially = make(rt, alloc, call, None)?.text.as_str() == want;
    Ok(serially && make(rt, alloc, call, Some(gate))?.text.as_str() == want)
}

/// Words, a text, the most bytes of a read and the one that fails, and the status, out and err.
#[test]
fn faults_at_every_call(rt: HostRuntime) -> Result<(), Fail> {
    let rows = [
        ("histo", ONE, 10, 1, READ_FAULT),
        ("histo", ONE, 10, 2, READ_FAULT),
        ("histo", ONE, 10, 3, READ_FAULT),
        ("histo", ONE, 10, 4, READ_FAULT),
        ("histo", ONE, 10, 5, READ_FAULT),
        ("histo", ONE, 10, 6, READ_FAULT),
        ("histo", ONE, 10, 7, READ_FAULT),
        ("histo", ONE, 10, 8, READ_FAULT),
        ("histo", ONE, 10, 9, READ_FAULT),
        ("histo", ONE, 10, 10, ANSWER),
        ("histo", ONE, 65_536, 2, READ_FAULT),
        ("histo", ONE, 1, 0, ANSWER),
        (BY_BICONVEY, ONE, 10, 9, READ_FAULT),
        ("tally", LINES, 5, 1, READ_FAULT),
        ("tally", LINES, 5, 2, READ_FAULT),
        ("tally", LINES, 5, 3, READ_FAULT),
        ("tally", LINES, 5, 4, READ_FAULT),
        ("tally", LINES, 5, 5, TALLY),
    ];
    let gate = Watch::new(None);
    for (words, text, most, fails, want) in rows {
        let call = Call {
            read: (most, fails),
            ..ample(words, text)
        };
        assert!(rt;
            tells(&rt, rt.alloc(), call, &gate, want)?,
            "{words} {most} {fails}"
        );
    }
    Ok(())
}

/// Words, a text, the most bytes of a write to out and the one that fails, the write to err that
/// fails, and the status, out and err.
#[test]
fn faults_at_every_write(rt: HostRuntime) -> Result<(), Fail> {
    let rows = [
        ("histo", ONE, 5, 1, 0, "4 bale: write fault\n"),
        ("histo", ONE, 5, 2, 0, "4 1 1\n2bale: write fault\n"),
        ("histo", ONE, 5, 3, 0, "4 1 1\n2 0\n3 bale: write fault\n"),
        ("histo", ONE, 5, 4, 0, ANSWER),
        ("histo", COLUMNS, 4_096, 1, 0, "4 bale: write fault\n"),
        ("histo", FEW, 4_096, 0, 1, "5 "),
        (BY_BICONVEY, ONE, 7, 2, 0, "4 1 1 1\n1bale: write fault\n"),
        ("tally", LINES, 5, 1, 0, "4 bale: write fault\n"),
        ("tally", LINES, 5, 2, 0, "4 1 \n1 bale: write fault\n"),
        ("tally", LINES, 5, 3, 0, "4 1 \n1 a\n1 abale: write fault\n"),
        (
            "tally",
            LINES,
            5,
            4,
            0,
            "4 1 \n1 a\n1 a b\n2 bale: write fault\n",
        ),
        ("tally", LINES, 5, 5, 0, TALLY),
    ];
    let gate = Watch::new(None);
    for (words, text, most, fails, say, want) in rows {
        let call = Call {
            write: (most, fails),
            say,
            ..ample(words, text)
        };
        assert!(rt;
            tells(&rt, rt.alloc(), call, &gate, want)?,
            "{words} {most} {fails}"
        );
    }
    Ok(())
}
