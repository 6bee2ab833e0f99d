//! Worked texts with their matrices or bad lines, and that calls succeed with ample memory.
ghost use Rattle.std.specs.Prelude.{None};

use crate::cell_tests::written;
use bale_items::Triple;
use bale_types::{Failed, MemSink, Out, Source};
use mtx_text::{EntryLine, Kind, ParseFault, Reason, parse_matrix, read_matrix};
use std::alloc::{AllocError, Global};
use std::test::Fail;

const P: &str = "%%MatrixMarket matrix coordinate pattern general\n";

const I: &str = "%%MatrixMarket matrix coordinate integer general\n";

const S: &str = "%%MatrixMarket matrix coordinate integer symmetric\n";

const K: &str = "%%MatrixMarket matrix coordinate integer skew-symmetric\n";

/// The text of a banner and what follows it.
fn text_of(alloc: Global, banner: &str, body: &str) -> Result<Vec<u8>, AllocError> {
    let mut text = Vec::from_slice(alloc, banner.as_bytes())?;
    text.extend_from_slice(body.as_bytes())?;
    Ok(text)
}

/// Whether this line of a text is bad, for this reason.
fn is_bad(alloc: Global, text: &[u8], line: u64, reason: Reason) -> bool {
    match parse_matrix(alloc, text) {
        Err(ParseFault::Bad(b)) => b.line == line && b.reason == reason,
        _ => false,
    }
}

/// What is written of the matrix of a text.
fn read_and_written(alloc: Global, text: &[u8]) -> Result<Vec<u8>, Fail> {
    match parse_matrix(alloc, text) {
        Ok(m) => written(alloc, &m),
        Err(_) => Err(Fail::new("no matrix")),
    }
}

const ONE_RANK: &str = "3 3 4\n1 1\n1 3\n2 3\n3 3\n";

/// A banner and what follows it, and the banner and what follows it as its matrix is written.
const READ: [(&str, &str, &str, &str); 17] = [
    (P, ONE_RANK, P, ONE_RANK),
    // the last line without its end
    (P, "3 3 4\n1 1\n1 3\n2 3\n3 3", P, ONE_RANK),
    // lenient spelling
    (
        "%%MatrixMarket MATRIX Coordinate Pattern GENERAL\r\n",
        "%\r\n\r\n3 3 4\r\n1 1\r\n1\t3\r\n2 3\r\n% end\r\n3 3",
        P,
        ONE_RANK,
    ),
    // blanks before the banner, further words in it, a comment behind blanks
    (
        " \t%%MatrixMarket matrix coordinate integer general 1 2 3\n",
        " \t% 9 9 9\n \t\n +2 0003 1 \n\t 2 +1 -7 \n",
        I,
        "2 3 1\n2 1 -7\n",
    ),
    (P, "0 0 0\n", P, "0 0 0\n"),
    // a size line followed by nothing, not even its end
    (P, "2 2 0", P, "2 2 0\n"),
    (P, "-0 +0 -00\n", P, "0 0 0\n"),
    (P, "16384 1 0\n", P, "16384 1 0\n"),
    // entries of value 0 are entries
    (I, "1 2 2\n1 2 0\n1 1 -0\n", I, "1 2 2\n1 2 0\n1 1 0\n"),
    (
        I,
        "1 1 1\n1 1 1000000000000\n",
        I,
        "1 1 1\n1 1 1000000000000\n",
    ),
    (
        I,
        "1 1 1\n1 1 -0000001000000000000\n",
        I,
        "1 1 1\n1 1 -1000000000000\n",
    ),
    (I, "2 3 2\n1 3 -7\n2 1 4\n", I, "2 3 2\n1 3 -7\n2 1 4\n"),
    (
        S,
        "3 3 3\n1 1 5\n2 1 7\n3 2 -4\n",
        I,
        "3 3 5\n1 1 5\n2 1 7\n1 2 7\n3 2 -4\n2 3 -4\n",
    ),
    (S, "2 2 1\n1 2 3\n", I, "2 2 2\n1 2 3\n2 1 3\n"),
    (K, "2 2 1\n2 1 3\n", I, "2 2 2\n2 1 3\n1 2 -3\n"),
    (
        "%%MatrixMarket matrix coordinate pattern symmetric\n",
        "2 2 2\n2 1\n2 2\n",
        P,
        "2 2 3\n2 1\n1 2\n2 2\n",
    ),
    // a lone CR after the last LF is a line without words
    (P, "1 1 1\n1 1\n\r", P, "1 1 1\n1 1\n"),
];

#[test]
fn texts_with_a_matrix(rt: HostRuntime) -> Result<(), Fail> {
    for (banner, body, kind, rest) in &READ {
        let text = text_of(rt.alloc(), banner, body)?;
        let wanted = text_of(rt.alloc(), kind, rest)?;
        assert!(rt;
            read_and_written(rt.alloc(), &text)?.as_slice() == wanted.as_slice(),
            "{body}"
        );
    }
    Ok(())
}

/// A banner and what follows it, the number of the line that is bad, and why.
const BAD: [(&str, &str, u64, Reason); 44] = [
    ("", "", 1, Reason::Banner),
    ("\u{feff}", P, 1, Reason::Banner),
    (
        "%%MatrixMarket matrix coordinate pattern\n",
        "",
        1,
        Reason::Banner,
    ),
    (
        "%%matrixmarket matrix coordinate pattern general\n",
        "",
        1,
        Reason::Banner,
    ),
    ("\n", P, 1, Reason::Banner),
    (
        "%%MatrixMarket matrix coordinate real general\n",
        "1 1 0\n",
        1,
        Reason::Unsupported,
    ),
    (
        "%%MatrixMarket matrix array integer general\n",
        "1 1 0\n",
        1,
        Reason::Unsupported,
    ),
    (
        "%%MatrixMarket vector coordinate integer general\n",
        "",
        1,
        Reason::Unsupported,
    ),
    (
        "%%MatrixMarket matrix coordinate integer hermitian\n",
        "",
        1,
        Reason::Unsupported,
    ),
    (
        "%%MatrixMarket matrix coordinate pattern skew-symmetric\n",
        "",
        1,
        Reason::Unsupported,
    ),
    // a second CR is a byte of the word
    (
        "%%MatrixMarket matrix coordinate integer general\r\r\n",
        "",
        1,
        Reason::Unsupported,
    ),
    (P, "", 2, Reason::SizeLine),
    (P, "% a\n\n", 4, Reason::SizeLine),
    (P, "-1 1 0\n", 2, Reason::SizeLine),
    (P, "1 1\n", 2, Reason::SizeLine),
    (P, "1 1 0 0\n", 2, Reason::SizeLine),
    (P, "16385 1 0\n", 2, Reason::TooLarge),
    (P, "1 1 262145\n", 2, Reason::TooLarge),
    (P, "18446744073709551616 1 0\n", 2, Reason::TooLarge),
    (S, "2 3 0\n", 2, Reason::NotSquare),
    (S, "2 16385 0\n", 2, Reason::TooLarge),
    (P, "3 3 2\n1 1\n", 4, Reason::TooFew),
    // the lone CR is a line, so the end line is one more
    (P, "3 3 2\n1 1\n\r", 5, Reason::TooFew),
    (P, "3 3 1\n1 1\n2 2\n", 4, Reason::TooMany),
    (P, "3 3 1\n1 1\nx\n", 4, Reason::TooMany),
    (P, "2 2 1\n1 1 1\n", 3, Reason::EntryLine),
    (P, "2 2 1\n1 x\n", 3, Reason::EntryLine),
    // VT, FF, NUL and a CR in mid-line are bytes of words
    (P, "2 2 1\n1\x0b1\n", 3, Reason::EntryLine),
    (P, "2 2 1\n1 1\x0c\n", 3, Reason::EntryLine),
    (P, "2 2 1\n1 1\0\n", 3, Reason::EntryLine),
    (P, "2 2 1\n1\r1\n", 3, Reason::EntryLine),
    (P, "2 2 1\n1 1\r\r\n", 3, Reason::EntryLine),
    (P, "2 2 1\n3 1\n", 3, Reason::OutOfRange),
    (P, "2 2 1\n1 0\n", 3, Reason::OutOfRange),
    (P, "1 1 1\n18446744073709551617 1\n", 3, Reason::OutOfRange),
    (I, "2 2 1\n3 1 x\n", 3, Reason::OutOfRange),
    (K, "2 2 1\n1 1 0\n", 3, Reason::Diagonal),
    (K, "2 2 1\n1 1 x\n", 3, Reason::Diagonal),
    (I, "1 1 1\n1 1 1000000000001\n", 3, Reason::Value),
    (I, "1 1 1\n1 1 1.0\n", 3, Reason::Value),
    (I, "1 1 2\n1 1 1\n1 1 x\n", 4, Reason::Value),
    (P, "3 3 2\n1 1\n1 1\n", 4, Reason::Duplicate),
    (P, "3 3 3\n1 1\n1 1\nx\n", 4, Reason::Duplicate),
    (S, "2 2 2\n2 1 3\n1 2 3\n", 4, Reason::Duplicate),
];

#[test]
fn texts_with_a_bad_line(rt: HostRuntime) -> Result<(), Fail> {
    for (banner, body, line, reason) in &BAD {
        let text = text_of(rt.alloc(), banner, body)?;
        assert!(rt; is_bad(rt.alloc(), &text, *line, *reason), "{body}");
    }
    Ok(())
}

/// A source of three pieces of LF, the last of which is empty. It counts how often it was asked,
/// and keeps the least room that it was offered.
#[derive(Drop)]
struct Asked {
    calls: u64,
    least: usize,
}

impl Source for Asked {
    ghost left = { λ _. None };

    ghost faults = { λ _. 0 };

    fn read(&mut self, buf: &mut [u8]) -> Result<usize, Failed> {
        self.calls = self.calls.saturating_add(1);
        self.least = self.least.min(buf.len());
        if self.calls > 2 {
            return Ok(0);
        }
        buf.fill(b'\n');
        Ok(buf.len())
    }
}

#[test]
fn a_read_asks_for_many_bytes(rt: HostRuntime) {
    let mut source = Asked {
        calls: 0,
        least: usize::MAX,
    };
    assert!(rt; read_matrix(rt.alloc(), &mut source).is_err());
    assert_eq!(rt; source.calls, 3);
    assert_eq!(rt; source.least, 65_536);
}

#[test]
fn lines_of_entries(rt: HostRuntime) -> Result<(), Fail> {
    let entries: [(u32, u32, i64, Kind); 10] = [
        (0, 2, -7, Kind::Integer),
        (0, 98, 99, Kind::Integer),
        (0, 998, 100, Kind::Integer),
        (0, 999, 9_999, Kind::Integer),
        (0, 9_998, 10_000, Kind::Integer),
        (0, 9_999, 99_999, Kind::Integer),
        (0, 99_998, 100_000, Kind::Integer),
        (0, 99_999, 1, Kind::Pattern),
        (122, 10_006, 0, Kind::Integer),
        (u32::MAX, u32::MAX, i64::MIN, Kind::Integer),
    ];
    let mut sink = MemSink::new(rt.alloc(), 200, 200, &[])?;
    let mut out = Out::new(&mut sink);
    let mut line = EntryLine::new();
    out.line(&line)?;
    for (i, j, v, kind) in entries {
        line.set(kind, Triple { i, j, v });
        out.line(&line)?;
    }
    out.flush()?;
    assert_eq!(rt;
        sink.taken(),
        b"1 3 -7\n1 99 99\n1 999 100\n1 1000 9999\n1 9999 10000\n1 10000 99999\n1 99999 100000\n1 100000\n123 10007 0\n4294967296 4294967296 -9223372036854775808\n".as_slice()
    );
    Ok(())
}
