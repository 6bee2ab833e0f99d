//! The closed rounds that a run tells.
use crate::rig::{ONE, ample, make};
use std::test::Fail;

/// A matrix of 2 rows and 3 columns with -7 at (1,3) and 4 at (2,1).
const TWO: &[u8] = b"%%MatrixMarket matrix coordinate integer general\n2 3 2\n1 3 -7\n2 1 4\n";

/// A matrix of which two rows get their level together.
const TIES: &[u8] =
    b"%%MatrixMarket matrix coordinate pattern general\n3 3 4\n1 1\n1 2\n2 2\n3 3\n";

/// Four vertices, of which three are reached from the first.
const WALKS: &[u8] =
    b"%%MatrixMarket matrix coordinate integer general\n4 4 4\n1 2 5\n1 3 2\n3 2 1\n2 4 7\n";

#[test]
fn rounds_are_told(rt: HostRuntime) -> Result<(), Fail> {
    // The words, the text, how many closed rounds, and the epochs of the first: two a round.
    let rows = [
        ("histo", ONE, (1, 2)),
        ("ig --grid 2", TWO, (1, 6)),
        ("ig --via biconvey --buffer 1", TWO, (3, 2)),
        ("ig --via biconvey --grid 2x2", TWO, (3, 2)),
        // votes_in_epochs, sssp, delta
        ("topo --grid 2", TIES, (1, 12)),
        ("sssp", WALKS, (1, 10)),
        ("sssp --delta 3", WALKS, (1, 24)),
        ("sssp --delta 3 --source 4", WALKS, (1, 10)),
        ("tally --grid 2", b"b\na\nb\n\na b\n".as_slice(), (1, 2)),
        ("ig", b"".as_slice(), (0, 0)),
        ("ig --via biconvey", b"".as_slice(), (0, 0)),
        ("ig 4", TWO, (0, 0)),
    ];
    for (words, text, want) in rows {
        let got = make(&rt, rt.alloc(), ample(words, text), None)?;
        assert_eq!(rt; got.rounds, want, "{words}");
    }
    Ok(())
}
