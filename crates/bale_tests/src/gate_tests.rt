//! Ranks on threads turn side by side, and the gate is notified of them.
use crate::rig::{ONE, Watch, ample, make};
use std::sync::atomic::Ordering;
use std::test::Fail;

/// And rank 1: a body that turns one rank after the other waits without success at one of them,
/// whichever it turns first.
/// `ig` by biconvey is two runs: the columns are summed, and then asked for.
#[test]
fn gate_holds_rank_0(rt: HostRuntime) -> Result<(), Fail> {
    // The words, whose turn 0 is held, and how many runs the gate is notified of.
    let rows = [
        ("histo --grid 2", Some(0), 1),
        ("histo --grid 2", Some(1), 1),
        ("histo --grid 2 --via exstack", Some(0), 1),
        ("histo --grid 2 --via exstack", Some(1), 1),
        ("ig --grid 2", None, 1),
        ("ig --grid 2 --via biconvey", None, 2),
        ("topo --grid 2", None, 1),
    ];
    for (words, held, runs) in rows {
        let gate = Watch::new(held);
        let got = make(&rt, rt.alloc(), ample(words, ONE), Some(&gate))?;
        let is_whole = held.is_none() || got.text.as_str() == "0 1 1\n2 0\n3 3\n";
        assert!(rt; is_whole, "{words}");
        assert!(rt; !gate.gave_up.load(Ordering::SeqCst), "{words}");
        assert_eq!(rt; gate.of_0.load(Ordering::SeqCst), runs, "{words}");
        assert_eq!(rt; gate.of_1.load(Ordering::SeqCst), runs, "{words}");
    }
    Ok(())
}
