//! What stands besides an application's rules: programs in order, and cells that are reduced.

use reductions::{Reduced, Reduction};
use round_program::Progs;
use std::test::Fail;

/// Each call of `Progs`, with numbers in the place of programs.
#[test]
fn progs_in_order(rt: HostRuntime) -> Result<(), Fail> {
    let mut progs: Progs<u64> = Progs::new(rt.alloc());
    assert!(rt; progs.take_first().is_none());
    for n in [7, 8, 9] {
        progs.add(n)?;
    }
    assert!(rt; progs.len() == 3);
    assert!(rt; progs.get(1).copied() == Some(8) && progs.get(3).is_none());
    assert!(rt; progs.take_first() == Some(7) && progs.take_first() == Some(8));
    assert!(rt; progs.len() == 1 && progs.get(0).copied() == Some(9));
    Ok(())
}

#[test]
fn a_round_of_each_reduction(rt: HostRuntime) -> Result<(), Fail> {
    let mut cells = Reduced::new(rt.alloc(), &[7, 5, 9])?;
    assert!(rt; cells.vote() == 0 && cells.len() == 3);
    cells.take(Reduction::Least, 1, 3);
    cells.take(Reduction::Greatest, 2, 8);
    cells.take(Reduction::Sum, 0, 2);
    assert!(rt; cells.cells() == [9, 3, 9].as_slice() && cells.before() == [7, 5, 9].as_slice());
    assert!(rt; cells.has_changed(0) && !cells.has_changed(2) && cells.vote() == 1);
    cells.begin();
    assert!(rt; cells.before() == [9, 3, 9].as_slice() && cells.vote() == 0);
    Ok(())
}
