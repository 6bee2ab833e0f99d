//! The canonical run of small programs by hand: what the definition computes, and what the code
//! does.

ghost use Rattle.app_tests.specs.SmallTable.{SmallCount};

use crate::rig::run;
use bale_items::NoMemory;
use round_examples::{Ask, Count, Lookup};
use round_program::{Asker, Progs};
use std::alloc::Global;
use std::test::Fail;

/// The definition of the canonical run computes to the counts.
fn small_count()
    ensures { SmallCount }
{}

/// The two ranks of a run.
fn two<Q: Drop>(alloc: Global, zero: Q, one: Q) -> Result<Progs<Q>, NoMemory> {
    let mut progs = Progs::new(alloc);
    progs.add(zero)?;
    progs.add(one)?;
    Ok(progs)
}

/// The counts of a small table on two ranks.
fn counts(alloc: Global) -> Result<(Count, Count), NoMemory> {
    let zero = Count::new(0, 2, vec![in alloc; 0, 1, 1]?, vec![in alloc; 0, 0, 0]?);
    let one = Count::new(1, 2, vec![in alloc; 1, 2]?, vec![in alloc; 0, 0, 0]?);
    Ok((zero, one))
}

/// What two ranks ask of a small table.
fn asks(alloc: Global) -> Result<(Ask, Ask), NoMemory> {
    let zero = Ask::new(alloc, 0, 2, vec![in alloc; 10, 20, 30]?, &[1, 2])?;
    let one = Ask::new(alloc, 1, 2, vec![in alloc; 10, 20, 30]?, &[0, 1, 1])?;
    Ok((zero, one))
}

/// What each rank has counted.
const COUNTED: [[u64; 3]; 2] = [[1, 0, 1], [0, 3, 0]];

#[test]
fn counts_of_a_small_table(rt: HostRuntime) -> Result<(), Fail> {
    let (zero, one) = counts(rt.alloc())?;
    let (ended, votes) = run(rt.alloc(), two(rt.alloc(), zero, one)?, 4)?;
    assert!(rt; votes.len() == 1);
    for (r, counted) in COUNTED.iter().enumerate() {
        assert!(rt;
            ended
                .get(r)
                .is_some_and(|rank| rank.counts() == counted.as_slice()),
            "rank {r}"
        );
    }
    Ok(())
}

#[test]
fn answers_of_a_small_table(rt: HostRuntime) -> Result<(), Fail> {
    let (zero, one) = asks(rt.alloc())?;
    let (ended, votes) = run(rt.alloc(), two(rt.alloc(), zero, one)?, 4)?;
    assert!(rt; votes.len() == 2);
    assert!(rt;
        ended
            .get(0)
            .is_some_and(|rank| rank.answers() == [20, 30].as_slice())
    );
    assert!(rt;
        ended
            .get(1)
            .is_some_and(|rank| rank.answers() == [10, 20, 20].as_slice())
    );
    Ok(())
}

/// Hears the reply to query number `i`, if there is one and `answerer` is asked.
fn hear_one<Q: Asker>(asker: &mut Q, answerer: &Q, i: u64) {
    if i < asker.count() {
        let (to, question) = asker.query(i);
        if to == answerer.rank() {
            asker.hear(i, answerer.answer(asker.rank(), question));
        }
    }
}

#[test]
fn replies_of_a_small_table(rt: HostRuntime) -> Result<(), Fail> {
    let alloc = rt.alloc();
    let one = Lookup::new(
        1,
        2,
        vec![in alloc; 30, 40]?,
        Vec::new(alloc),
        Vec::new(alloc),
    );
    let queries = vec![in alloc; (1, 1), (1, 0), (1, 1), (1, 2)]?;
    let mut zero = Lookup::new(
        0,
        2,
        vec![in alloc; 10]?,
        queries,
        vec![in alloc; 0, 0, 0, 0]?,
    );
    for i in (0..zero.count()).rev() {
        hear_one(&mut zero, &one, i);
    }
    assert!(rt; zero.heard() == [40, 30, 40, 0].as_slice());
    Ok(())
}
