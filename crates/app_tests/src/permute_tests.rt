//! The permutations of a seed, worked by hand.

use app_permute::seed_perms;
use std::test::Fail;

#[test]
fn permutations_of_seed_42(rt: HostRuntime) -> Result<(), Fail> {
    let three = seed_perms(rt.alloc(), 3, 3, 42)?;
    assert!(rt; three.rows() == [2, 1, 0].as_slice());
    assert!(rt; three.cols() == [0, 1, 2].as_slice());
    // one number and none draw no word
    let short = seed_perms(rt.alloc(), 1, 0, 42)?;
    assert!(rt; short.rows() == [0].as_slice() && short.cols().is_empty());
    // so the columns then have the rows' words
    let late = seed_perms(rt.alloc(), 1, 3, 42)?;
    assert!(rt; late.cols() == [2, 1, 0].as_slice());
    Ok(())
}
