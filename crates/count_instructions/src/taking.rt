//! Sums what comes.
ghost use Rattle.std.specs.Prelude.{◌≡◌, ◌≢◌, Some};
ghost use Rattle.hop_core.specs.State.{lowest_unread};
ghost use Rattle.convey.specs.Conveyors.{KeepsAgreement};

use convey::{Conveyor, Phase};

/// Pulls until nothing is left, and sums what comes.
pub(crate) fn sum_all<const CAP: usize, const HOPS: usize>(
    conveyor: &mut Conveyor<CAP, HOPS>,
    sum: u64,
) -> u64
    requires begun { conveyor.old.phase ≢ Phase.Dormant }
    ensures kept { KeepsAgreement conveyor.old conveyor.new }
    ensures same { conveyor.new ≡ record conveyor.old { ins = conveyor.new.ins; pulled = conveyor.new.pulled } }
{
    let mut sum = sum;
    for _ in 0..u64::MAX {
        let Some(number) = conveyor.unread() else {
            return sum;
        };
        sum = sum_batch(conveyor, number, sum);
    }
    sum
}

/// Pulls all items of one inbox, and sums them.
fn sum_batch<const CAP: usize, const HOPS: usize>(
    conveyor: &mut Conveyor<CAP, HOPS>,
    number: u32,
    sum: u64,
) -> u64
    requires begun { conveyor.old.phase ≢ Phase.Dormant }
    requires lowest { lowest_unread conveyor.old ≡ Some number }
    ensures kept { KeepsAgreement conveyor.old conveyor.new }
    ensures same { conveyor.new ≡ record conveyor.old { ins = conveyor.new.ins; pulled = conveyor.new.pulled } }
{
    let mut sum = sum;
    for entry in conveyor.batch(number) {
        let from = conveyor.sender_of(number, entry.tag);
        sum = sum.wrapping_add(entry.item.a).wrapping_add(from as u64);
    }
    conveyor.pull_all(number);
    sum
}
