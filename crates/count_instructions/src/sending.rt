//! Pushes items for ranks of a seed.
ghost use Rattle.std.specs.Prelude.{◌≡◌, ◌<◌, false};
ghost use Rattle.route_tensor.specs.Grid.{ranks};
ghost use Rattle.convey.specs.Conveyors.{KeepsAgreement};

use bale_items::Item;
use convey::{Conveyor, Phase, Pushed};

/// Pushes items from number `from` on, until one is refused or `items` are pushed. Answers how many
/// are pushed then, and the next seed.
pub(crate) fn push_some<const CAP: usize, const HOPS: usize>(
    conveyor: &mut Conveyor<CAP, HOPS>,
    rank_count: u32,
    seed: u64,
    from: u64,
    items: u64,
) -> (u64, u64)
    requires count { ranks conveyor.old.dims ≡ rank_count }
    requires working { conveyor.old.phase ≡ Phase.Working }
    requires not_done { conveyor.old.done ≡ false }
    ensures kept { KeepsAgreement conveyor.old conveyor.new }
    ensures same { conveyor.new ≡ record conveyor.old { outs = conveyor.new.outs; pulled = conveyor.new.pulled } }
{
    conveyor.known();
    let mut seed = seed;
    let mut pushed = from;
    while pushed < items {
        let to = (seed >> 33) as u32 % rank_count;
        let item = Item {
            a: seed,
            b: 1,
            c: 0,
        };
        if conveyor.push(item, to) == Pushed::Full {
            return (pushed, seed);
        }
        seed = seed
            .wrapping_mul(6_364_136_223_846_793_005)
            .wrapping_add(1_442_695_040_888_963_407);
        pushed += 1;
    }
    (pushed, seed)
}
