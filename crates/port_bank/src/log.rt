//! The parcels that went over a link, for contracts alone: none of them is kept.
ghost use Rattle.std.specs.Prelude.{◌≡◌, ◌++◌, [], ◌∷◌};
ghost use Rattle.item_buffer.specs.Contents.{as_shipped};
ghost use Rattle.port_bank.specs.PassedParcels.{passed_entries, parcels_of};

use bale_items::Entry;
use item_buffer::Parcel;
use std::snapshot::Snapshot;

/// Entries, of which each is seen by contracts alone.
#[derive(Drop)]
pub(crate) enum Entries {
    None,
    And(Snapshot<Entries>, Snapshot<Entry>),
}

/// Parcels, each by its entries, its mark and its epoch, which are seen by contracts alone.
#[derive(Drop)]
pub(crate) enum Log {
    Nothing,
    Then(Snapshot<Log>, Snapshot<Entries>, Snapshot<bool>, Snapshot<u64>),
}

impl Log {
    /// The log with one more parcel.
    pub(crate) fn with<const CAP: usize>(&self, p: &Parcel<CAP>) -> Log
        ensures { parcels_of result ≡ parcels_of self.now ++ as_shipped p.now ∷ [] }
    {
        let entries = seen(p.untaken());
        Log::Then(
            Snapshot::of(self),
            Snapshot::of(&entries),
            Snapshot::of(&p.last()),
            Snapshot::of(&p.epoch()),
        )
    }
}

/// What contracts see of some entries. The loop has no effect, so optimized code has none of it.
fn seen(entries: &[Entry]) -> Entries
    ensures { passed_entries result ≡ entries.now }
{
    let mut all = Entries::None;
    for entry in entries {
        all = Entries::And(Snapshot::of(&all), Snapshot::of(entry));
    }
    all
}
