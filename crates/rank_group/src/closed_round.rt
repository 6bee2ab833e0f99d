//! What is left of a run's bank.
ghost use Rattle.std.specs.Prelude.{◌≡◌, ◌++◌, ◌∷◌, [], List, length, slice_get, OnOk, OnErr};
ghost use Rattle.std.specs.Option.{option_copied};
ghost use Rattle.route_tensor.specs.Grid.{ranks};
ghost use Rattle.list_laws.specs.Counts.{saturated_count};
ghost use Rattle.port_bank.specs.Round.{IsRound, epochs_of};
ghost use Rattle.rank_group.specs.Rounds.{round_inside};

use bale_items::NoMemory;
use link_slots::SlotRound;
use port_bank::PlainRound;
use std::alloc::Global;
use std::marker::Model;

/// All parcels that were posted and collected in a run, closed.
#[derive(Drop)]
pub enum ClosedRound {
    /// On a plain bank.
    Plain(PlainRound),
    /// On a slot bank, which threads shared.
    Slots(SlotRound),
}

impl ClosedRound {
    /// The number of ranks.
    pub fn ranks(&self) -> u32
        ensures value { result ≡ ranks (round_inside self.now).dims }
        ensures round { IsRound (round_inside self.now) }
    {
        match self {
            ClosedRound::Plain(round) => round.ranks(),
            ClosedRound::Slots(round) => round.ranks(),
        }
    }

    /// How many epochs every link has ended. The count saturates.
    pub fn epochs(&self) -> u64
        ensures value { result ≡ saturated_count (epochs_of (round_inside self.now)) }
        ensures round { IsRound (round_inside self.now) }
    {
        match self {
            ClosedRound::Plain(round) => round.epochs(),
            ClosedRound::Slots(round) => round.epochs(),
        }
    }
}

/// The closed rounds of a run, in order.
#[derive(Drop)]
pub struct Rounds {
    list: Vec<ClosedRound>,
}

impl Model for Rounds {
    ghost use Rattle.std.specs.Prelude.{List};
    ghost use Rattle.rank_group.specs.declared.closed_round.ClosedRound.{ClosedRound};

    ghost Value = { List ClosedRound };

    ghost view = { λ r. r.list.items };
}

impl Rounds {
    /// An empty list, whose later growth takes memory from `alloc`.
    pub fn new(alloc: Global) -> Rounds
        ensures { result ≡ [] }
    {
        Rounds {
            list: Vec::new(alloc),
        }
    }

    /// Puts `c` at the end. After `NoMemory` the list is as before, and `c` is dropped.
    pub fn add(&mut self, c: ClosedRound) -> Result<(), NoMemory>
        ensures added { OnOk result (self.new ≡ self.old ++ c ∷ []) }
        ensures refused { OnErr result (self.new ≡ self.old) }
    {
        self.list.push(c)?;
        Ok(())
    }

    /// Puts the rounds of `more` at the end, in order. After `NoMemory` the list is as before, and
    /// `more` is dropped.
    pub fn append(&mut self, more: Rounds) -> Result<(), NoMemory>
        ensures added { OnOk result (self.new ≡ self.old ++ more) }
        ensures refused { OnErr result (self.new ≡ self.old) }
    {
        let mut more = more;
        self.list.append(&mut more.list)?;
        Ok(())
    }

    /// The number of closed rounds.
    pub fn len(&self) -> usize
        ensures { result ≡ length self.now }
    {
        self.list.len()
    }

    /// The closed round number `i`, or `None` exactly past the end.
    pub fn get(&self, i: usize) -> Option<&ClosedRound>
        ensures { option_copied result ≡ slice_get self.now i }
    {
        self.list.get(i)
    }
}
