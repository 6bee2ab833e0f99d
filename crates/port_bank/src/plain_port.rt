//! One rank's end of a plain bank.
ghost use Rattle.std.specs.Prelude.{◌≡◌};
ghost use Rattle.port_bank.specs.Plain.{IsBank, round_of_bank};
ghost use Rattle.port_bank.specs.Round.{IsRound};

use crate::plain_bank::PlainBank;
use crate::{Calls, Collected, Growing, Port, Posted};
use bale_items::NoMemory;
use item_buffer::Parcel;

/// The port of one rank, which owns the bank.
#[derive(Drop)]
pub struct PlainPort<const CAP: usize> {
    bank: PlainBank<CAP>,
    rank: u32,
    calls: Calls,
}

impl<const CAP: usize> PlainPort<CAP> {
    pub(crate) fn new(bank: PlainBank<CAP>, rank: u32) -> Self
        ensures bank { result.bank ≡ bank.entry }
        ensures rank { result.rank ≡ rank }
    {
        PlainPort {
            bank,
            rank,
            calls: Calls::None,
        }
    }

    /// Does nothing, and states that the bank keeps the laws of a round at every moment: so in each
    /// epoch and for each pair of ranks what was got on the last hop is a prefix of what was sent
    /// on the first.
    pub fn live_law(&self)
        ensures { IsRound (round_of_bank CAP self.now.bank) }
    {
        self.bank.live_law();
    }

    /// The bank, with what this rank sent and got.
    pub fn into_bank(self) -> PlainBank<CAP>
        ensures bank { result ≡ self.entry.bank }
        ensures lawful { IsBank CAP result }
    {
        let PlainPort {
            bank,
            rank: _,
            calls: _,
        } = self;
        bank
    }
}

impl<const CAP: usize> Port<CAP> for PlainPort<CAP> {
    ghost use Rattle.item_buffer.specs.Contents.{as_shipped};
    ghost use Rattle.port_bank.specs.Plain.{view_of, BankPosted, BankCollected};
    ghost use Rattle.port_bank.specs.Calls.{calls_of};

    type Memory = Growing;

    ghost view = { λ p. view_of p.rank p.bank (calls_of p.calls) };

    ghost post_does = { λ old l p result new. BankPosted old.bank new.bank l (as_shipped p) result };

    ghost collect_does = { λ old l p result new. BankCollected old.bank new.bank l (as_shipped p) result };

    fn rank(&self) -> u32 {
        self.bank.known();
        self.rank
    }

    fn post(&mut self, link: u32, p: &mut Parcel<CAP>) -> Result<Posted, NoMemory> {
        self.bank.known();
        let answer = self.bank.post(link, p);
        self.calls.note_post(link, answer.is_ok());
        answer
    }

    fn collect(&mut self, link: u32, p: &mut Parcel<CAP>) -> Collected {
        self.calls.note_collect(link);
        self.bank.known();
        let answer = self.bank.collect(link, p);
        self.bank.known();
        answer
    }
}
