//! tally as one of the applications.

ghost use Rattle.std.specs.Prelude.{◌≡◌, IfOk};

use app_tally::Tally;
use bale_items::{Item, NoMemory};
use elastic::Mailer;
use round_program::{Program, Progs};
use std::alloc::Global;
use std::marker::Model;

/// A mailer of tally, as the same program under a type without parameters: `Case` can't be
/// implemented for `Mailer<Tally>`, an instance of a generic type.
#[derive(Drop)]
pub struct TallyCase {
    mailer: Mailer<Tally>,
}

impl Model for TallyCase {
    ghost use Rattle.elastic.specs.Mails.{MailState};
    ghost use Rattle.app_tally.specs.Tallies.{TallyState};

    ghost Value = { MailState TallyState };

    ghost view = { λ m. m.mailer };
}

impl TallyCase {
    /// The mailers, in their order, each as one of the applications.
    ///
    /// # Errors
    /// `NoMemory` if there was none for the list. The mailers are dropped.
    pub fn wrap_all(
        alloc: Global,
        mut mailers: Progs<Mailer<Tally>>,
    ) -> Result<Progs<TallyCase>, NoMemory>
        ensures { IfOk result (λ cases. cases ≡ mailers) }
    {
        let mut all = Progs::new(alloc);
        while let Some(mailer) = mailers.take_first() {
            all.add(TallyCase { mailer })?;
        }
        Ok(all)
    }

    /// The mailers that `wrap_all` took, in their order.
    ///
    /// # Errors
    /// `NoMemory` if there was none for the list. The mailers are dropped.
    pub fn unwrap_all(
        alloc: Global,
        mut cases: Progs<TallyCase>,
    ) -> Result<Progs<Mailer<Tally>>, NoMemory>
        ensures { IfOk result (λ mailers. mailers ≡ cases) }
    {
        let mut all = Progs::new(alloc);
        while let Some(case) = cases.take_first() {
            all.add(case.mailer)?;
        }
        Ok(all)
    }
}

impl Program for TallyCase {
    ghost use Rattle.elastic.specs.Mails.{mail_rules};
    ghost use Rattle.elastic.specs.laws.MailLaws.{mail_laws};
    ghost use Rattle.app_tally.specs.Tallies.{tally_rules};
    ghost use Rattle.app_tally.specs.laws.TallyLaws.{tally_laws};

    ghost rules = { mail_rules tally_rules };

    ghost laws = { mail_laws tally_rules tally_laws };

    fn rank(&self) -> u32 {
        self.mailer.rank()
    }

    fn ranks(&self) -> u32 {
        self.mailer.ranks()
    }

    fn round(&self) -> u64 {
        self.mailer.round()
    }

    fn count(&self) -> u64 {
        self.mailer.count()
    }

    fn emission(&self, i: u64) -> (u32, Item) {
        self.mailer.emission(i)
    }

    fn fits(&self, from: u32, item: Item) -> bool {
        self.mailer.fits(from, item)
    }

    fn absorb(&mut self, from: u32, item: Item) -> Result<(), NoMemory> {
        self.mailer.absorb(from, item)
    }

    fn vote(&self) -> u64 {
        self.mailer.vote()
    }

    fn goes_on(&self, votes: u64) -> bool {
        self.mailer.goes_on(votes)
    }

    fn end_round(&mut self, votes: u64) -> Result<bool, NoMemory> {
        self.mailer.end_round(votes)
    }
}
