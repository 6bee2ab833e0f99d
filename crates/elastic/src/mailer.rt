//! A program that carries the letters of a letter program.

ghost use Rattle.std.specs.Prelude.{◌≡◌, ◌<◌, ◌^◌, [], ◌∷◌, true, OnOk, OnErr, IfOk, length};
ghost use Rattle.elastic.specs.Spelling.{IsLetter};
ghost use Rattle.elastic.specs.LetterLaws.{StillSends};
ghost use Rattle.elastic.specs.Mails.{mailing, is_whole, letter_of};

use crate::letter_program::LetterProgram;
use crate::reading::{first_bytes, forget_all, is_alone, none_begun, only_letter, take_from};
use crate::spelling::spelled;
use bale_items::{Item, NoMemory};
use round_program::Program;
use std::alloc::Global;
use std::marker::Model;

/// One rank's mailer over a letter program.
#[derive(Drop)]
pub struct Mailer<Q: LetterProgram> {
    alloc: Global,
    /// the letter program
    inner: Q,
    /// what is sent in this round, made once as it begins
    outgoing: Vec<(u32, Item)>,
    /// the items of the letter that each sender has begun
    begun: Vec<Vec<Item>>,
    /// room for the letter that is handed over; what it holds between calls means nothing
    letter: Vec<u8>,
}

impl<Q: LetterProgram> Model for Mailer<Q> {
    ghost use Rattle.elastic.specs.Mails.{MailState, IsMail};
    ghost use Rattle.elastic.specs.code.MailView.{mail_state};

    ghost Value = { MailState Q };

    ghost view = { mail_state };

    ghost invariant = { λ m. IsMail Q.rules (mail_state m) };
}

impl<Q: LetterProgram> Mailer<Q> {
    /// A mailer over a letter program, in the round in which that is.
    ///
    /// # Errors
    ///
    /// `NoMemory` if there was none for what is sent.
    pub fn new(alloc: Global, q: Q) -> Result<Mailer<Q>, NoMemory>
        ensures { IfOk result (λ m. m ≡ mailing Q.rules q) }
    {
        q.known();
        let outgoing = spelled(alloc, &q)?;
        let begun = none_begun(alloc, q.ranks())?;
        Ok(Mailer {
            alloc,
            inner: q,
            outgoing,
            begun,
            letter: Vec::new(alloc),
        })
    }

    /// The letter program.
    pub fn inner(&self) -> &Q
        ensures { result.now ≡ self.now.inner }
    {
        &self.inner
    }
}

impl<Q: LetterProgram> Program for Mailer<Q> {
    ghost use Rattle.elastic.specs.Mails.{mail_rules};
    ghost use Rattle.elastic.specs.laws.MailLaws.{mail_laws};

    ghost rules = { mail_rules Q.rules };

    ghost laws = { mail_laws Q.rules Q.laws };

    fn rank(&self) -> u32 {
        self.inner.rank()
    }

    fn ranks(&self) -> u32 {
        self.inner.ranks()
    }

    fn round(&self) -> u64 {
        self.inner.round()
    }

    /// The number of fragments of all letters of this round; they are fewer than 2^63.
    fn count(&self) -> u64
        ensures value { result ≡ length self.now.outgoing }
        ensures few { result < 2 ^ 63 }
    {
        self.outgoing.len() as u64
    }

    fn emission(&self, i: u64) -> (u32, Item) {
        self.outgoing[i as usize]
    }

    fn fits(&self, from: u32, item: Item) -> bool {
        from < self.inner.ranks()
    }

    fn absorb(&mut self, from: u32, item: Item) -> Result<(), NoMemory> {
        if is_alone(&self.begun, from as usize, item) {
            return hand_over_item(&mut self.inner, from, item);
        }
        if take_from(&mut self.begun, &mut self.letter, from as usize, item)? {
            return hand_over(&mut self.inner, from, &self.letter);
        }
        Ok(())
    }

    fn vote(&self) -> u64 {
        self.inner.vote()
    }

    fn goes_on(&self, votes: u64) -> bool {
        self.inner.goes_on(votes)
    }

    fn end_round(&mut self, votes: u64) -> Result<bool, NoMemory> {
        let more = end(&mut self.inner, votes)?;
        self.outgoing = spelled(self.alloc, &self.inner)?;
        forget_all(&mut self.begun);
        Ok(more)
    }
}

/// Has a letter program absorb a letter.
fn hand_over<Q: LetterProgram>(inner: &mut Q, from: u32, letter: &[u8]) -> Result<(), NoMemory>
    requires rank { from < Q.rules.ranks inner.old }
    requires letter { IsLetter letter.now }
    ensures absorbed { OnOk result (inner.new ≡ Q.rules.absorbed inner.old from letter.now) }
    ensures refused { OnErr result (StillSends Q.rules inner.old inner.new) }
    ensures valid { Q.rules.valid inner.new }
{
    let absorbed = inner.absorb_letter(from, letter);
    inner.known();
    absorbed
}

/// Has a letter program absorb the letter that an item is alone, whose bytes are on the stack.
fn hand_over_item<Q: LetterProgram>(inner: &mut Q, from: u32, item: Item) -> Result<(), NoMemory>
    requires rank { from < Q.rules.ranks inner.old }
    requires whole { is_whole (item ∷ []) ≡ true }
    ensures absorbed { OnOk result (inner.new ≡ Q.rules.absorbed inner.old from (letter_of (item ∷ []))) }
    ensures refused { OnErr result (StillSends Q.rules inner.old inner.new) }
    ensures valid { Q.rules.valid inner.new }
{
    let bytes = first_bytes(item);
    hand_over(inner, from, only_letter(&bytes, item))
}

/// Has a letter program end its round.
fn end<Q: LetterProgram>(inner: &mut Q, votes: u64) -> Result<bool, NoMemory>
    ensures ended { OnOk result (inner.new ≡ Q.rules.ended inner.old votes) }
    ensures answer { IfOk result (λ more. more ≡ Q.rules.goes_on (Q.rules.shape inner.old)
        (Q.rules.round inner.old) votes) }
    ensures refused { OnErr result (StillSends Q.rules inner.old inner.new) }
    ensures valid { Q.rules.valid inner.new }
{
    let ended = inner.end_round(votes);
    inner.known();
    ended
}
