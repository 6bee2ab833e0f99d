//! Byte strings over programs in rounds: ranks send strings of up to 65,535 bytes, called letters
//! here, and whoever moves their items moves the letters.
//!
//! A letter travels in fragments. Its first item has its length and its first 16 bytes, each
//! further item the next 24.
//! `Mailer` makes a program of a letter program: it emits the spellings of its letters, keeps what
//! each sender has begun, and hands a letter over once it is whole. What is begun as a round ends
//! is dropped.
//!
//! | Item | What it is |
//! |---|---|
//! | [`LetterProgram`] | one rank's part of a computation in rounds, in which letters are sent |
//! | [`Mailer`] | a program over a letter program: [`Mailer::new`], [`Mailer::inner`] |
//! | [`spell`], [`take_from`], [`none_begun`], [`forget_all`] | spells a letter; reads letters from items, by what each sender has begun |
//! | [`letters_of_spellings`] | a theorem: a list of spellings spells the letters, and a prefix of it a prefix of them |
//! | [`letters_once`] | a theorem: after each absorb the letter program has absorbed each whole letter, in its sender's order, once |
//! | [`mailers_run_letters`] | a theorem: mailers compute what their letter programs do |
//!
//! The definitions, in the order in which to read them: `Spelling` (letters and items),
//! `LetterRules`, `LetterLaws` and `LetterRuns` (letter programs, with no word on items), `Mails`
//! (what a mailer does), `Theorem` (the letters theorem).
#![tactic(auto)]

mod letter_program;
mod mailer;
mod reading;
mod spelling;
mod theorems;

pub use letter_program::LetterProgram;
pub use mailer::Mailer;
pub use reading::{forget_all, none_begun, take_from};
pub use spelling::spell;
pub use theorems::{letters_of_spellings, letters_once, mailers_run_letters};
