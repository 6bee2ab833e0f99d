//! The letters theorem.

ghost use Rattle.elastic.specs.Theorem.{SpellingsAreRead, FrontsAreRead, EachLetterOnce, MailersRunLetters};

use crate::letter_program::LetterProgram;

/// The letters of a list of spellings are the letters spelled, and the letters of a prefix of a
/// list are a prefix of its letters.
pub fn letters_of_spellings()
    ensures spellings { SpellingsAreRead }
    ensures fronts { FrontsAreRead }
{}

/// After each absorb, in whatever order the items of the senders came, the letter program has
/// absorbed from each sender the letters of the items absorbed from it: whole, in order and each
/// once.
pub fn letters_once<Q: LetterProgram>()
    ensures { EachLetterOnce Q.rules }
{}

/// The canonical run of mailers is that of their letter programs.
pub fn mailers_run_letters<Q: LetterProgram>()
    ensures { MailersRunLetters Q.rules }
{}
