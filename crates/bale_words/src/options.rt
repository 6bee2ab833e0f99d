//! The options among the words of a command line.

ghost use Rattle.std.specs.Prelude.{ℕ, ◌≡◌, ◌++◌, ◌∷◌, List, Option, Some, None, map, string_bytes, IfOk, OnOk, OnErr, Ok, Err};
ghost use Rattle.std.specs.Option.{option_map};
ghost use Rattle.bale_words.specs.Options.{Given, with_first, given_of, given_from, has_hyphen, are_accepted, is_among, was_given};
ghost use Rattle.bale_words.specs.Pairs.{given_pairs};
ghost use Rattle.clap.specs.Lexer.{strip_byte, name_and_value, long_of};

use crate::fault::WordsFault;
use std::alloc::Global;

/// An option as it was given.
#[derive(Clone, Copy)]
pub(crate) struct Pair<'a> {
    /// without the hyphens
    pub name: &'a str,
    pub value: &'a str,
}

/// The options that the words give, in order.
pub(crate) fn given<'a>(alloc: Global, words: &'a [String]) -> Result<Vec<Pair<'a>>, WordsFault>
    ensures ok { IfOk result (λ pairs. given_of (map string_bytes words.now) ≡ Some (given_pairs pairs.items)) }
    ensures usage { result ≡ Err WordsFault.Usage → given_of (map string_bytes words.now) ≡ None }
{
    let mut pairs = Vec::new(alloc);
    let mut waiting = None;
    for word in words {
        waiting = read_word(&mut pairs, waiting, word.as_str())?;
    }
    match waiting {
        Some(_) => Err(WordsFault::Usage),
        None => Ok(pairs),
    }
}

/// Reads one more word: the value that an option waits for, or an option. Answers the option that
/// waits then.
fn read_word<'a>(
    pairs: &mut Vec<Pair<'a>>,
    waiting: Option<&'a str>,
    word: &'a str,
) -> Result<Option<&'a str>, WordsFault>
    ensures ok { IfOk result (λ next. (ws : List (List ℕ)) (done : List Given) → given_pairs pairs.old.items ≡ done
        → option_map (λ gs. done ++ gs) (given_from (option_map (λ s. s.now) waiting.entry) (word.now ∷ ws))
        ≡ option_map (λ gs. given_pairs pairs.new.items ++ gs) (given_from (option_map (λ s. s.now) next) ws)) }
    ensures usage { result ≡ Err WordsFault.Usage → (ws : List (List ℕ))
        → given_from (option_map (λ s. s.now) waiting.entry) (word.now ∷ ws) ≡ None }
{
    match waiting {
        Some(name) => {
            if begins_with_hyphen(word) {
                return Err(WordsFault::Usage);
            }
            add(pairs, name, word)?;
            Ok(None)
        }
        None => match cut(word) {
            None => Err(WordsFault::Usage),
            Some((name, None)) => Ok(Some(name)),
            Some((name, Some(value))) => {
                add(pairs, name, value)?;
                Ok(None)
            }
        },
    }
}

#[tactic(auto, using(crate::proofs::Given::more_given))]
fn add<'a>(pairs: &mut Vec<Pair<'a>>, name: &'a str, value: &'a str) -> Result<(), WordsFault>
    ensures added { OnOk result ((done : List Given) (more : Option (List Given)) → given_pairs pairs.old.items ≡ done
        → option_map (λ gs. done ++ gs) (with_first name.now value.now more)
        ≡ option_map (λ gs. given_pairs pairs.new.items ++ gs) more) }
    ensures memory { OnErr result (result ≡ Err WordsFault.NoMemory) }
{
    pairs.push(Pair { name, value })?;
    Ok(())
}

fn begins_with_hyphen(word: &str) -> bool
    ensures { result ≡ has_hyphen word.now }
{
    match word.as_bytes().first() {
        Some(byte) => *byte == b'-',
        None => false,
    }
}

/// The name of an option's word, and the value behind `=` if there is one; None if the word
/// is no option.
fn cut(word: &str) -> Option<(&str, Option<&str>)>
    ensures { option_map (λ p. (p.0.now, option_map (λ s. s.now) p.1)) result ≡ long_of word.now }
{
    let rest = without_hyphen(without_hyphen(word)?)?;
    if rest.is_empty() {
        return None;
    }
    Some(split_value(rest))
}

fn without_hyphen(word: &str) -> Option<&str>
    ensures { option_map (λ s. s.now) result ≡ strip_byte 45 word.now }
{
    word.strip_prefix('-')
}

fn split_value(text: &str) -> (&str, Option<&str>)
    ensures { (result.0.now, option_map (λ s. s.now) result.1) ≡ name_and_value text.now }
{
    match text.split_once('=') {
        Some((name, value)) => (name, Some(value)),
        None => (text, None),
    }
}

/// Whether each option has one of the names, and none is given twice.
pub(crate) fn all_accepted(names: &[&str], pairs: &[Pair<'_>]) -> bool
    ensures { result ≡ are_accepted (map (λ s. s.now) names.now) (given_pairs pairs.now) }
{
    for (i, pair) in pairs.iter().enumerate() {
        if !is_one_of(names, pair.name) || comes_in(&pairs[i + 1..], pair.name) {
            return false;
        }
    }
    true
}

fn is_one_of(names: &[&str], name: &str) -> bool
    ensures { result ≡ is_among name.now (map (λ s. s.now) names.now) }
{
    for known in names {
        if *known == name {
            return true;
        }
    }
    false
}

fn comes_in(pairs: &[Pair<'_>], name: &str) -> bool
    ensures { result ≡ was_given name.now (given_pairs pairs.now) }
{
    for pair in pairs {
        if pair.name == name {
            return true;
        }
    }
    false
}
