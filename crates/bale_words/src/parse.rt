//! The options' values by clap.

ghost use Rattle.std.specs.Prelude.{ℕ, ◌≡◌, ◌++◌, ◌∷◌, [], List, map, string_bytes, true, IfOk, IfErr, Ok};
ghost use Rattle.std.specs.List.{list_all};
ghost use Rattle.clap.specs.Words.{app_of, first_value, found_of, kind_of};
ghost use Rattle.bale_words.specs.Options.{Given, are_accepted, value_in, is_name};
ghost use Rattle.bale_words.specs.Clap.{app_named, command_words};
ghost use Rattle.bale_words.specs.Pairs.{given_pairs};

use crate::fault::WordsFault;
use crate::options::Pair;
use clap::error::ErrorKind;
use clap::{Arg, ArgMatches, Command, Error};
use std::alloc::{AllocError, Global};

/// The words that clap reads: the command's name, and one word for each option.
#[tactic(auto, using(crate::proofs::Commands::words_more))]
pub(crate) fn commanded(alloc: Global, pairs: &[Pair<'_>]) -> Result<Vec<String>, WordsFault>
    ensures words { IfOk result (λ words. map string_bytes words.items ≡ command_words (given_pairs pairs.now)) }
    ensures memory { IfErr result (λ e. e ≡ WordsFault.NoMemory) }
{
    let mut words = Vec::new(alloc);
    words.push(String::from_str(alloc, "bale")?)?;
    for pair in pairs {
        words.push(option_word(alloc, pair)?)?;
    }
    Ok(words)
}

/// An option as one word.
fn option_word(alloc: Global, pair: &Pair<'_>) -> Result<String, WordsFault>
    ensures word { IfOk result (λ word. string_bytes word ≡ 45 ∷ 45 ∷ (pair.now.name.now ++ 61 ∷ pair.now.value.now)) }
    ensures memory { IfErr result (λ e. e ≡ WordsFault.NoMemory) }
{
    let mut word = String::from_str(alloc, "--")?;
    word.push_str(pair.name)?;
    word.push('=')?;
    word.push_str(pair.value)?;
    Ok(word)
}

/// Parses words that were made of accepted options: only memory can be wanting, and each option has
/// its value.
pub(crate) fn parse<'a>(
    alloc: Global,
    names: &'a [&'a str],
    words: &'a [String],
) -> Result<ArgMatches<'a>, Error>
    requires { list_all is_name (map (λ s. s.now) names.now) ≡ true }
    ensures ok { (gs : List Given) → map string_bytes words.entry.now ≡ command_words gs
        → are_accepted (map (λ s. s.now) names.entry.now) gs ≡ true
        → IfOk result (λ m. (n : List ℕ) → first_value (found_of m) n ≡ value_in n gs) }
    ensures err { (gs : List Given) → map string_bytes words.entry.now ≡ command_words gs
        → are_accepted (map (λ s. s.now) names.entry.now) gs ≡ true
        → IfErr result (λ e. kind_of e ≡ ErrorKind.OutOfMemory) }
{
    let command = command_of(alloc, names)?;
    command.try_get_matches_from(words)
}

/// The command `bale` with an option for each name.
#[tactic(auto, using(crate::proofs::Commands::map_more))]
fn command_of<'a>(alloc: Global, names: &'a [&'a str]) -> Result<Command<'a>, AllocError>
    ensures { IfOk result (λ c. app_of c ≡ app_named (map (λ s. s.now) names.entry.now)) }
{
    let mut command = Command::new(alloc, "bale").disable_help_flag(true);
    for name in names {
        command = with_option(alloc, command, name)?;
    }
    Ok(command)
}

/// The command with one option more.
fn with_option<'a>(
    alloc: Global,
    command: Command<'a>,
    name: &'a str,
) -> Result<Command<'a>, AllocError>
    ensures { (names : List (List ℕ)) → app_of command.entry ≡ app_named names
        → IfOk result (λ c. app_of c ≡ app_named (names ++ (name.entry.now ∷ []))) }
{
    command.arg(Arg::new(alloc, name).long(name))
}
