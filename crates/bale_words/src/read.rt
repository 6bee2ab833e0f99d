//! The command of a command line.

ghost use Rattle.std.specs.Prelude.{ℕ, ◌≡◌, List, Some, None, map, string_bytes, true, IfOk, Err};
ghost use Rattle.std.specs.List.{list_all};
ghost use Rattle.std.specs.Option.{option_map};
ghost use Rattle.clap.specs.Words.{first_value, found_of};
ghost use Rattle.bale_words.specs.Options.{Given, given_of, are_accepted, value_in, is_name};
ghost use Rattle.bale_words.specs.Clap.{command_words};
ghost use Rattle.bale_words.specs.Ranges.{InRanges};
ghost use Rattle.bale_words.specs.Reading.{Reads};
ghost use Rattle.bale_words.specs.Words.{command_of, command_by, command_in, travel_in, travel_of};

use crate::command::Command;
use crate::fault::WordsFault;
use crate::options::{all_accepted, given};
use crate::parse::{commanded, parse};
use crate::task::{TaskName, option_names, read_application, read_task};
use crate::travel::Travel;
use crate::values::{
    read_buffer, read_driving, read_generated, read_grid, read_slots, read_steady, read_transport,
};
use clap::ArgMatches;
use std::alloc::Global;

/// The command that the words after the program's name give: an application, and then its options,
/// in any order, each at most once, as `--name value` or `--name=value`.
///
/// # Errors
/// `Usage` if and only if the words are no command; `NoMemory` if there was none to read them.
pub fn read_command(alloc: Global, words: &[String]) -> Result<Command, WordsFault>
    ensures command { IfOk result (λ c. command_of (map string_bytes words.now) ≡ Some c) }
    ensures ranges { IfOk result (λ c. InRanges c) }
    ensures usage { result ≡ Err WordsFault.Usage → command_of (map string_bytes words.now) ≡ None }
{
    match words.split_first() {
        None => Err(WordsFault::Usage),
        Some((first, rest)) => match read_application(first.as_str()) {
            None => Err(WordsFault::Usage),
            Some(application) => read_options(alloc, application, rest),
        },
    }
}

/// The command of an application, by the words of its options.
fn read_options(
    alloc: Global,
    application: TaskName,
    words: &[String],
) -> Result<Command, WordsFault>
    ensures { Reads (command_by application (given_of (map string_bytes words.now))) result }
{
    let pairs = given(alloc, words)?;
    let names = option_names(application);
    if !all_accepted(names, pairs.as_slice()) {
        return Err(WordsFault::Usage);
    }
    let words = commanded(alloc, pairs.as_slice())?;
    read_values(alloc, application, names, words.as_slice())
}

/// The command of an application, by the words that were made of its options for clap.
fn read_values(
    alloc: Global,
    application: TaskName,
    names: &[&str],
    words: &[String],
) -> Result<Command, WordsFault>
    requires { list_all is_name (map (λ s. s.now) names.now) ≡ true }
    ensures { (gs : List Given) → map string_bytes words.now ≡ command_words gs
        → are_accepted (map (λ s. s.now) names.now) gs ≡ true → Reads (command_in application gs) result }
{
    match parse(alloc, names, words) {
        Ok(matches) => read_matches(alloc, application, &matches),
        Err(_) => Err(WordsFault::NoMemory),
    }
}

fn read_matches(
    alloc: Global,
    application: TaskName,
    matches: &ArgMatches<'_>,
) -> Result<Command, WordsFault>
    ensures { (gs : List Given) → ((n : List ℕ) → first_value (found_of matches.now) n ≡ value_in n gs)
        → Reads (command_in application gs) result }
{
    let grid = read_grid(alloc, matches.get_str("grid"))?;
    let travel = match travel_by(application, matches) {
        Some(travel) => travel,
        None => return Err(WordsFault::Usage),
    };
    match read_task(alloc, application, matches) {
        Ok(task) => Ok(Command { task, grid, travel }),
        Err(fault) => Err(fault),
    }
}

fn travel_by(application: TaskName, matches: &ArgMatches<'_>) -> Option<Travel>
    ensures { (gs : List Given) → ((n : List ℕ) → first_value (found_of matches.now) n ≡ value_in n gs)
        → result ≡ travel_in application gs }
{
    let via = matches.get_str("via");
    let slots = matches.get_str("slots");
    let steady = matches.get_str("steady");
    let buffer = matches.get_str("buffer");
    let drive = matches.get_str("drive");
    let gen_text = matches.get_str("gen");
    read_travel(application, via, slots, steady, buffer, drive, gen_text)
}

/// How the items travel, by the texts of `--via`, `--slots`, `--steady`, `--buffer`, `--drive` and
/// `--gen`.
#[tactic(auto, unfolding(crate::specs::Words::travel_of))]
fn read_travel(
    application: TaskName,
    via: Option<&str>,
    slots: Option<&str>,
    steady: Option<&str>,
    buffer: Option<&str>,
    drive: Option<&str>,
    gen_text: Option<&str>,
) -> Option<Travel>
    ensures { result ≡ travel_of application (option_map (λ s. s.now) via.entry) (option_map (λ s. s.now) slots.entry)
        (option_map (λ s. s.now) steady.entry)
        (option_map (λ s. s.now) buffer.entry) (option_map (λ s. s.now) drive.entry)
        (option_map (λ s. s.now) gen_text.entry) }
{
    let transport = read_transport(application, via)?;
    let slots = read_slots(slots)?;
    let steady = read_steady(steady)?;
    let buffer = read_buffer(buffer)?;
    let driving = read_driving(drive)?;
    let generated = read_generated(gen_text)?;
    Some(Travel {
        transport,
        slots,
        steady,
        buffer,
        driving,
        generated,
    })
}
