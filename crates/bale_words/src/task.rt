//! What each application is told: its word, its options and their values.

ghost use Rattle.std.specs.Prelude.{ℕ, ◌≡◌, ◌-◌, ◌^◌, List, Some, None, map, true};
ghost use Rattle.std.specs.List.{list_all};
ghost use Rattle.std.specs.Option.{option_map};
ghost use Rattle.clap.specs.Words.{first_value, found_of};
ghost use Rattle.bale_words.specs.Options.{Given, value_in, is_name};
ghost use Rattle.bale_words.specs.Reading.{Reads};
ghost use Rattle.bale_words.specs.Numbers.{number_in, numbers_in};
ghost use Rattle.bale_words.specs.Values.{or_default, if_given};
ghost use Rattle.bale_words.specs.Words.{application_of, names_of, task_in, permutations_of, search_of};

use crate::command::Permutations;
use crate::fault::WordsFault;
use crate::numbers::{Numbers, number_between, numbers_between};
use crate::values::is_word;
use clap::ArgMatches;
use std::alloc::Global;

/// The first word: which application is asked for.
#[derive(Clone, Copy, PartialEq, Eq, Debug)]
pub(crate) enum TaskName {
    /// How many entries each column has.
    Histo,
    /// For each entry the sum of its column.
    Ig,
    /// The matrix with its rows and columns renumbered.
    Permute,
    /// The matrix with rows and columns exchanged.
    Transpose,
    /// An order of rows and columns that makes the matrix upper triangular.
    Topo,
    /// The least weight of a walk from a source to each vertex.
    Sssp,
    /// How often each line comes.
    Tally,
}

/// The application with what it alone is told.
#[derive(Drop)]
pub enum Task {
    Histo,
    Ig,
    Permute(Permutations),
    Transpose,
    Topo,
    /// The source, counted from 1, and the width of a bucket if delta-stepping is asked for.
    Sssp(u32, Option<u64>),
    Tally,
}

/// The application that a word names.
#[tactic(auto, unfolding(crate::specs::Words::application_of))]
pub(crate) fn read_application(word: &str) -> Option<TaskName>
    ensures { result ≡ application_of word.now }
{
    if is_word("histo", word) {
        Some(TaskName::Histo)
    } else if is_word("ig", word) {
        Some(TaskName::Ig)
    } else if is_word("permute", word) {
        Some(TaskName::Permute)
    } else if is_word("transpose", word) {
        Some(TaskName::Transpose)
    } else if is_word("topo", word) {
        Some(TaskName::Topo)
    } else if is_word("sssp", word) {
        Some(TaskName::Sssp)
    } else if is_word("tally", word) {
        Some(TaskName::Tally)
    } else {
        None
    }
}

static SHARED_NAMES: [&str; 6] = ["grid", "via", "slots", "steady", "buffer", "drive"];

static NAMES: [&str; 7] = ["grid", "via", "slots", "steady", "buffer", "drive", "gen"];

static PERMUTE_NAMES: [&str; 10] = [
    "grid", "via", "slots", "steady", "buffer", "drive", "gen", "seed", "rperm", "cperm",
];

static SSSP_NAMES: [&str; 9] = [
    "grid", "via", "slots", "steady", "buffer", "drive", "gen", "source", "delta",
];

/// The options of an application.
pub(crate) fn option_names(application: TaskName) -> &'static [&'static str]
    ensures names { map (λ s. s.now) result.now ≡ names_of application }
    ensures fair { list_all is_name (map (λ s. s.now) result.now) ≡ true }
{
    match application {
        TaskName::Permute => PERMUTE_NAMES.as_slice(),
        TaskName::Sssp => SSSP_NAMES.as_slice(),
        TaskName::Tally => SHARED_NAMES.as_slice(),
        TaskName::Histo | TaskName::Ig | TaskName::Transpose | TaskName::Topo => {
            NAMES.as_slice()
        }
    }
}

/// What the application is told beside.
pub(crate) fn read_task(
    alloc: Global,
    application: TaskName,
    matches: &ArgMatches<'_>,
) -> Result<Task, WordsFault>
    ensures { (gs : List Given) → ((n : List ℕ) → first_value (found_of matches.now) n ≡ value_in n gs)
        → Reads (task_in application gs) result }
{
    match application {
        TaskName::Histo => Ok(Task::Histo),
        TaskName::Ig => Ok(Task::Ig),
        TaskName::Permute => read_permute(alloc, matches),
        TaskName::Transpose => Ok(Task::Transpose),
        TaskName::Topo => Ok(Task::Topo),
        TaskName::Sssp => read_sssp(matches),
        TaskName::Tally => Ok(Task::Tally),
    }
}

fn read_permute(alloc: Global, matches: &ArgMatches<'_>) -> Result<Task, WordsFault>
    ensures { (gs : List Given) → ((n : List ℕ) → first_value (found_of matches.now) n ≡ value_in n gs)
        → Reads (task_in TaskName.Permute gs) result }
{
    let seed = matches.get_str("seed");
    let rows = matches.get_str("rperm");
    let cols = matches.get_str("cperm");
    let permutations = read_permutations(alloc, seed, rows, cols)?;
    Ok(Task::Permute(permutations))
}

/// The permutations, by the texts of `--seed`, `--rperm` and `--cperm`.
fn read_permutations(
    alloc: Global,
    seed: Option<&str>,
    rows: Option<&str>,
    cols: Option<&str>,
) -> Result<Permutations, WordsFault>
    ensures { Reads (permutations_of (option_map (λ s. s.now) seed.entry) (option_map (λ s. s.now) rows.entry)
        (option_map (λ s. s.now) cols.entry)) result }
{
    match (seed, rows, cols) {
        (Some(seed), None, None) => match number_between(0, u64::MAX, seed.as_bytes()) {
            Some(seed) => Ok(Permutations::Seed(seed)),
            None => Err(WordsFault::Usage),
        },
        (Some(_), _, _) => Err(WordsFault::Usage),
        (None, rows, cols) => read_lists(alloc, rows, cols),
    }
}

fn read_lists(
    alloc: Global,
    rows: Option<&str>,
    cols: Option<&str>,
) -> Result<Permutations, WordsFault>
    ensures { Reads (permutations_of None (option_map (λ s. s.now) rows.entry) (option_map (λ s. s.now) cols.entry))
        result }
{
    let rows = read_list(alloc, rows)?;
    let cols = read_list(alloc, cols)?;
    Ok(Permutations::Lists(rows, cols))
}

/// The list of `--rperm` or `--cperm`, if it is given.
fn read_list(alloc: Global, text: Option<&str>) -> Result<Option<Numbers>, WordsFault>
    ensures { Reads (if_given (numbers_in 44 0 (2 ^ 32 - 1)) (option_map (λ s. s.now) text.entry)) result }
{
    match text {
        None => Ok(None),
        Some(text) => Ok(Some(numbers_between(alloc, b',', 0, u32::MAX, text.as_bytes())?)),
    }
}

fn read_sssp(matches: &ArgMatches<'_>) -> Result<Task, WordsFault>
    ensures { (gs : List Given) → ((n : List ℕ) → first_value (found_of matches.now) n ≡ value_in n gs)
        → Reads (task_in TaskName.Sssp gs) result }
{
    match read_search(matches.get_str("source"), matches.get_str("delta")) {
        Some(task) => Ok(task),
        None => Err(WordsFault::Usage),
    }
}

/// The source and the width of a bucket, by the texts of `--source` and `--delta`.
fn read_search(source: Option<&str>, delta: Option<&str>) -> Option<Task>
    ensures { result ≡ search_of (option_map (λ s. s.now) source.entry) (option_map (λ s. s.now) delta.entry) }
{
    let source = read_source(source)?;
    let delta = read_delta(delta)?;
    Some(Task::Sssp(source, delta))
}

fn read_source(text: Option<&str>) -> Option<u32>
    ensures { result ≡ or_default 1 (number_in 0 (2 ^ 32 - 1)) (option_map (λ s. s.now) text.entry) }
{
    match text {
        None => Some(1),
        Some(text) => Some(number_between(0, u32::MAX as u64, text.as_bytes())? as u32),
    }
}

fn read_delta(text: Option<&str>) -> Option<Option<u64>>
    ensures { result ≡ if_given (number_in 1 1000000000000) (option_map (λ s. s.now) text.entry) }
{
    match text {
        None => Some(None),
        Some(text) => Some(Some(number_between(1, 1_000_000_000_000, text.as_bytes())?)),
    }
}
