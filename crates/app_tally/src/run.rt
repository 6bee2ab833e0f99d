//! tally's start, and its answer.

ghost use Rattle.round_program.specs.Ranks.{AreRanks, IsRankOf};
ghost use Rattle.std.specs.Prelude.{◌≡◌, ℕ, List, [], IfOk, map};
ghost use Rattle.std.specs.List.{All};
ghost use Rattle.round_program.specs.Canonical.{InRound, EndsWithin};
ghost use Rattle.elastic.specs.Mails.{mailing, mail_rules};
ghost use Rattle.app_tally.specs.code.CountView.{counted_lines, IsLineEntry};
ghost use Rattle.app_tally.specs.Counts.{times, tally_of, IsTally};
ghost use Rattle.app_tally.specs.Numbers.{front_number};
ghost use Rattle.app_tally.specs.Tallies.{tally_rules};
ghost use Rattle.app_tally.specs.TallyRuns.{tally_begins, tally_starts, TallyEnded};

use crate::counts::{Counts, tally_all};
use crate::lines::Lines;
use crate::numbered::Numbered;
use crate::share::Share;
use crate::tally::Tally;
use bale_items::NoMemory;
use elastic::Mailer;
use round_program::Progs;
use std::alloc::Global;

/// The programs of tally on `ranks` ranks, from 1 to 64, in round 0 of a run of one round.
///
/// # Errors
///
/// `NoMemory` if there was none for the programs.
pub fn tally_start(
    alloc: Global,
    lines: &Lines,
    ranks: u32,
) -> Result<Progs<Mailer<Tally>>, NoMemory>
    requires { AreRanks ranks }
    ensures starts { IfOk result (λ ps. ps ≡ tally_starts ranks lines.now) }
    ensures begins { IfOk result (λ ps. InRound (mail_rules tally_rules) ranks 0 [] 1 ps) }
    ensures ends { IfOk result (λ ps. EndsWithin (mail_rules tally_rules) ps 1) }
{
    lines.known();
    let mut progs = Progs::new(alloc);
    for rank in 0..ranks {
        progs.add(part_of(alloc, lines, ranks, rank)?)?;
    }
    Ok(progs)
}

/// One rank's program.
fn part_of(alloc: Global, lines: &Lines, ranks: u32, rank: u32) -> Result<Mailer<Tally>, NoMemory>
    requires { IsRankOf ranks rank }
    ensures { IfOk result (λ m. m ≡ mailing tally_rules (tally_begins ranks lines.now rank)) }
{
    lines.known();
    let own = Share::new(lines.share()?, ranks, rank);
    Mailer::new(alloc, Tally::new(alloc, rank, ranks, own))
}

/// Each distinct line that came to the ranks, with how many times it came. After the run of the
/// programs of `tally_start` these are the lines that were read.
///
/// # Errors
///
/// `NoMemory` if there was none for the answer.
pub fn tally_end(alloc: Global, p: &Progs<Mailer<Tally>>) -> Result<Counts, NoMemory>
    ensures counts { (lines : List (List ℕ)) → TallyEnded lines p.now → IfOk result (λ c. c ≡ tally_of lines) }
    ensures each { (lines : List (List ℕ)) → TallyEnded lines p.now → IfOk result (λ c. IsTally lines c) }
{
    let all = all_came(alloc, p)?;
    tally_all(alloc, all)
}

/// The lines that came to all ranks, each with how many times it came to one.
fn all_came(alloc: Global, p: &Progs<Mailer<Tally>>) -> Result<Vec<Numbered<'_>>, NoMemory>
    ensures times { (lines : List (List ℕ)) → TallyEnded lines p.now → IfOk result (λ all. (q : List ℕ)
        → times q (counted_lines (map (λ l. (l.1.now, l.2)) all.items)) ≡ times q lines) }
    ensures counted { IfOk result (λ all. All IsLineEntry (map (λ l. (l.1.now, l.2)) all.items)) }
    ensures numbers { IfOk result (λ all. All (λ l. l.0 ≡ front_number 16 l.1.now) all.items) }
{
    let mut all = Vec::with_capacity(alloc, how_many_came(p))?;
    for rank in 0..p.len() {
        let Some(program) = p.get(rank) else {
            unreachable!()
        };
        program.inner().came().gather(&mut all)?;
    }
    Ok(all)
}

/// How many lines all ranks keep, for which room is made at once.
fn how_many_came(p: &Progs<Mailer<Tally>>) -> usize {
    let mut count = 0usize;
    for rank in 0..p.len() {
        let Some(program) = p.get(rank) else {
            unreachable!()
        };
        count = count.saturating_add(program.inner().came().len());
    }
    count
}
