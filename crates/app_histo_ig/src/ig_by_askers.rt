//! ig by queries and replies at once: the programs that add up columns, and the askers that they
//! leave.

ghost use Rattle.round_program.specs.Ranks.{AreRanks};
ghost use Rattle.std.specs.Prelude.{◌≡◌, ◌<◌, [], ◌∷◌, length, map, IfOk};
ghost use Rattle.bale_types.specs.Out.{Writes};
ghost use Rattle.sparse_rows.specs.Parts.{HasPart};
ghost use Rattle.round_program.specs.Canonical.{InRound, EndsWithin};
ghost use Rattle.app_histo_ig.specs.Sums.{sums_rules};
ghost use Rattle.app_histo_ig.specs.SumsRuns.{sums_begins, sums_starts, SumsEnded};
ghost use Rattle.app_histo_ig.specs.AskingRuns.{asker_from, AreAskersOf};
ghost use Rattle.app_histo_ig.specs.ColumnAnswers.{IgHeard};
ghost use Rattle.app_histo_ig.specs.IgLines.{ig_lines};

use crate::answered::write_sums;
use crate::ig_asker::IgAsker;
use crate::ig_run::{own_of, zeros};
use crate::ig_sums::IgSums;
use bale_items::NoMemory;
use bale_types::{Failed, Out, Sink};
use mtx_text::Matrix;
use round_program::{Program, Progs};
use sparse_rows::{Parts, split};
use std::alloc::Global;

/// The programs of ig's first round alone on `ranks` ranks, from 1 to 64, in round 0 of a run of
/// one round.
///
/// # Errors
///
/// `NoMemory` if there was none for the programs.
pub fn ig_sums_start(alloc: Global, m: &Matrix, ranks: u32) -> Result<Progs<IgSums>, NoMemory>
    requires { AreRanks ranks }
    ensures starts { IfOk result (λ ps. ps ≡ sums_starts ranks m.now) }
    ensures begins { IfOk result (λ ps. InRound sums_rules ranks 0 (m.now.cols ∷ []) 1 ps) }
    ensures ends { IfOk result (λ ps. EndsWithin sums_rules ps 1) }
{
    let parts = split(alloc, m, ranks)?;
    m.known();
    let mut progs = Progs::new(alloc);
    for rank in 0..ranks {
        progs.add(summing(alloc, m, &parts, ranks, rank)?)?;
    }
    Ok(progs)
}

/// One rank's program.
fn summing(
    alloc: Global,
    m: &Matrix,
    parts: &Parts,
    ranks: u32,
    rank: u32,
) -> Result<IgSums, NoMemory>
    requires { HasPart ranks rank m.now.entries parts.now }
    ensures { IfOk result (λ s. s ≡ sums_begins ranks m.now rank) }
{
    m.known();
    let own = own_of(alloc, parts, rank)?;
    let sums = zeros(alloc, (m.cols() / ranks + 1) as usize)?;
    Ok(IgSums::new(rank, ranks, m.cols(), own, sums))
}

/// The askers of the same ranks, once the programs of `ig_sums_start` on this matrix have ended.
///
/// # Errors
///
/// `NoMemory` if there was none for the askers.
pub fn ig_askers(alloc: Global, m: &Matrix, p: Progs<IgSums>) -> Result<Progs<IgAsker>, NoMemory>
    requires ended { SumsEnded m.now p }
    ensures { IfOk result (λ qs. AreAskersOf m.now (length p) qs) }
{
    let askers = all_askers(alloc, p)?;
    Ok(askers)
}

/// Writes the lines of ig: for each entry of the matrix, in order, its row and column from 1, and
/// the sum of its column. The askers are those of `ig_askers` on this matrix, after each has heard
/// the replies to its queries. No memory is taken.
///
/// # Errors
///
/// `Failed` if the sink's faults rose in this call.
pub fn ig_heard_write<K: Sink>(
    p: &Progs<IgAsker>,
    m: &Matrix,
    out: &mut Out<'_, K>,
) -> Result<(), Failed>
    requires heard { IgHeard m.now p.now }
    ensures { Writes K.taken K.faults (ig_lines m.now.entries) out.old out.new result }
{
    write_sums(p, m, out)
}

/// The asker of each rank, whatever the programs have absorbed. `ig_askers` says what it has if
/// they ended.
///
/// # Errors
///
/// `NoMemory` if there was none for the askers.
pub fn all_askers(alloc: Global, p: Progs<IgSums>) -> Result<Progs<IgAsker>, NoMemory>
    ensures { IfOk result (λ qs. qs ≡ map asker_from p) }
{
    let mut p = p;
    let mut askers = Progs::new(alloc);
    while let Some(q) = p.take_first() {
        askers.add(asker_of(alloc, q)?)?;
    }
    Ok(askers)
}

/// The asker of one rank.
fn asker_of(alloc: Global, q: IgSums) -> Result<IgAsker, NoMemory>
    ensures { IfOk result (λ a. a ≡ asker_from q) }
{
    let rank = q.rank();
    let ranks = q.ranks();
    let added = q.into_added();
    let answers = zeros(alloc, added.own.len())?;
    Ok(IgAsker::new(rank, ranks, added.own, added.sums, answers))
}
