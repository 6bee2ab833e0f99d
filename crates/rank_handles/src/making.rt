//! Making groups, and ranks of groups, for items and for strings.
ghost use Rattle.std.specs.Prelude.{◌≡◌, ◌≢◌, true, Some, Err, IfOk, IfErr, OnOk, OnErr, is_some};
ghost use Rattle.rank_handles.specs.Grouped.{group_answer, rank_answer, answer_with};
ghost use Rattle.rank_handles.specs.Handles.{rank_in, group_in, elastic_in, if_there, given_in, HasNewGroup, HasNewRank, HasNewElastic};

use crate::answer::Answer;
use crate::cases::AnyGroup;
use crate::elastic_rank::ElasticRank;
use crate::part::Part;
use bale_items::NoMemory;
use elastic::none_begun;
use std::alloc::Global;

/// A group of these numbers, in a box of its own.
#[tactic(auto, unfolding(crate::specs::Handles::HasNewGroup))]
pub fn make_group(
    alloc: Global,
    dims: &[u32],
    buffer: u32,
    slots: u32,
    steady: bool,
) -> Result<Box<Part>, Answer>
    ensures answer { result ≢ Err Answer.NoMemory → answer_with result ≡ group_answer dims.now buffer slots }
    ensures memory { result ≡ Err Answer.NoMemory → group_answer dims.now buffer slots ≡ Answer.Good }
    ensures refused { IfErr result (λ a. a ≢ Answer.Good) }
    ensures made { IfOk result (λ b. HasNewGroup dims.now buffer slots steady (group_in (Some b.value))) }
    ensures there { IfOk result (λ b. is_some (group_in (Some b.value)) ≡ true) }
{
    let group = AnyGroup::new(alloc, dims, buffer, slots, steady)?;
    let Ok(mut room) = Box::new(alloc, Part::Empty) else {
        return Err(Answer::NoMemory);
    };
    *room = Part::Group(group);
    Ok(room)
}

/// A rank of the group, in a box of its own.
#[tactic(auto, unfolding(crate::specs::Handles::HasNewRank))]
pub fn make_rank(alloc: Global, part: &mut Part, rank: u32) -> Result<Box<Part>, Answer>
    ensures answer { result ≢ Err Answer.NoMemory → answer_with result ≡ if_there (group_in (Some part.old))
        (λ g. rank_answer g rank) }
    ensures memory { result ≡ Err Answer.NoMemory
        → if_there (group_in (Some part.old)) (λ g. rank_answer g rank) ≡ Answer.Good }
    ensures refused { IfErr result (λ a. a ≢ Answer.Good) }
    ensures made { IfOk result (λ b. HasNewRank (group_in (Some part.old)) rank (rank_in (Some b.value))) }
    ensures there { IfOk result (λ b. is_some (rank_in (Some b.value)) ≡ true) }
    ensures given { OnOk result (group_in (Some part.new) ≡ given_in (group_in (Some part.old)) rank) }
    ensures unchanged { OnErr result (part.new ≡ part.old) }
    ensures still { is_some (group_in (Some part.new)) ≡ is_some (group_in (Some part.old)) }
{
    let Part::Group(group) = part else {
        return Err(Answer::Gone);
    };
    match group.answer(rank) {
        Answer::Good => (),
        wrong => return Err(wrong),
    }
    // The seat of a rank is given out once, so nothing that can fail for memory comes after it.
    let Ok(mut room) = Box::new(alloc, Part::Empty) else {
        return Err(Answer::NoMemory);
    };
    match group.new_rank(alloc, rank) {
        Ok(made) => {
            *room = Part::Rank(made);
            Ok(room)
        }
        Err(NoMemory) => Err(Answer::NoMemory),
    }
}

/// An elastic rank of the group, in a box of its own.
#[tactic(auto, unfolding(crate::specs::Handles::HasNewElastic))]
pub fn make_elastic(alloc: Global, part: &mut Part, rank: u32) -> Result<Box<Part>, Answer>
    ensures answer { result ≢ Err Answer.NoMemory → answer_with result ≡ if_there (group_in (Some part.old))
        (λ g. rank_answer g rank) }
    ensures memory { result ≡ Err Answer.NoMemory
        → if_there (group_in (Some part.old)) (λ g. rank_answer g rank) ≡ Answer.Good }
    ensures refused { IfErr result (λ a. a ≢ Answer.Good) }
    ensures made { IfOk result (λ b. HasNewElastic (group_in (Some part.old)) rank (elastic_in (Some b.value))) }
    ensures there { IfOk result (λ b. is_some (elastic_in (Some b.value)) ≡ true) }
    ensures given { OnOk result (group_in (Some part.new) ≡ given_in (group_in (Some part.old)) rank) }
    ensures unchanged { OnErr result (part.new ≡ part.old) }
    ensures still { is_some (group_in (Some part.new)) ≡ is_some (group_in (Some part.old)) }
{
    let Part::Group(group) = part else {
        return Err(Answer::Gone);
    };
    match group.answer(rank) {
        Answer::Good => (),
        wrong => return Err(wrong),
    }
    // As in make_rank, nothing that can fail for memory comes after the seat was given out.
    let Ok(mut room) = Box::new(alloc, Part::Empty) else {
        return Err(Answer::NoMemory);
    };
    let Ok(begun) = none_begun(alloc, group.ranks()) else {
        return Err(Answer::NoMemory);
    };
    match group.new_rank(alloc, rank) {
        Ok(made) => {
            *room = Part::Elastic(ElasticRank::new(alloc, made, begun));
            Ok(room)
        }
        Err(NoMemory) => Err(Answer::NoMemory),
    }
}
