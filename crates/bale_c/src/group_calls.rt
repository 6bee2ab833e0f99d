//! What C calls, of a group.
ghost use Rattle.std.specs.Prelude.{◌≡◌, ◌≢◌, Some, None};
ghost use Rattle.rank_handles.specs.Codes.{code_of};
ghost use Rattle.rank_handles.specs.Handles.{if_there, new_group_answer, new_rank_answer, given_in, HasNewGroup, HasNewRank};
ghost use Rattle.rank_handles.specs.HandleView.{seated_rank, group_of};

use rank_handles::{Answer, BaleGroup, BaleRank, make_group, make_rank};
use std::alloc::Global;

/// Makes a group of which no rank is made yet.
#[unsafe(no_mangle)]
#[tactic(auto, using(rank_handles::proofs::Codes::code_good, rank_handles::proofs::Codes::code_no_memory))]
pub extern "C" fn bale_group_new(
    alloc: Global,
    dims: &[u32],
    buffer: u32,
    slots: u32,
    steady: bool,
    out: &mut BaleGroup,
) -> i32
    ensures answer { result ≢ code_of Answer.NoMemory → result ≡ code_of (new_group_answer
        (group_of out.old) dims.now buffer slots) }
    ensures memory { result ≡ code_of Answer.NoMemory → new_group_answer
        (group_of out.old) dims.now buffer slots ≡ Answer.Good }
    ensures made { result ≡ code_of Answer.Good → HasNewGroup dims.now buffer slots steady
        (group_of out.new) }
    ensures unchanged { result ≢ code_of Answer.Good → out.new ≡ out.old }
{
    if out.live {
        return Answer::InUse.code();
    }
    match make_group(alloc, dims, buffer, slots, steady) {
        Ok(part) => {
            out.put(part);
            Answer::Good.code()
        }
        Err(answer) => answer.code(),
    }
}

/// Makes a rank of the group that was not made before.
#[unsafe(no_mangle)]
#[tactic(auto, using(rank_handles::proofs::Codes::code_good, rank_handles::proofs::Codes::code_no_memory))]
pub extern "C" fn bale_rank_new(
    alloc: Global,
    group: &mut BaleGroup,
    rank: u32,
    out: &mut BaleRank,
) -> i32
    ensures answer { result ≢ code_of Answer.NoMemory → result ≡ code_of (new_rank_answer
        (group_of group.old) (seated_rank out.old) rank) }
    ensures memory { result ≡ code_of Answer.NoMemory → new_rank_answer
        (group_of group.old) (seated_rank out.old) rank ≡ Answer.Good }
    ensures made { result ≡ code_of Answer.Good → HasNewRank (group_of group.old) rank
        (seated_rank out.new) }
    ensures given { result ≡ code_of Answer.Good → group_of group.new
        ≡ given_in (group_of group.old) rank }
    ensures unchanged { result ≢ code_of Answer.Good → out.new ≡ out.old }
    ensures same_group { result ≢ code_of Answer.Good → group_of group.new
        ≡ group_of group.old }
{
    if out.live {
        return Answer::InUse.code();
    }
    let Some(mut part) = group.take(alloc) else {
        return Answer::Gone.code();
    };
    let made = make_rank(alloc, &mut part, rank);
    group.put(part);
    match made {
        Ok(part) => {
            out.put(part);
            Answer::Good.code()
        }
        Err(answer) => answer.code(),
    }
}

/// Frees the group. Its ranks go on.
#[unsafe(no_mangle)]
pub extern "C" fn bale_group_free(alloc: Global, group: &mut BaleGroup) -> i32
    ensures answer { result ≡ code_of (if_there (group_of group.old) (λ g. Answer.Good)) }
    ensures gone { group_of group.new ≡ None }
{
    match group.take(alloc) {
        Some(_) => Answer::Good.code(),
        None => Answer::Gone.code(),
    }
}
