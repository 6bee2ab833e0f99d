//! What C calls, of a rank for strings.
ghost use Rattle.std.specs.Prelude.{◌≡◌, ◌≢◌, None};
ghost use Rattle.std.specs.Option.{option_map};
ghost use Rattle.rank_handles.specs.Answers.{begin_answer, advance_answer, reset_answer};
ghost use Rattle.rank_handles.specs.Codes.{code_of, phase_code};
ghost use Rattle.rank_handles.specs.Handles.{if_there, phase_in, ranks_in, new_rank_answer, given_in, HasNewElastic};
ghost use Rattle.rank_handles.specs.HandleView.{elastic_of, group_of};
ghost use Rattle.rank_handles.specs.StringCalls.{OnElastic, string_answer, PushesString, HasPulled, AdvancesStrings, BeginsStrings, ResetsStrings, string_lent, StringLentBy};

use crate::rank_calls::code_of_phase;
use rank_handles::{Answer, BaleElastic, BaleGroup, BaleString, make_elastic};
use std::alloc::Global;

/// Makes a rank for strings, of a rank of the group that was not made before.
#[unsafe(no_mangle)]
#[tactic(auto, using(rank_handles::proofs::Codes::code_good, rank_handles::proofs::Codes::code_no_memory))]
pub extern "C" fn bale_elastic_new(
    alloc: Global,
    group: &mut BaleGroup,
    rank: u32,
    out: &mut BaleElastic,
) -> i32
    ensures answer { result ≢ code_of Answer.NoMemory → result ≡ code_of (new_rank_answer
        (group_of group.old) (elastic_of out.old) rank) }
    ensures memory { result ≡ code_of Answer.NoMemory → new_rank_answer
        (group_of group.old) (elastic_of out.old) rank ≡ Answer.Good }
    ensures made { result ≡ code_of Answer.Good → HasNewElastic (group_of group.old) rank
        (elastic_of out.new) }
    ensures given { result ≡ code_of Answer.Good → group_of group.new
        ≡ given_in (group_of group.old) rank }
    ensures unchanged { result ≢ code_of Answer.Good → out.new ≡ out.old }
    ensures same_group { result ≢ code_of Answer.Good → group_of group.new
        ≡ group_of group.old }
{
    if out.live {
        return Answer::InUse.code();
    }
    let Some(mut part) = group.take(alloc) else {
        return Answer::Gone.code();
    };
    let made = make_elastic(alloc, &mut part, rank);
    group.put(part);
    match made {
        Ok(part) => {
            out.put(part);
            Answer::Good.code()
        }
        Err(answer) => answer.code(),
    }
}

/// Begins an epoch.
#[unsafe(no_mangle)]
pub extern "C" fn bale_elastic_begin(rank: &mut BaleElastic) -> i32
    ensures answer { result ≡ code_of (if_there (elastic_of rank.old) (λ s. begin_answer s.rank.state.phase)) }
    ensures begins { OnElastic BeginsStrings (elastic_of rank.old) (elastic_of rank.new) }
{
    let Some(there) = rank.get_mut() else {
        return Answer::Gone.code();
    };
    there.begin().code()
}

/// Pushes a string toward a rank, all of it or nothing.
#[unsafe(no_mangle)]
#[tactic(auto, using(rank_handles::proofs::Codes::code_good, rank_handles::proofs::Codes::code_no_memory))]
pub extern "C" fn bale_epush(rank: &mut BaleElastic, bytes: &[u8], to: u32) -> i32
    ensures answer { result ≢ code_of Answer.NoMemory → result ≡ code_of (if_there (elastic_of rank.old)
        (λ s. string_answer s bytes.now to)) }
    ensures memory { result ≡ code_of Answer.NoMemory → if_there (elastic_of rank.old)
        (λ s. string_answer s bytes.now to) ≡ Answer.Good }
    ensures pushes { result ≡ code_of Answer.Good → OnElastic (PushesString bytes.now to)
        (elastic_of rank.old) (elastic_of rank.new) }
    ensures unchanged { result ≢ code_of Answer.Good → elastic_of rank.new ≡ elastic_of rank.old }
{
    let Some(there) = rank.get_mut() else {
        return Answer::Gone.code();
    };
    there.push(bytes, to).code()
}

/// Pulls the next whole string, which `bale_elastic_string` lends then, and tells its sender.
#[unsafe(no_mangle)]
pub extern "C" fn bale_elastic_pull(rank: &mut BaleElastic, from: &mut u32) -> i32
    ensures pulls { HasPulled result from.old from.new (elastic_of rank.old) (elastic_of rank.new) }
{
    let Some(there) = rank.get_mut() else {
        return Answer::Gone.code();
    };
    match there.pull() {
        Ok(sender) => {
            *from = sender;
            Answer::Good.code()
        }
        Err(answer) => answer.code(),
    }
}

/// Lends the string that the latest pull gave. It holds the rank until it ends, so no clause says
/// what the rank is after it; `ElasticRank::string` only looks at it.
#[unsafe(no_mangle)]
#[tactic(auto, using(rank_handles::proofs::Codes::code_good))]
pub extern "C" fn bale_elastic_string<'a>(
    rank: &'a mut BaleElastic,
    string: &mut BaleString<'a>,
) -> i32
    ensures answer { result ≡ code_of (if_there (elastic_of rank.old) string_lent) }
    ensures lent { result ≡ code_of Answer.Good → StringLentBy string.new.bytes.now (elastic_of rank.old) }
    ensures unchanged { result ≢ code_of Answer.Good → string.new ≡ string.old }
{
    let Some(there) = rank.get_mut() else {
        return Answer::Gone.code();
    };
    match there.string() {
        Some(bytes) => {
            *string = BaleString { bytes };
            Answer::Good.code()
        }
        None => Answer::Nothing.code(),
    }
}

/// Pushes what is pending, advances the exchange, and tells how far the rank is.
#[unsafe(no_mangle)]
pub extern "C" fn bale_elastic_advance(rank: &mut BaleElastic, done: bool) -> i32
    ensures answer { result ≡ code_of (if_there (elastic_of rank.old) (λ s. advance_answer s.rank done
        (phase_in (option_map (λ e. e.rank) (elastic_of rank.new))))) }
    ensures advances { OnElastic (AdvancesStrings done) (elastic_of rank.old) (elastic_of rank.new) }
{
    let Some(there) = rank.get_mut() else {
        return Answer::Gone.code();
    };
    there.advance(done).code()
}

/// Ends an epoch that is complete.
#[unsafe(no_mangle)]
pub extern "C" fn bale_elastic_reset(rank: &mut BaleElastic) -> i32
    ensures answer { result ≡ code_of (if_there (elastic_of rank.old) (λ s. reset_answer s.rank)) }
    ensures resets { OnElastic ResetsStrings (elastic_of rank.old) (elastic_of rank.new) }
{
    let Some(there) = rank.get_mut() else {
        return Answer::Gone.code();
    };
    there.reset().code()
}

/// How many ranks there are; 0 if the handle has no rank.
#[unsafe(no_mangle)]
pub extern "C" fn bale_elastic_ranks(rank: &mut BaleElastic) -> u32
    ensures value { result ≡ ranks_in (option_map (λ s. s.rank) (elastic_of rank.old)) }
    ensures unchanged { elastic_of rank.new ≡ elastic_of rank.old }
{
    let Some(there) = rank.get_mut() else {
        return 0;
    };
    there.ranks()
}

/// How far the rank is in its epoch.
#[unsafe(no_mangle)]
pub extern "C" fn bale_elastic_phase(rank: &mut BaleElastic) -> i32
    ensures value { result ≡ phase_code (option_map (λ s. s.rank.state.phase) (elastic_of rank.old)) }
    ensures unchanged { elastic_of rank.new ≡ elastic_of rank.old }
{
    let Some(there) = rank.get_mut() else {
        return Answer::Gone.code();
    };
    code_of_phase(there.phase())
}

/// Frees the rank. Its group and the other ranks stay.
#[unsafe(no_mangle)]
pub extern "C" fn bale_elastic_free(alloc: Global, rank: &mut BaleElastic) -> i32
    ensures answer { result ≡ code_of (if_there (elastic_of rank.old) (λ s. Answer.Good)) }
    ensures gone { elastic_of rank.new ≡ None }
{
    match rank.take(alloc) {
        Some(_) => Answer::Good.code(),
        None => Answer::Gone.code(),
    }
}
