//! What C calls, of a rank and many items.
ghost use Rattle.std.specs.Prelude.{◌≡◌, ◌≤◌, min, take, drop, length};
ghost use Rattle.rank_handles.specs.Calls.{OnRank};
ghost use Rattle.rank_handles.specs.Handles.{if_there};
ghost use Rattle.rank_handles.specs.Many.{push_many_answer, pull_many_answer, number_or, told_of, count_in, PushesMany, PullsMany};
ghost use Rattle.rank_handles.specs.HandleView.{seated_rank};

use rank_handles::{Answer, BaleItem, BaleRank, pull_number, push_number};

/// Pushes items toward ranks, as so many single calls, until one finds no room. How many were
/// pushed, or what is wrong: all destinations are looked at first, so that misuse changes nothing.
#[unsafe(no_mangle)]
pub extern "C" fn bale_push_many(rank: &mut BaleRank, items: &[BaleItem], to: &[u32]) -> i64
    ensures answer { result ≡ told_of (number_or (if_there (seated_rank rank.old)
        (λ s. push_many_answer s (take (min (length items.now) (length to.now)) to.now))) (count_in result)) }
    ensures few { count_in result ≤ min (length items.now) (length to.now) }
    ensures pushes { OnRank (PushesMany (take (min (length items.now) (length to.now)) items.now)
        (take (min (length items.now) (length to.now)) to.now) (count_in result)) (seated_rank rank.old) (seated_rank rank.new) }
{
    let Some(there) = rank.get_mut() else {
        return i64::from(Answer::Gone.code());
    };
    let most = items.len().min(to.len());
    push_number(there, &items[..most], &to[..most])
}

/// Pulls items, as so many single calls, until there are none or no place is left. How many were
/// pulled, or what is wrong.
#[unsafe(no_mangle)]
pub extern "C" fn bale_pull_many(
    rank: &mut BaleRank,
    items: &mut [BaleItem],
    from: &mut [u32],
) -> i64
    ensures answer { result ≡ told_of (number_or (if_there (seated_rank rank.old) pull_many_answer) (count_in result)) }
    ensures few { count_in result ≤ min (length items.old) (length from.old) }
    ensures other_items { drop (count_in result) items.new ≡ drop (count_in result) items.old }
    ensures other_from { drop (count_in result) from.new ≡ drop (count_in result) from.old }
    ensures pulls { OnRank (PullsMany (min (length items.old) (length from.old))
        (take (min (length items.old) (length from.old)) items.new)
        (take (min (length items.old) (length from.old)) from.new) (count_in result))
        (seated_rank rank.old) (seated_rank rank.new) }
{
    let Some(there) = rank.get_mut() else {
        return i64::from(Answer::Gone.code());
    };
    let most = items.len().min(from.len());
    pull_number(there, &mut items[..most], &mut from[..most])
}
