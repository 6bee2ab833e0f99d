//! Calls of many items, as the number that C is told: how many were moved, or what is wrong.
ghost use Rattle.std.specs.Prelude.{◌≡◌, ◌≤◌, ◌<◌, ◌^◌, drop, length};
ghost use Rattle.rank_handles.specs.Many.{push_many_answer, pull_many_answer, number_or, moved_by, told_of, count_in, PushesMany, PullsMany};

use crate::answer::Answer;
use crate::cases::AnyRank;
use crate::exchange::Exchange;
use crate::item::BaleItem;

/// Pushes items toward ranks, as so many single calls, until one finds no room.
pub fn push_number(rank: &mut AnyRank, items: &[BaleItem], to: &[u32]) -> i64
    requires same { length to.now ≡ length items.now }
    ensures answer { result ≡ told_of (number_or (push_many_answer rank.old to.now) (count_in result)) }
    ensures few { count_in result ≤ length items.now }
    ensures pushes { PushesMany items.now to.now (count_in result) rank.old rank.new }
{
    let pushed = rank.push_many(items, to);
    many_code(pushed)
}

/// Pulls items, as so many single calls, until there are none or no place is left.
pub fn pull_number(rank: &mut AnyRank, items: &mut [BaleItem], from: &mut [u32]) -> i64
    requires same { length from.old ≡ length items.old }
    ensures answer { result ≡ told_of (number_or (pull_many_answer rank.old) (count_in result)) }
    ensures few { count_in result ≤ length items.old }
    ensures other_items { drop (count_in result) items.new ≡ drop (count_in result) items.old }
    ensures other_from { drop (count_in result) from.new ≡ drop (count_in result) from.old }
    ensures pulls { PullsMany (length items.old) items.new from.new (count_in result) rank.old rank.new }
{
    let pulled = rank.pull_many(items, from);
    many_code(pulled)
}

/// The number that C is told.
fn many_code(many: Result<usize, Answer>) -> i64
    requires small { moved_by many < 2 ^ 63 }
    ensures { result ≡ told_of many }
{
    match many {
        Ok(count) => count as i64,
        Err(answer) => i64::from(answer.code()),
    }
}
