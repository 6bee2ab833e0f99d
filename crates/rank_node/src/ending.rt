//! What a node does between two epochs.
ghost use Rattle.std.specs.Prelude.{◌≡◌, cond, true, false};
ghost use Rattle.rank_node.specs.Sending.{spoiled_vote};

use round_program::Program;

/// What follows a round.
#[derive(Clone, Copy, PartialEq, Eq, Debug)]
pub(crate) enum Follows {
    /// Another round, which the program has begun.
    Round,
    /// Another round, for which the program found no memory.
    SpoiledRound,
    /// Nothing.
    Nothing,
    /// Nothing, and the program found no memory.
    SpoiledNothing,
}

/// Ends the round of a program with the sum of the votes.
pub(crate) fn end_prog<Q: Program>(prog: &mut Box<Q>, sum: u64) -> Follows
    ensures round { result ≡ Follows.Round
        → (Q.rules.goes_on (Q.rules.shape prog.old.value) (Q.rules.round prog.old.value) sum ≡ true)
        × (prog.new.value ≡ Q.rules.ended prog.old.value sum) }
    ensures spoiled_round { result ≡ Follows.SpoiledRound
        → Q.rules.goes_on (Q.rules.shape prog.old.value) (Q.rules.round prog.old.value) sum ≡ true }
    ensures nothing { result ≡ Follows.Nothing
        → (Q.rules.goes_on (Q.rules.shape prog.old.value) (Q.rules.round prog.old.value) sum ≡ false)
        × (prog.new.value ≡ Q.rules.ended prog.old.value sum) }
    ensures spoiled_nothing { result ≡ Follows.SpoiledNothing
        → Q.rules.goes_on (Q.rules.shape prog.old.value) (Q.rules.round prog.old.value) sum ≡ false }
{
    let goes_on = prog.goes_on(sum);
    match (prog.end_round(sum), goes_on) {
        (Ok(_), true) => Follows::Round,
        (Ok(_), false) => Follows::Nothing,
        (Err(_), true) => Follows::SpoiledRound,
        (Err(_), false) => Follows::SpoiledNothing,
    }
}

/// The vote of a rank: that of its program, and the greatest number if memory ran out.
pub(crate) fn vote_of<Q: Program>(prog: &Box<Q>, spoiled: bool) -> u64
    ensures { result ≡ cond spoiled spoiled_vote (Q.rules.vote prog.now.value) }
{
    if spoiled { u64::MAX } else { prog.vote() }
}
