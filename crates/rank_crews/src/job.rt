//! Turns that are made to their end by a count of their own.
ghost use Rattle.std.specs.Prelude.{◌<◌};
ghost use Rattle.bale_items.specs.Ledgers.{IsBlankOf};

use bale_items::Steps;
use std::marker::Brand;
use std::sync::ledger::{Blank, Ledger};

/// What one thread does with its ranks, turn by turn.
pub(crate) trait Job {
    ghost ran: { Self → Self → Type 0 };

    /// Does it to the end. Each turn raises `steps` by one.
    fn work<L: Ledger>(self, steps: &mut Steps<L>) -> Self
        ensures { ran self result };
}

/// Does a job, and counts its turns from 0 on.
pub(crate) fn do_job<J: Job>(job: J) -> J
    ensures { J.ran job result }
{
    do_counted::<J, Brand>(job, Blank::new(1))
}

/// Does a job, and counts its turns by a ledger that nothing was written in.
fn do_counted<J: Job, L: Ledger>(job: J, blank: Blank) -> J
    requires blank { IsBlankOf L.name L.parts blank.name blank.parts }
    ensures { J.ran job result }
{
    let mut steps = Steps::<L>::new(blank);
    job.work(&mut steps)
}
