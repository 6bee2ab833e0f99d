//! The spare parcel of a rank, which is in the place of a parcel that is lent.

ghost use Rattle.std.specs.Prelude.{◌≡◌};
ghost use Rattle.hop_core.specs.Lent.{lent_by, lent_parcel};
ghost use Rattle.hop_core.specs.Lent.Lent.{Nothing, Given};

use item_buffer::Parcel;
use std::mem;
use std::snapshot::Snapshot;

/// What became of a rank's spare parcel. Contracts see which parcel is lent.
#[derive(Drop)]
pub(crate) enum Loan<const CAP: usize> {
    /// It is at hand, and nothing is lent.
    Nothing(Parcel<CAP>),
    /// It is in the place of the open parcel toward a neighbour, which was lent marked last or not.
    ToSend(u32, bool, Snapshot<Parcel<CAP>>),
    /// It is in the place of the inbox of a neighbour.
    ToFill(u32),
    /// It was given away.
    Given,
}

impl<const CAP: usize> Loan<CAP> {
    /// Gives the spare parcel away.
    pub(crate) fn take_spare(&mut self) -> Parcel<CAP>
        requires at_hand { lent_by self.old ≡ Nothing }
        ensures { lent_by self.new ≡ Given }
    {
        match mem::replace(self, Loan::Given) {
            Loan::Nothing(spare) => spare,
            Loan::ToSend(_, _, _) | Loan::ToFill(_) | Loan::Given => unreachable!(),
        }
    }

    /// Whether the open parcel that is lent is marked last.
    pub(crate) fn is_last(&self) -> bool
        ensures { result ≡ (lent_parcel (lent_by self.now)).last }
    {
        match self {
            Loan::ToSend(_, last, _) => *last,
            Loan::Nothing(_) | Loan::ToFill(_) | Loan::Given => false,
        }
    }
}
