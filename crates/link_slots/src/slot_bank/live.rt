//! What holds of a bank at every moment.
ghost use Rattle.std.specs.Prelude.{◌≡◌};
ghost use Rattle.item_buffer.specs.Contents.{Contents};
ghost use Rattle.atomic_table.specs.Table.{State};
ghost use Rattle.link_slots.specs.Shape.{Shape};
ghost use Rattle.link_slots.specs.WordSteps.{TableView, IsLawful};
ghost use Rattle.link_slots.specs.ClosedBank.{LiveLaw};
ghost use Rattle.link_slots.specs.Offered.{BellLaw, HeardLaw, HearLaw};
ghost use Rattle.link_slots.specs.Room.{NoRoomLaw, LookLaw};

use crate::slot_bank::SlotBank;
use crate::table::plan::Plan;
use crate::table::rule::Links;
use crate::table::slot::Slot;
use crate::table::view::Knows;
use atomic_table::{Shared, TableRule};

impl<const CAP: usize> SlotBank<CAP> {
    /// The table that the ranks' seats share. Its type names the rule that each step on it keeps,
    /// `Links`, and a state that keeps the rule is lawful: so the bank is, between any two steps.
    pub fn table(&self) -> &Shared<Slot<CAP>, Knows, Plan, Links<CAP>>
        ensures id { result.now.table_id ≡ self.now.id }
        ensures shape { result.now.key ≡ self.now.shape }
        ensures lawful { (s : State Contents TableView)
            → ⟦<Links<CAP> as TableRule<Slot<CAP>, Knows, Plan>>⟧.holds result.now.key s
            → IsLawful CAP self.now.shape s }
    {
        rule_law::<CAP>();
        &self.board.shared
    }
}

/// Between any two steps, whichever threads make them, the bank is lawful: the rule that its table
/// keeps (`SlotBank::table`), `Links`, says so in all six parts. It is a law: the call does
/// nothing.
pub fn rule_law<const CAP: usize>()
    ensures { (shape : Shape) (s : State Contents TableView)
        → ⟦<Links<CAP> as TableRule<Slot<CAP>, Knows, Plan>>⟧.holds shape s → IsLawful CAP shape s }
{}

/// The lists of a lawful bank keep the laws of a round at every moment, and not only when it is
/// closed. It is a law: the call does nothing.
pub fn live_law<const CAP: usize>()
    ensures { LiveLaw CAP }
{}

/// If a link's bit isn't set, as right after a hear of its doorbell, or the reader has heard it
/// since the sender last rang, and a collect of the link answered Nothing, each parcel that was
/// offered is collected; and a step that counts a hear marks each link for which one rang. It is
/// a law: the call does nothing.
pub fn bell_law<const CAP: usize>()
    ensures unset { BellLaw CAP }
    ensures heard { HeardLaw CAP }
    ensures step { HearLaw CAP }
{}

/// If the sender of a link has looked for room since the latest release, and a post answered
/// NoRoom, every slot of the link is taken; and a step that counts a look finds all the room that
/// there is. It is a law: the call does nothing.
pub fn room_law<const CAP: usize>()
    ensures full { NoRoomLaw CAP }
    ensures step { LookLaw CAP }
{}
