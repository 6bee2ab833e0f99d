//! The numbers of slots that a link may have.

ghost use Rattle.std.specs.Prelude.{◌≡◌, true};
ghost use Rattle.port_bank.specs.Port.{IsSlots};
ghost use Rattle.port_bank.specs.Slots.{is_slot_count};

/// The most slots that a link may have.
pub const MOST_SLOTS: u32 = 8;

/// The numbers of slots that a link may have: powers of two.
const SLOT_COUNTS: [u32; 4] = [1, 2, 4, 8];

/// Whether a link may have so many slots.
#[tactic(auto, unfolding(crate::specs::Port::IsSlots))]
pub fn is_slot_count(slots: u32) -> bool
    ensures value { result ≡ is_slot_count slots }
    ensures slots { result ≡ true → IsSlots slots }
{
    SLOT_COUNTS.contains(&slots)
}
