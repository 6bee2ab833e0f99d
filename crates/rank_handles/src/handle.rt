//! The handles that C has: of a group, and of a rank.
ghost use Rattle.std.specs.Prelude.{◌≡◌, Some, None, IfSome, is_some, true};
ghost use Rattle.std.specs.Borrow.{sem};
ghost use Rattle.rank_handles.specs.Handles.{rank_in, group_in};

use crate::cases::AnyRank;
use crate::held::Held;
use crate::loose::Loose;
use crate::part::Part;
use std::alloc::Global;
use std::mem;

/// A group's handle. C begins it as zeros, and hands it on by its address alone.
#[repr(C)]
#[derive(Drop)]
pub struct BaleGroup {
    pub held: Held,
    pub live: bool,
    pub ghost told: { live ≡ is_some (group_in held.value) },
}

/// A rank's handle. C begins it as zeros, and hands it on by its address alone.
#[repr(C)]
#[derive(Drop)]
pub struct BaleRank {
    pub held: Held,
    pub live: bool,
    pub ghost told: { live ≡ is_some (rank_in held.value) },
}

/// Asks for the proof that a value may go to another thread.
fn crosses<T: Send>(_value: &T) {}

impl BaleGroup {
    /// A handle with nothing.
    fn nothing() -> BaleGroup
        ensures { result.held.value ≡ None }
    {
        BaleGroup {
            held: Held::none(),
            live: false,
        }
    }

    /// Takes the group out, if there is one.
    pub fn take(&mut self, alloc: Global) -> Option<Box<Part>>
        ensures gone { result ≡ None → group_in self.old.held.value ≡ None }
        ensures unchanged { result ≡ None → self.new ≡ self.old }
        ensures taken { IfSome result (λ b. Some b.value ≡ self.old.held.value) }
        ensures there { IfSome result (λ b. is_some (group_in (Some b.value)) ≡ true) }
        ensures emptied { IfSome result (λ _. self.new.held.value ≡ None) }
    {
        if !self.live {
            return None;
        }
        let BaleGroup { held, live: _ } = mem::replace(self, BaleGroup::nothing());
        Some(held.into_loose(alloc).into_box())
    }

    /// Puts a group in.
    pub fn put(&mut self, part: Box<Part>)
        requires { is_some (group_in (Some part.value)) ≡ true }
        ensures { self.new.held.value ≡ Some part.value }
    {
        *self = BaleGroup {
            held: Held::of(Loose::of(part)),
            live: true,
        };
        crosses(self);
    }
}

impl BaleRank {
    ghost use Rattle.rank_handles.specs.LendsRank.{lends_rank_of};

    /// A handle with nothing.
    fn nothing() -> BaleRank
        ensures { result.held.value ≡ None }
    {
        BaleRank {
            held: Held::none(),
            live: false,
        }
    }

    /// The rank in place, if there is one.
    #[inline]
    pub fn get_mut(&mut self) -> Option<&mut AnyRank>
        ensures* writes_back { sem 𝓛 (lends_rank_of self.entry result) }
        ensures gone { result ≡ None → rank_in self.old.held.value ≡ None }
        ensures value { IfSome result (λ r. Some r.now ≡ rank_in self.old.held.value) }
    {
        if !self.live {
            return None;
        }
        Some(self.held.rank_mut())
    }

    /// Takes the rank out, if there is one.
    pub fn take(&mut self, alloc: Global) -> Option<Box<Part>>
        ensures gone { result ≡ None → rank_in self.old.held.value ≡ None }
        ensures unchanged { result ≡ None → self.new ≡ self.old }
        ensures taken { IfSome result (λ b. Some b.value ≡ self.old.held.value) }
        ensures there { IfSome result (λ b. is_some (rank_in (Some b.value)) ≡ true) }
        ensures emptied { IfSome result (λ _. self.new.held.value ≡ None) }
    {
        if !self.live {
            return None;
        }
        let BaleRank { held, live: _ } = mem::replace(self, BaleRank::nothing());
        Some(held.into_loose(alloc).into_box())
    }

    /// Puts a rank in.
    pub fn put(&mut self, part: Box<Part>)
        requires { is_some (rank_in (Some part.value)) ≡ true }
        ensures { self.new.held.value ≡ Some part.value }
    {
        *self = BaleRank {
            held: Held::of(Loose::of(part)),
            live: true,
        };
        crosses(self);
    }
}
