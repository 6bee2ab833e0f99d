//! What a handle has, behind a pointer that C may keep.
ghost use Rattle.std.specs.Prelude.{◌≡◌, Some, None, Option, is_some, true};
ghost use Rattle.std.specs.Borrow.{sem};
ghost use Rattle.rank_handles.specs.declared.part.Part.{Part};
ghost use Rattle.rank_handles.specs.Handles.{rank_in, elastic_in};

use crate::cases::AnyRank;
use crate::elastic_rank::ElasticRank;
use crate::loose::Loose;
use crate::part::Part;
use std::alloc::Global;
use std::marker::Model;

/// What a handle has: nothing, or a part in a box of its own.
#[repr(C)]
#[derive(Drop)]
pub struct Held {
    at: *mut u8,
    pub ghost value: { Option Part },
}

impl Model for Held {
    ghost use Rattle.rank_handles.specs.Ownership.{holds};

    ghost also_owns = { λ h. holds h.at h.value };
}

impl Held {
    ghost use Rattle.rank_handles.specs.Lends.{lends_part, lends_rank, lends_elastic};

    /// Nothing.
    pub(crate) fn none() -> Held
        ensures { result.value ≡ None }
    {
        Held {
            at: std::ptr::null_mut(),
        }
    }

    /// The part in this box.
    pub(crate) fn of(part: Loose<Part, Global>) -> Held
        ensures { result.value ≡ Some part.value }
    {
        let Loose { at, alloc: _ } = part;
        Held { at: at as *mut u8 }
    }

    /// The part, in place.
    #[inline]
    pub(crate) fn part_mut(&mut self) -> &mut Part
        requires there { is_some self.old.value ≡ true }
        ensures* writes_back { sem 𝓛 (lends_part self.entry result) }
        ensures value { Some result.now ≡ self.old.value }
    {
        unsafe { &mut *(self.at as *mut Part) }
    }

    /// The rank, in place.
    #[inline]
    pub(crate) fn rank_mut(&mut self) -> &mut AnyRank
        requires there { is_some (rank_in self.old.value) ≡ true }
        ensures* writes_back { sem 𝓛 (lends_rank self.entry result) }
        ensures value { Some result.now ≡ rank_in self.old.value }
    {
        let Part::Rank(rank) = self.part_mut() else {
            unreachable!()
        };
        rank
    }

    /// The elastic rank, in place.
    #[inline]
    pub(crate) fn elastic_mut(&mut self) -> &mut ElasticRank
        requires there { is_some (elastic_in self.old.value) ≡ true }
        ensures* writes_back { sem 𝓛 (lends_elastic self.entry result) }
        ensures value { Some result.now ≡ elastic_in self.old.value }
    {
        let Part::Elastic(rank) = self.part_mut() else {
            unreachable!()
        };
        rank
    }

    /// The box again.
    pub(crate) fn into_loose(self, alloc: Global) -> Loose<Part, Global>
        requires { is_some self.value ≡ true }
        ensures { Some result.value ≡ self.value }
    {
        let Held { at } = self;
        Loose {
            at: at as *mut Part,
            alloc,
        }
    }
}

// A part is of plain data, and of a bank that threads share; so is what a handle has. C may hand it
// to another thread.
unsafe impl Send for Held {}
