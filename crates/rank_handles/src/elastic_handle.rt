//! The handle that C has of an elastic rank.
ghost use Rattle.std.specs.Prelude.{◌≡◌, Some, None, IfSome, is_some, true};
ghost use Rattle.std.specs.Borrow.{sem};
ghost use Rattle.rank_handles.specs.Handles.{elastic_in};

use crate::elastic_rank::ElasticRank;
use crate::held::Held;
use crate::loose::Loose;
use crate::part::Part;
use std::alloc::Global;
use std::mem;

/// An elastic rank's handle. C begins it as zeros, and hands it on by its address alone.
#[repr(C)]
#[derive(Drop)]
pub struct BaleElastic {
    pub held: Held,
    pub live: bool,
    pub ghost told: { live ≡ is_some (elastic_in held.value) },
}

/// Asks for the proof that a value may go to another thread.
fn crosses<T: Send>(_value: &T) {}

impl BaleElastic {
    ghost use Rattle.rank_handles.specs.LendsElastic.{lends_elastic_of};

    /// A handle with nothing.
    fn nothing() -> BaleElastic
        ensures { result.held.value ≡ None }
    {
        BaleElastic {
            held: Held::none(),
            live: false,
        }
    }

    /// The rank in place, if there is one.
    #[inline]
    pub fn get_mut(&mut self) -> Option<&mut ElasticRank>
        ensures* writes_back { sem 𝓛 (lends_elastic_of self.entry result) }
        ensures gone { result ≡ None → elastic_in self.old.held.value ≡ None }
        ensures value { IfSome result (λ r. Some r.now ≡ elastic_in self.old.held.value) }
    {
        if !self.live {
            return None;
        }
        Some(self.held.elastic_mut())
    }

    /// Takes the rank out, if there is one.
    pub fn take(&mut self, alloc: Global) -> Option<Box<Part>>
        ensures gone { result ≡ None → elastic_in self.old.held.value ≡ None }
        ensures unchanged { result ≡ None → self.new ≡ self.old }
        ensures taken { IfSome result (λ b. Some b.value ≡ self.old.held.value) }
        ensures there { IfSome result (λ b. is_some (elastic_in (Some b.value)) ≡ true) }
        ensures emptied { IfSome result (λ _. self.new.held.value ≡ None) }
    {
        if !self.live {
            return None;
        }
        let BaleElastic { held, live: _ } = mem::replace(self, BaleElastic::nothing());
        Some(held.into_loose(alloc).into_box())
    }

    /// Puts a rank in.
    pub fn put(&mut self, part: Box<Part>)
        requires { is_some (elastic_in (Some part.value)) ≡ true }
        ensures { self.new.held.value ≡ Some part.value }
    {
        *self = BaleElastic {
            held: Held::of(Loose::of(part)),
            live: true,
        };
        crosses(self);
    }
}
