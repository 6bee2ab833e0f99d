//! The tags of entries: what an entry must carry so that each relay knows its next link, and its
//! reader knows its sender.
//!
//! On hop `h` an entry has taken the destination's coordinates below `h`, and still has the
//! sender's from `h` on: its link tells those. The tag holds what is missing, the sender's
//! coordinates below `h` and the destination's above `h`.

ghost use Rattle.std.specs.Prelude.{◌≡◌, ℕ, ◌+◌, ◌-◌, ◌<◌, ◌≤◌, length};
ghost use Rattle.bale_items.specs.declared.item.Tag.{Tag};
ghost use Rattle.route_tensor.specs.Grid.{ranks, place, coord, IsGrid};
ghost use Rattle.route_tensor.specs.Link.{IsLink, IsOnRoute};
ghost use Rattle.route_tensor.specs.Tag.{IsFair, tag_at, next_tag, tag_rank, sender_of, destination_of};

use crate::grid::Grid;
use bale_items::Tag;

impl Grid {
    /// The tag of an entry from `s` to `d` on its first link.
    pub fn tag_first(&self, s: u32, d: u32) -> Tag
        requires sender { s < ranks self.now }
        requires destination { d < ranks self.now }
        ensures value { result ≡ tag_at self.now s d 1 }
        ensures fair { IsFair self.now 1 result }
    {
        Tag {
            d1: 0,
            d2: self.digit(d, 2),
            d3: self.digit(d, 3),
        }
    }

    /// The tag on the next link, of an entry that came on hop `h` from `a` to `b`.
    pub fn tag_next(&self, tag: Tag, h: u32, a: u32, b: u32) -> Tag
        requires link { IsLink self.now h a b }
        requires next { h < length self.now }
        requires fair { IsFair self.now h tag }
        ensures value { result ≡ next_tag self.now tag h a }
        ensures fair { IsFair self.now (h + 1) result }
        ensures route { (s d : ℕ) → IsOnRoute self.now s d h a b → tag ≡ tag_at self.now s d h
            → result ≡ tag_at self.now s d (h + 1) }
    {
        let done = self.coord(a, h) as u8;
        if h == 1 {
            Tag {
                d1: done,
                d2: 0,
                d3: tag.d3,
            }
        } else {
            Tag {
                d1: tag.d1,
                d2: done,
                d3: 0,
            }
        }
    }

    /// The sender and the destination of an entry that came with this tag on hop `h` from `a` to
    /// `b`.
    pub fn pair_of(&self, tag: Tag, h: u32, a: u32, b: u32) -> (u32, u32)
        requires link { IsLink self.now h a b }
        requires fair { IsFair self.now h tag }
        ensures sender { result.0 ≡ sender_of self.now tag h a }
        ensures destination { result.1 ≡ destination_of self.now tag h b }
        ensures route { IsOnRoute self.now result.0 result.1 h a b }
        ensures tag { tag ≡ tag_at self.now result.0 result.1 h }
        ensures each { (s d : ℕ) → IsOnRoute self.now s d h a b → tag ≡ tag_at self.now s d h → (result.0 ≡ s)
            × (result.1 ≡ d) }
    {
        let rank = self.tag_rank(tag, h);
        (self.place(a, rank, h - 1), self.place(rank, b, h))
    }

    /// Coordinate `h` of rank `r` as a digit of a tag: 0 past the last hop.
    fn digit(&self, r: u32, h: u32) -> u8
        requires rank { r < ranks self.now }
        requires first { 1 ≤ h }
        ensures value { result ≡ coord self.now r h }
        ensures grid { IsGrid self.now }
    {
        if h <= self.hops() {
            self.coord(r, h) as u8
        } else {
            0
        }
    }

    /// The rank whose coordinates are the tag's digits.
    fn tag_rank(&self, tag: Tag, h: u32) -> u32
        requires { IsFair self.now h tag }
        ensures value { result ≡ tag_rank self.now tag }
        ensures rank { result < ranks self.now }
    {
        u32::from(tag.d1) + self.n1 * (u32::from(tag.d2) + self.n2 * u32::from(tag.d3))
    }
}
