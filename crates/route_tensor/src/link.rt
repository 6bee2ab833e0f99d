//! The numbers of the links, counted by hop, then by sender, then by the reader's coordinate of
//! that hop.

ghost use Rattle.std.specs.Prelude.{◌≡◌, ◌+◌, ◌-◌, ◌*◌, ◌<◌, ◌≤◌, length, sum};
ghost use Rattle.route_tensor.specs.Grid.{ranks, dim, coord, place};
ghost use Rattle.route_tensor.specs.Link.{links, links_before, link, IsLink};
ghost use Rattle.route_tensor.specs.Ends.{hop_among, hop_at, sender_at, reader_at, with_coord};

use crate::grid::Grid;

impl Grid {
    /// The number of the link of hop `h` from `a` to `b`.
    pub fn link(&self, h: u32, a: u32, b: u32) -> u32
        requires { IsLink self.now h a b }
        ensures value { result ≡ link self.now h a b }
        ensures below { result < links self.now }
        ensures hop { hop_at self.now result ≡ h }
        ensures sender { sender_at self.now result ≡ a }
        ensures reader { reader_at self.now result ≡ b }
    {
        self.ranks() * self.sum(h - 1) + a * self.dim(h) + self.coord(b, h)
    }

    /// The hop, the sender and the reader of the link with this number.
    pub fn ends(&self, number: u32) -> (u32, u32, u32)
        requires { number < links self.now }
        ensures hop { result.0 ≡ hop_at self.now number }
        ensures sender { result.1 ≡ sender_at self.now number }
        ensures reader { result.2 ≡ reader_at self.now number }
        ensures link { IsLink self.now result.0 result.1 result.2 }
        ensures number { link self.now result.0 result.1 result.2 ≡ number }
    {
        let h = self.hop_among(self.ranks(), number);
        let rest = number - self.ranks() * self.sum(h - 1);
        let a = rest / self.dim(h);
        let b = self.with_coord(a, h, rest % self.dim(h));
        (h, a, b)
    }

    /// The hop of a number, if numbers are given hop by hop, and `per` of them to each
    /// coordinate.
    pub(crate) fn hop_among(&self, per: u32, number: u32) -> u32
        requires number { number < per * sum self.now }
        requires few { per ≤ 64 }
        ensures value { result ≡ hop_among per self.now number }
        ensures first { 1 ≤ result }
        ensures last { result ≤ length self.now }
        ensures from { per * links_before self.now result ≤ number }
        ensures below { number < per * links_before self.now result + per * dim self.now result }
    {
        if number < per * self.sum(1) {
            1
        } else if number < per * self.sum(2) {
            2
        } else {
            3
        }
    }

    /// The rank that has `c` for coordinate `h` and the other coordinates of `r`.
    pub(crate) fn with_coord(&self, r: u32, h: u32, c: u32) -> u32
        requires rank { r < ranks self.now }
        requires first { 1 ≤ h }
        requires last { h ≤ length self.now }
        requires coordinate { c < dim self.now h }
        ensures value { result ≡ with_coord self.now r h c }
        ensures link { IsLink self.now h r result }
        ensures coordinate { coord self.now result h ≡ c }
    {
        let moved = self.place(r, c * self.stride(h - 1), h);
        self.place(moved, r, h - 1)
    }
}
