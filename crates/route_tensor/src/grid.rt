//! A grid of ranks: its dimensions, the coordinates of a rank, and the places of a route.
//!
//! Ranks are numbered with the first coordinate running fastest, `r = c1 + n1 * (c2 + n2 * c3)`, as
//! Fortran lays out an array. A missing dimension counts as one of a single coordinate.

ghost use Rattle.std.specs.Prelude.{◌≡◌, ℕ, ◌+◌, ◌-◌, ◌*◌, ◌<◌, ◌≤◌, List, length, take, sum, IfOk};
ghost use Rattle.std.specs.List.{slice_index_or};
ghost use Rattle.std.specs.Result.{result_err};
ghost use Rattle.route_tensor.specs.Grid.{ranks, dim, coord, place, IsGrid};
ghost use Rattle.route_tensor.specs.GridNumbers.{dims_kept};
ghost use Rattle.route_tensor.specs.Refusal.{refusal};
ghost use Rattle.route_tensor.specs.Link.{links, IsLink, IsPlace};

use crate::by_hops::MOST_HOPS;
use std::marker::Model;

/// Why numbers are no grid.
#[derive(Clone, Copy, PartialEq, Eq, Debug)]
pub enum GridError {
    /// There are not one to three of them.
    Order,
    /// One of them is 0.
    ZeroDim,
    /// Their product is over 64.
    TooManyRanks,
}

/// One to three positive dimensions with at most 64 ranks. Contracts see the list of the
/// dimensions.
#[derive(Clone, Copy)]
pub struct Grid {
    /// How many dimensions there are.
    hops: u32,
    /// The dimensions, and 1 for those that are not there.
    pub(crate) n1: u32,
    pub(crate) n2: u32,
    pub(crate) n3: u32,
}

impl Model for Grid {
    ghost use Rattle.std.specs.Prelude.{ℕ, List, length};
    ghost use Rattle.std.specs.List.{slice_index_or};
    ghost use Rattle.route_tensor.specs.GridNumbers.{IsKeptGrid, dims_kept};
    ghost use Rattle.route_tensor.specs.GridNumbers.Laws.{inverse_of_kept};

    ghost Value = { List ℕ };

    ghost view = { λ g. dims_kept g.hops g.n1 g.n2 g.n3 };

    ghost invariant = { λ g. IsKeptGrid g.hops g.n1 g.n2 g.n3 };

    ghost inverse = { λ dims. record {
      hops = length dims;
      n1 = slice_index_or dims 0 1;
      n2 = slice_index_or dims 1 1;
      n3 = slice_index_or dims 2 1;
    } };

    ghost inverse_ok = { λ a h. inverse_of_kept a h };
}

impl Grid {
    /// The grid of these dimensions.
    ///
    /// # Errors
    /// The first that fits of `Order`, `ZeroDim` and `TooManyRanks`.
    pub fn new(dims: &[u32]) -> Result<Grid, GridError>
        ensures refused { result_err result ≡ refusal dims.now }
        ensures made { IfOk result (λ g. g ≡ dims.now) }
        ensures grid { IfOk result (λ g. IsGrid g) }
    {
        if dims.is_empty() || dims.len() > MOST_HOPS {
            return Err(GridError::Order);
        }
        Grid::of_three(
            dims.len() as u32,
            dim_or_one(dims, 0),
            dim_or_one(dims, 1),
            dim_or_one(dims, 2),
        )
    }

    /// The grid of the first `hops` of three dimensions, the others being 1.
    fn of_three(hops: u32, n1: u32, n2: u32, n3: u32) -> Result<Grid, GridError>
        requires some { 1 ≤ hops }
        requires few { hops ≤ 3 }
        requires second { hops < 2 → n2 ≡ 1 }
        requires third { hops < 3 → n3 ≡ 1 }
        ensures refused { result_err result ≡ refusal (dims_kept hops n1 n2 n3) }
        ensures made { IfOk result (λ g. g ≡ dims_kept hops n1 n2 n3) }
        ensures grid { IfOk result (λ g. IsGrid g) }
    {
        let ranks = u128::from(n1) * u128::from(n2) * u128::from(n3);
        if ranks == 0 {
            return Err(GridError::ZeroDim);
        }
        if ranks > 64 {
            return Err(GridError::TooManyRanks);
        }
        Ok(Grid { hops, n1, n2, n3 })
    }

    /// How many ranks there are, at most 64.
    #[tactic(auto, using(crate::proofs::Kept::bounds_kept))]
    pub fn ranks(&self) -> u32
        ensures value { result ≡ ranks self.now }
        ensures grid { IsGrid self.now }
    {
        self.n1 * self.n2 * self.n3
    }

    /// Does nothing, and states what holds of a grid at every moment.
    pub fn known(&self)
        ensures { IsGrid self.now }
    {
        let _side = self.n1;
    }

    /// How many dimensions there are, and so how many hops a route has: 1, 2 or 3.
    pub fn hops(&self) -> u32
        ensures value { result ≡ length self.now }
        ensures grid { IsGrid self.now }
    {
        self.hops
    }

    /// How many links there are, at most 4,224.
    pub fn links(&self) -> u32
        ensures value { result ≡ links self.now }
        ensures most { result ≤ 4224 }
        ensures grid { IsGrid self.now }
    {
        self.ranks() * self.sum(self.hops)
    }

    /// Coordinate `h` of rank `r`, with `h` from 1.
    pub fn coord(&self, r: u32, h: u32) -> u32
        requires rank { r < ranks self.now }
        requires first { 1 ≤ h }
        requires last { h ≤ length self.now }
        ensures value { result ≡ coord self.now r h }
        ensures number { r ≡ coord self.now r 1 + dim self.now 1 *
            (coord self.now r 2 + dim self.now 2 * coord self.now r 3) }
        ensures below { result < dim self.now h }
        ensures small { result < 64 }
        ensures grid { IsGrid self.now }
    {
        r / self.stride(h - 1) % self.dim(h)
    }

    /// The place of an entry from `s` to `d` after `h` hops.
    pub fn place(&self, s: u32, d: u32, h: u32) -> u32
        requires sender { s < ranks self.now }
        requires destination { d < ranks self.now }
        requires hop { h ≤ length self.now }
        ensures value { result ≡ place self.now s d h }
        ensures place { IsPlace self.now s d h result }
        ensures grid { IsGrid self.now }
    {
        let stride = self.stride(h);
        s - s % stride + d % stride
    }

    /// Dimension `h`, with `h` from 1.
    #[tactic(auto, using(crate::proofs::Kept::bounds_kept))]
    pub(crate) fn dim(&self, h: u32) -> u32
        requires first { 1 ≤ h }
        requires last { h ≤ length self.now }
        ensures value { result ≡ dim self.now h }
        ensures some { 0 < result }
        ensures most { result ≤ 64 }
    {
        match h {
            1 => self.n1,
            2 => self.n2,
            _ => self.n3,
        }
    }

    /// The sum of the first `h` dimensions.
    #[tactic(auto, using(crate::proofs::Kept::bounds_kept))]
    pub(crate) fn sum(&self, h: u32) -> u32
        requires { h ≤ length self.now }
        ensures value { result ≡ sum (take h self.now) }
        ensures grid { IsGrid self.now }
        ensures most { result ≤ 66 }
    {
        match h {
            0 => 0,
            1 => self.n1,
            2 => self.n1 + self.n2,
            _ => self.n1 + self.n2 + self.n3,
        }
    }

    /// The product of the first `h` dimensions: by how much two ranks differ that differ by 1 in
    /// coordinate `h + 1` alone.
    #[tactic(auto, using(crate::proofs::Kept::bounds_kept))]
    pub(crate) fn stride(&self, h: u32) -> u32
        requires { h ≤ length self.now }
        ensures value { result ≡ ranks (take h self.now) }
        ensures grid { IsGrid self.now }
        ensures some { 0 < result }
        ensures most { result ≤ 64 }
    {
        match h {
            0 => 1,
            1 => self.n1,
            2 => self.n1 * self.n2,
            _ => self.n1 * self.n2 * self.n3,
        }
    }
}

/// The number at this place, or 1 past the end.
fn dim_or_one(dims: &[u32], at: usize) -> u32
    ensures { result ≡ slice_index_or dims.now at 1 }
{
    dims.get(at).copied().unwrap_or(1)
}
