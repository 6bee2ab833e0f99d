//! What an absorb changes of a rank of topo: numbers at places, and what came.

ghost use Rattle.std.specs.Prelude.{◌≡◌, ◌<◌, ◌+◌, ◌-◌, ◌/◌, ◌^◌, ◌==◌, ◌&&◌, is_ok, if◌then◌else◌, min};
ghost use Rattle.mtx_text.specs.Cells.{with_value_raised};
ghost use Rattle.app_topo.specs.Topos.{with_rise, number_at, spot};
ghost use Rattle.app_topo.specs.code.TopoPlaces.{IsPlaced};

use bale_items::NoMemory;
use mtx_text::Cells;

/// Lets the number at `x` rise by `b`, modulo 2^64.
#[inline(always)]
pub(crate) fn add(numbers: &mut Vec<u64>, ranks: u32, x: u64, b: u64)
    requires { IsPlaced ranks x numbers.old.items }
    ensures { numbers.new.items ≡ with_rise ranks numbers.old.items x b }
{
    let place = (x as u32 / ranks) as usize;
    numbers[place] = numbers[place].wrapping_add(b);
}

/// Lets the number at `x` fall by `b`, modulo 2^64.
#[inline(always)]
pub(crate) fn lessen(numbers: &mut Vec<u64>, ranks: u32, x: u64, b: u64)
    requires { IsPlaced ranks x numbers.old.items }
    ensures { numbers.new.items ≡ with_rise ranks numbers.old.items x (2 ^ 64 - b) }
{
    let place = (x as u32 / ranks) as usize;
    numbers[place] = numbers[place].wrapping_sub(b);
}

/// The number at `x`.
#[inline(always)]
pub(crate) fn number_at(numbers: &[u64], ranks: u32, x: u64) -> u64
    requires { IsPlaced ranks x numbers.now }
    ensures { result ≡ number_at ranks numbers.now x }
{
    numbers[(x as u32 / ranks) as usize]
}

/// Notes that `a` and `b` came.
#[inline(always)]
pub(crate) fn mark(came: &mut Cells, a: u64, b: u64) -> Result<(), NoMemory>
    requires first { a < 2 ^ 32 }
    requires second { b < 2 ^ 32 }
    ensures { came.new ≡ (if is_ok result then with_value_raised (spot a b) came.old else came.old) }
{
    came.raise(a as u32, b as u32, 0)
}

/// Notes that `a` came, if so wished.
#[inline(always)]
pub(crate) fn mark_if(came: &mut Cells, wished: bool, a: u64) -> Result<(), NoMemory>
    requires { a < 2 ^ 32 }
    ensures { came.new ≡ (if is_ok result && wished then with_value_raised (spot a 0) came.old else came.old) }
{
    if wished {
        return mark(came, a, 0);
    }
    Ok(())
}

/// How many columns were claimed for the first time, after a claim of one that had `count` claims.
#[inline(always)]
pub(crate) fn fresh_after(fresh: u32, count: u64) -> u32
    ensures { result ≡ (if count == 0 then min (fresh + 1) (2 ^ 32 - 1) else fresh) }
{
    if count == 0 {
        fresh.saturating_add(1)
    } else {
        fresh
    }
}
