//! One case for each number of hops.

/// The most dimensions of a grid, and so the most hops of a route.
pub const MOST_HOPS: usize = 3;

/// Calls a function that is compiled for each number of hops, for a number from 1 to `MOST_HOPS`:
/// each case hands the values on.
#[macro_export]
macro_rules! by_hops {
    ($hops:expr, $drive:ident::<$($param:ty),*>, ($($value:expr),*)) => {
        match $hops {
            1 => $drive::<1, $($param),*>($($value),*),
            2 => $drive::<2, $($param),*>($($value),*),
            _ => $drive::<3, $($param),*>($($value),*),
        }
    };
}
