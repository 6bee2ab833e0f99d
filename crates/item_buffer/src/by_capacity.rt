//! One case for each capacity.

/// Calls a function that is compiled for each capacity, for one that `is_capacity` tells: each case
/// hands the values on.
#[macro_export]
macro_rules! by_capacity {
    ($cap:expr, $drive:ident::<$hops:tt, $($param:ty),*>, ($($value:expr),*)) => {
        if $cap == 1 {
            $drive::<1, $hops, $($param),*>($($value),*)
        } else if $cap == 2 {
            $drive::<2, $hops, $($param),*>($($value),*)
        } else if $cap == 4 {
            $drive::<4, $hops, $($param),*>($($value),*)
        } else if $cap == 8 {
            $drive::<8, $hops, $($param),*>($($value),*)
        } else if $cap == 16 {
            $drive::<16, $hops, $($param),*>($($value),*)
        } else if $cap == 32 {
            $drive::<32, $hops, $($param),*>($($value),*)
        } else if $cap == 64 {
            $drive::<64, $hops, $($param),*>($($value),*)
        } else if $cap == 128 {
            $drive::<128, $hops, $($param),*>($($value),*)
        } else if $cap == 256 {
            $drive::<256, $hops, $($param),*>($($value),*)
        } else if $cap == 512 {
            $drive::<512, $hops, $($param),*>($($value),*)
        } else if $cap == 1024 {
            $drive::<1024, $hops, $($param),*>($($value),*)
        } else {
            unreachable!()
        }
    };
}
