//! New numbers of rows and columns, as the words give them.

ghost use Rattle.std.specs.Prelude.{◌≡◌, nat_lt, IfOk};
ghost use Rattle.std.specs.List.{list_all, range_with_len};
ghost use Rattle.bale_subjects.specs.Numberings.{from_zero, has_each, numbers_all, new_numbers};

use bale_items::NoMemory;
use bale_words::Numbers;
use sparse_rows::is_permutation;
use std::alloc::Global;

/// Whether a list, if one is given, has each number from 1 to `n` once.
///
/// # Errors
/// `NoMemory` if the marks of the numbers found none.
pub(crate) fn numbers_all(
    alloc: Global,
    n: u32,
    numbers: &Option<Numbers>,
) -> Result<bool, NoMemory>
    ensures { IfOk result (λ b. b ≡ numbers_all n numbers.now) }
{
    match numbers {
        None => Ok(true),
        Some(numbers) => {
            let numbers = numbers.as_slice();
            if are_from_1(numbers) {
                let lowered = from_zero(alloc, numbers)?;
                let whole = has_each(alloc, n, lowered.as_slice())?;
                Ok(whole)
            } else {
                Ok(false)
            }
        }
    }
}

/// Whether all are 1 or more.
fn are_from_1(numbers: &[u32]) -> bool
    ensures { result ≡ list_all (λ x. nat_lt 0 x) numbers.now }
{
    numbers.iter().all(|x| *x > 0)
}

/// The new numbers counted from 0: those of the list, or the old ones if none is given.
///
/// # Errors
/// `NoMemory` if the list found none.
pub fn new_numbers(alloc: Global, n: u32, numbers: &Option<Numbers>) -> Result<Vec<u32>, NoMemory>
    ensures { IfOk result (λ p. p.items ≡ new_numbers n numbers.now) }
{
    match numbers {
        None => in_order(alloc, n),
        Some(numbers) => from_zero(alloc, numbers.as_slice()),
    }
}

/// The numbers from 0 to `n - 1`, in order.
///
/// # Errors
/// `NoMemory` if the list found none.
pub fn in_order(alloc: Global, n: u32) -> Result<Vec<u32>, NoMemory>
    ensures { IfOk result (λ p. p.items ≡ range_with_len 0 n) }
{
    let mut numbers = Vec::with_capacity(alloc, n as usize)?;
    for x in 0..n {
        numbers.push(x)?;
    }
    Ok(numbers)
}

/// Numbers counted from 1, counted from 0.
fn from_zero(alloc: Global, numbers: &[u32]) -> Result<Vec<u32>, NoMemory>
    ensures { IfOk result (λ p. p.items ≡ from_zero numbers.now) }
{
    Ok(numbers.iter().map(|x| x.saturating_sub(1)).collect(alloc)?)
}

/// Whether a list has each number below `n` once.
fn has_each(alloc: Global, n: u32, numbers: &[u32]) -> Result<bool, NoMemory>
    ensures { IfOk result (λ b. b ≡ has_each n numbers.now) }
{
    let whole = is_permutation(alloc, numbers, n)?;
    Ok(whole)
}
