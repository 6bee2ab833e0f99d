//! Whether a list is a permutation.
ghost use Rattle.std.specs.Prelude.{IfOk, Decides};
ghost use Rattle.sparse_rows.specs.Permutations.{Permutes};

use bale_items::NoMemory;
use std::alloc::Global;

/// Whether `p` has each number below `n` once and no other. Takes no more memory than a byte for
/// each number of `p`.
///
/// # Errors
///
/// `NoMemory` if there was none for the marks.
pub fn is_permutation(alloc: Global, p: &[u32], n: u32) -> Result<bool, NoMemory>
    ensures { IfOk result (λ b. Decides b (Permutes n p.now)) }
{
    if p.len() != n as usize {
        return Ok(false);
    }
    let mut seen = vec![in alloc; false; p.len()]?;
    for x in p {
        let at = *x as usize;
        if at >= seen.len() {
            return Ok(false);
        }
        if seen[at] {
            return Ok(false);
        }
        seen[at] = true;
    }
    Ok(true)
}
