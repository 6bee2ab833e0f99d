//! Words and lemmas on lists, sums over ranks and results, each stated once for all crates.
//!
//! The crate has no code. Contracts cite its definitions, and proofs its lemmas:
//!
//! | Module | Definitions (`specs/`) | Lemmas (`proofs/`) |
//! |---|---|---|
//! | `Lists` | `EachAt`: a fact of each place of a list and the element there; `IsPrefix`: a prefix of a list; `changed`, `changed_at`: a function with one other value, a list with one element changed | reads by `slice_get` after a write, a push or a map; `All` from the front; facts by place |
//! | `Sums` | `total`: a sum over the first n numbers, such as the ranks | bounds, sums of sums, one changed term, the sum of a list |
//! | `Counts` | `counted`: a count as a counter of 64 bits shows it | |
//! | `Mapping` | | lists under a map |
//! | `Results` | | facts on the answer `Ok`, joined and changed |
#![tactic(auto)]
