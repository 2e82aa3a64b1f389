// The 240 pairs of two different machines among sixteen, and the byte that stands for each.
// Knows nothing of jobs, plans, files, or how many machines a rack has.
#![tactic(auto)]

mod table;

pub use table::{machines_of, pair_of};
